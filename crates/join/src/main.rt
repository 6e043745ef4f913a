// Joins two nets: reads a net card, the other's card and the line `pairs`, prints the card of the joined net or why they are not joined.
#![tactic(auto)]

// A line `pairs` that does not end within 65,536 bytes has no end: the byte behind them is not looked at, but that there is one is.
fn main(rt: HostRuntime) {
    let mut input = [0u8; 65537];
    let mut out = [0u8; 5632];
    let n = console::read_full(&mut rt.stdin(), &mut input);
    input[65536] = 0;
    let r = joining::join_cards(&input[..n], &mut out);
    let _ = console::print_reply(&mut rt.stdout(), r, &out);
}
