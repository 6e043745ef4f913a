// Ranks a run among two of one order: reads a net card, run X's card and run Y's card, prints how X stands to Y or why they are not ranked.
#![tactic(auto)]

fn main(rt: HostRuntime) {
    let mut input = [0u8; 65536];
    let mut out = [0u8; 4096];
    let n = console::read_full(&mut rt.stdin(), &mut input);
    let r = ranking::rank_cards(&input[..n], &mut out);
    let _ = console::print_reply(&mut rt.stdout(), r, &out);
}
