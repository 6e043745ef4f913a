// Replays a run: reads a net card and a run card, prints the end of the run or why it is refused.
#![tactic(auto)]

fn main(rt: HostRuntime) {
    let mut input = [0u8; 65536];
    let mut out = [0u8; 4096];
    let n = console::read_full(&mut rt.stdin(), &mut input);
    let r = engine::replay_cards(&input[..n], &mut out);
    let _ = console::print_reply(&mut rt.stdout(), r, &out);
}
