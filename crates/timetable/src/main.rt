// Finds the earliest timetable of a firing order: reads a net card and an order card, prints a run card or why there is none.
#![tactic(auto)]

fn main(rt: HostRuntime) {
    let mut input = [0u8; 65536];
    let mut out = [0u8; 4096];
    let n = console::read_full(&mut rt.stdin(), &mut input);
    let r = engine::timetable_cards(&input[..n], &mut out);
    let _ = console::print_reply(&mut rt.stdout(), r, &out);
}
