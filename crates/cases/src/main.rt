// Runs each case of its files against the operations of the engine. Prints what a case got where that is not what it expects, and for
// each file how many cases there are and how many were wrong. A case that cannot be read gets 1 at 0.
#![tactic(auto)]

mod change;
mod lines;
mod live;
mod parts;
mod trial;

use std::fs::File;
use std::io::Write;
use std::rt::Files;
use text::Writer;

// The first line of a case and what it got.
fn print_wrong<W: Write>(to: &mut W, name: &[u8], got: &[u8]) {
    let _ = to.write_all(name);
    let _ = to.write_all(got);
    let _ = to.write_all(b"end\n");
}

// Whether the case between two lines gets something else than it expects, which is printed.
fn is_wrong<W: Write>(to: &mut W, s: &[u8], at: usize, next: usize) -> bool {
    let case = parts::case_at(s, next);
    let mut got = [0u8; 16384];
    let mut w = Writer::new(&mut got);
    trial::put_outcome(&mut w, s, case);
    let n = w.at;
    let text = lines::part(&got, 0, n);
    let mut expected = [0u8; 16384];
    let e = lines::decode(lines::between(s, case.expect, case.end), &mut expected);
    if text == e.unwrap_or(&[]) {
        return false;
    }
    print_wrong(to, lines::part(s, at, next), text);
    true
}

fn print_count<W: Write>(to: &mut W, name: &str, cases: usize, wrong: usize) {
    let _ = writeln!(to, "{name}: {cases} cases, {wrong} wrong");
}

// Runs all cases of a file's text.
fn run_all<W: Write>(to: &mut W, name: &str, s: &[u8]) {
    let mut cases: usize = 0;
    let mut wrong: usize = 0;
    let mut at: usize = 0;
    // The next position is the one behind the line that was read.
    while at < s.len() {
        let next = lines::behind(s, at, b'\n');
        if text::begins_at(s, at, b"case ") {
            cases += 1;
            if is_wrong(to, s, at, next) {
                wrong += 1;
            }
        }
        at = next;
    }
    print_count(to, name, cases, wrong);
}

// Runs all cases of a file, none of one that is not there. Of one that does not fit the buffer nothing is printed.
fn run_file<R: Files, W: Write>(rt: &R, to: &mut W, name: &str) {
    let mut text = [0u8; 65536];
    let n = match File::open(rt, name) {
        Ok(mut file) => console::read_full(&mut file, &mut text),
        Err(_) => 0,
    };
    if n < 65536 {
        run_all(to, name, &text[..n]);
    }
}

fn main(rt: HostRuntime) {
    let mut out = rt.stdout();
    let names = [
        "cards",
        "values",
        "replay",
        "round",
        "timetable",
        "process",
        "rank",
        "join",
        "join-drawn",
        "live",
    ];
    for name in names {
        run_file(&rt, &mut out, name);
    }
}
