// An open run tried by lines: steps and calls in a record that may be made by hand, one behind the other. Firings are entered in a record that is lent.

use super::{lines, trial};
use net::Net;
use open_run::{Entered, OpenRun};
use reply::Refusal;
use run::Run;
use session::Entry;
use text::Writer;

// The record of a net and a run.
pub(crate) fn record(net: Net, run: Run) -> OpenRun {
    OpenRun {
        net,
        run,
        running: true,
    }
}

// What a step says.
pub(crate) fn put_checked(w: &mut Writer, c: Result<(), Refusal>) {
    match c {
        Ok(()) => w.put_bytes(b"ok\n"),
        Err(why) => console::put_refusal(w, why),
    }
}

// What a step says, and the record behind it.
fn entered(w: &mut Writer, e: Entered) -> OpenRun {
    put_checked(w, e.checked);
    e.run
}

// What the line with a number is answered, and the record behind it. Other than the answers of `session`, these enter firings in a record that is lent, and
// lend an output of any length.
fn tell(w: &mut Writer, run: OpenRun, n: usize, line: &[u8], out: &mut [u8]) -> OpenRun {
    let Some(entry) = session::read_entry(line) else {
        console::put_refusal(w, Refusal::Malformed(n));
        return run;
    };
    match entry {
        Entry::Wait(parts) => entered(w, entering::enter_wait(run, parts)),
        Entry::Fire(t) => entered(w, lending::fire_once(run, t)),
        Entry::Rest(rest) => {
            let c = entering::finish(run, rest, &mut *out);
            trial::put_reply(w, c.reply, out);
            c.run
        }
        Entry::State => {
            let r = entering::state(run, &mut *out);
            trial::put_reply(w, r, out);
            run
        }
        Entry::Timetable => {
            let r = entering::timetable(run, &mut *out);
            trial::put_reply(w, r, out);
            run
        }
    }
}

// The answers to lines, which are counted from 4.
pub(crate) fn put_answers(w: &mut Writer, start: OpenRun, size: usize, script: &[u8]) {
    let mut run = start;
    let mut at: usize = 0;
    let mut n: usize = 4;
    // The next position is the one behind the line that was read.
    while at < script.len() {
        let next = lines::behind(script, at, b'\n');
        let line = lines::part(script, at, next);
        let mut lent = trial::prepared();
        run = tell(w, run, n, line, &mut lent[..size.min(16384)]);
        at = next;
        n = n.saturating_add(1);
    }
}
