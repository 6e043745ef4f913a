// The record of an open run lent by its caller: a wait, a firing and the closing, each the by-value core on what the record holds, so that only few thin
// functions borrow. A refused step leaves it bit for bit.
#![tactic(auto)]

ghost use Rattle.std.specs.Prelude.{◌≡◌};
ghost use Rattle.reply.specs.Respond.{output_of};
ghost use Rattle.open_run.specs.Open.{wait_of, fire_of, close_of, closing};

use open_run::{Entered, OpenRun};
use reply::Refusal;

// Enters a wait.
pub fn wait(run: &mut OpenRun, parts: u32) -> Result<(), Refusal>
    ensures { (result ≡ (wait_of run.old parts).checked) × (run.new ≡ (wait_of run.old parts).run) }
{
    let s = entering::enter_wait(*run, parts);
    *run = s.run;
    s.checked
}

// Enters a firing.
pub fn fire(run: &mut OpenRun, t: u32) -> Result<(), Refusal>
    ensures { (result ≡ (fire_of run.old t).checked) × (run.new ≡ (fire_of run.old t).run) }
{
    let s = entering::enter_fire(*run, t);
    *run = s.run;
    s.checked
}

// Closes a run with a rest: its card.
pub fn close<'r, 'o>(run: &'r mut OpenRun, rest: u32, out: &'o mut [u8]) -> Result<usize, Refusal>
    ensures { (result ≡ (closing run.old rest out.old).reply)
        × (run.new ≡ (closing run.old rest out.old).run)
        × (out.new ≡ output_of (close_of run.old rest) out.old) }
{
    let s = entering::finish(*run, rest, out);
    *run = s.run;
    s.reply
}

// A firing entered in a record that is lent to `fire`, for callers that hold it by value.
pub fn fire_once(start: OpenRun, t: u32) -> Entered
    ensures { result ≡ fire_of start t }
{
    let mut run = start;
    let checked = fire(&mut run, t);
    Entered { checked, run }
}
