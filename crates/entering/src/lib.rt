// Runs entered step by step, by value: opening, waits, firings, closing, and the calls for the state and the timetable.
#![tactic(auto)]

ghost use Rattle.std.specs.Prelude.{◌≡◌, suc, ◌+◌, ◌≤◌, ◌<◌};
ghost use Rattle.reply.specs.Respond.{Responded, written_if, output_of};
ghost use Rattle.form.specs.Form.{also};
ghost use Rattle.form.specs.Line.{ranged};
ghost use Rattle.net.specs.Net.{net_card};
ghost use Rattle.firing.specs.Replay.{judged};
ghost use Rattle.open_run.specs.Open.{blank, blank_behind, with_run, no_steps, wait_added, fire_added, wait_checked, fire_checked, left_by};
ghost use Rattle.open_run.specs.Open.{open_of, wait_of, fire_of, close_of, closing, state_of, order_so_far, timetable_now};
ghost use Rattle.entering.specs.Code.{Stands};

use firing::{Attempt, State};
use form::{Judge, Listed, Range};
use net::Net;
use open_run::{Closing, Entered, OpenRun};
use reply::Refusal;
use run::{Firing, Memory, NO_FIRING, Order, Run};
use std::array;
use steps::Terms;

// ---- where a record stands

// Whether a slot holds nothing.
fn is_blank(firing: &Firing) -> bool
    ensures { result ≡ blank firing.now }
{
    firing.wait == 0 && firing.fire == 0
}

// Whether the slots of a run past its count hold nothing.
fn is_blank_behind(run: Run) -> bool
    ensures { result ≡ blank_behind run }
{
    run.firings.iter().skip(run.count).all(is_blank)
}

// Where an open run stands: the state behind its steps, the waits since the last firing among them. 15 for any other record.
fn standing(run: OpenRun) -> Result<State, Refusal>
    ensures { Stands run result }
{
    if !run.running || run_card::check(run.net, run.run).is_err() {
        return Err(Refusal::ClosedRun);
    }
    let played = steps::play(run.net, run.run);
    if played.checked.is_err() || !is_blank_behind(run.run) {
        return Err(Refusal::ClosedRun);
    }
    let mut state = played.state;
    state.now += run.run.rest as u64;
    Ok(state)
}

// ---- opening

// The record of a run without steps.
fn without_steps(net: Net, memory: Memory, denominator: u32, running: bool) -> OpenRun
    ensures { result ≡ record { net = net; run = no_steps net memory denominator; running = running } }
{
    let run = Run {
        sheet: net.sheet,
        memory,
        denominator,
        count: 0,
        firings: [NO_FIRING; 64],
        rest: 0,
    };
    OpenRun { net, run, running }
}

// A net, then a denominator, as they are checked where a run is opened.
fn check_opening(net: Net, denominator: u32) -> Result<(), Refusal>
    ensures { result ≡ also (net_card.check net 1) (ranged 1 1000 denominator 0) }
{
    net_card::check_net(net)?;
    Range(1, 1000).check(denominator as u64, 0)
}

// Opens a run on a net.
pub fn open_on(net: Net, memory: Memory, denominator: u32) -> Entered
    ensures { result ≡ open_of net memory denominator }
{
    let checked = check_opening(net, denominator);
    Entered {
        checked,
        run: without_steps(net, memory, denominator, checked.is_ok()),
    }
}

// ---- a wait

// What is found against a wait, and against a rest that closes.
fn check_wait(run: OpenRun, parts: u32) -> Result<(), Refusal>
    ensures { result ≡ wait_checked run parts }
{
    standing(run)?;
    let sum = run.run.rest as u64 + parts as u64;
    Range(0, 10000000).check(sum, run.run.count + 1)
}

// A record with a wait added.
fn with_wait(run: OpenRun, parts: u32) -> OpenRun
    requires { run.run.rest + parts ≤ 10000000 }
    ensures { result ≡ with_run run (wait_added run.run parts) }
{
    let mut waited = run;
    waited.run.rest += parts;
    waited
}

// Enters a wait. A firing is entered likewise, but what is added may be made only once its own check has passed.
pub fn enter_wait(run: OpenRun, parts: u32) -> Entered
    ensures { result ≡ wait_of run parts }
{
    let checked = check_wait(run, parts);
    match checked {
        Ok(()) => Entered {
            checked,
            run: with_wait(run, parts),
        },
        Err(_) => Entered { checked, run },
    }
}

// ---- a firing

// The next firing of a run, of t, judged in a state.
fn judge(net: Net, run: Run, state: State, t: u32) -> Result<(), Refusal>
    requires { (run.count < 64) × (t < 32) }
    ensures { result ≡ judged net run.denominator state t (suc run.count) }
{
    let terms = Terms::of(&net, run.memory, run.denominator);
    let t = t as usize;
    let attempt = Attempt {
        t,
        interval: net.table[t],
        instant: state.now,
        number: run.count + 1,
    };
    let mut after = state;
    steps::step(terms, attempt, &mut after.marking, &mut after.since)
}

// What is found against a firing of t.
fn check_fire(run: OpenRun, t: u32) -> Result<(), Refusal>
    ensures { result ≡ fire_checked run t }
{
    let state = standing(run)?;
    let number = run.run.count + 1;
    Range(0, 63).check(run.run.count as u64, number)?;
    Listed(run.net.transitions as u64).check(t as u64, number)?;
    judge(run.net, run.run, state, t)
}

// A record with a firing added, behind the waits since the last one.
fn with_fire(run: OpenRun, t: u32) -> OpenRun
    requires { run.run.count < 64 }
    ensures { result ≡ with_run run (fire_added run.run t) }
{
    let mut fired = run;
    fired.run.firings[run.run.count] = Firing {
        wait: run.run.rest,
        fire: t,
    };
    fired.run.count += 1;
    fired.run.rest = 0;
    fired
}

// Enters a firing.
pub fn enter_fire(run: OpenRun, t: u32) -> Entered
    ensures { result ≡ fire_of run t }
{
    let checked = check_fire(run, t);
    match checked {
        Ok(()) => Entered {
            checked,
            run: with_fire(run, t),
        },
        Err(_) => Entered { checked, run },
    }
}

// ---- closing

// What a reply makes of the record that was to be closed.
fn left_by(reply: Result<usize, Refusal>, run: OpenRun) -> Closing
    ensures { result ≡ record { reply = reply; run = left_by reply run } }
{
    let left = OpenRun {
        running: run.running && reply.is_err(),
        ..run
    };
    Closing { reply, run: left }
}

// The card of a run with a rest, as the answer.
fn respond_closing(run: OpenRun, rest: u32, out: &mut [u8]) -> Result<usize, Refusal>
    ensures { Responded (close_of run rest) out.old result out.new }
{
    check_wait(run, rest)?;
    let last = with_wait(run, rest);
    run_card::write(last.net, last.run, out)
}

// Closes a run with a rest: its card, and the record behind it.
pub fn finish(run: OpenRun, rest: u32, out: &mut [u8]) -> Closing
    ensures { (result ≡ closing run rest out.old) × (out.new ≡ output_of (close_of run rest) out.old) }
{
    let reply = respond_closing(run, rest, out);
    left_by(reply, run)
}

// ---- the calls

// The end marking and the clocks, where the run stands.
pub fn state(run: OpenRun, out: &mut [u8]) -> Result<usize, Refusal>
    ensures { Responded (state_of run) out.old result out.new }
{
    let state = standing(run)?;
    engine::respond_end(run.net, state, out)
}

// The order of the firings so far.
fn order_so_far(run: Run) -> Order
    ensures { result ≡ order_so_far run }
{
    Order {
        sheet: run.sheet,
        memory: run.memory,
        count: run.count,
        fires: array::from_fn(|i| run.firings[i].fire),
    }
}

// The earliest timetable of the firings so far.
pub fn timetable(run: OpenRun, out: &mut [u8]) -> Result<usize, Refusal>
    ensures { Responded (timetable_now run) out.old result out.new }
{
    standing(run)?;
    engine::timetable(run.net, order_so_far(run.run), out)
}
