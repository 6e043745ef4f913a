// Whole-tick runs: a run rounded down, and the earliest timetable of a firing order.
#![tactic(auto)]

ghost use Rattle.std.specs.Prelude.{◌≡◌, ◌+◌, ◌*◌, ◌-◌, ◌/◌, ◌≤◌, min};
ghost use Rattle.timing.specs.Rounding.{rounded_run};
ghost use Rattle.schedule.specs.Collect.{collected};
ghost use Rattle.schedule.specs.Timetable.{gap_of, timed_run, timetabled};

use firing::Attempt;
use net::{NO_TRANSITION, Net};
use reply::Refusal;
use run::{Firing, NO_FIRING, Order, Run};
use steps::Terms;
use timing::Window;

// What stands for a window that is none.
const NO_WINDOW: Window = Window {
    origin: 0,
    interval: NO_TRANSITION,
};

// What the tokens say of an order, and the window of each firing. Instants count firings, and every clock is in time.
fn collect(net: Net, order: Order) -> Result<[Window; 64], Refusal>
    ensures { result ≡ collected net order }
{
    let terms = Terms::of(&net, order.memory, 1);
    let count = order.count.min(64);
    let mut windows = [NO_WINDOW; 64];
    let mut marking = steps::start_marking(net.start, net.places);
    let mut since = [0u64; 32];
    for (i, fire) in order.fires[..count].iter().enumerate() {
        let t = *fire as usize;
        if t < 32 {
            windows[i] = Window {
                origin: since[t] as usize,
                interval: net.table[t],
            };
        }
        // No interval forbids this attempt.
        let number = i + 1;
        let attempt = Attempt {
            t,
            interval: NO_TRANSITION,
            instant: number as u64,
            number,
        };
        steps::step(terms, attempt, &mut marking, &mut since)?;
    }
    Ok(windows)
}

// The whole ticks of a number of parts, d to a tick; none where d is 0.
fn whole(parts: u64, d: u32) -> u64
    ensures { result ≡ parts / d }
{
    parts.checked_div(d as u64).unwrap_or(0)
}

// A wait from an instant, its ends rounded down to whole ticks.
fn whole_wait(instant: u64, wait: u32, d: u32) -> u32
    requires { instant ≤ 64 * 4294967295 }
    ensures { result ≡ (instant + wait) / d - instant / d }
{
    let end = whole(instant + wait as u64, d);
    let start = whole(instant, d);
    (end - start) as u32
}

// A run with each instant, the end included, rounded down to whole ticks.
pub fn rounded_run(run: Run) -> Run
    ensures { result ≡ rounded_run run }
{
    let count = run.count.min(64);
    let mut firings = [NO_FIRING; 64];
    let mut instant: u64 = 0;
    // Written by index: of what a zip with `iter_mut` writes, the proof knows nothing behind the loop. So too in `collect` and `timetable_run`.
    for (i, firing) in run.firings[..count].iter().enumerate() {
        firings[i] = Firing {
            wait: whole_wait(instant, firing.wait, run.denominator),
            fire: firing.fire,
        };
        instant += firing.wait as u64;
    }
    Run {
        sheet: run.sheet,
        memory: run.memory,
        denominator: 1,
        count,
        firings,
        rest: whole_wait(instant, run.rest, run.denominator),
    }
}

// The wait from an instant to another, as far as a run can hold it.
fn gap(from: u64, to: u64) -> u32
    ensures { result ≡ gap_of from to }
{
    u32::try_from(to.saturating_sub(from)).unwrap_or(u32::MAX)
}

// The run of an order at given instants S0, S1, .., in whole ticks.
fn timetable_run(order: Order, instants: [u64; 65]) -> Run
    ensures { result ≡ timed_run order instants }
{
    let count = order.count.min(64);
    let mut firings = [NO_FIRING; 64];
    for (i, fire) in order.fires[..count].iter().enumerate() {
        firings[i] = Firing {
            wait: gap(instants[i], instants[i + 1]),
            fire: *fire,
        };
    }
    Run {
        sheet: order.sheet,
        memory: order.memory,
        denominator: 1,
        count,
        firings,
        rest: 0,
    }
}

// The earliest timetable of an order on a net, or the refusal. Its windows and instants have left the stack before the answer is written.
#[inline(never)]
pub fn timetable(net: Net, order: Order) -> Result<Run, Refusal>
    ensures { result ≡ timetabled net order }
{
    let windows = collect(net, order)?;
    match sweep::find_earliest(windows, order.count) {
        Ok(instants) => Ok(timetable_run(order, instants)),
        Err(k) => Err(Refusal::Untimable(k)),
    }
}
