// The earliest instants of windows. Firings enter one after the other; where the new one is past its upper bound, instants are raised by sweeps back
// along upper bounds and forward along order and lower bounds. The work depends on the number of windows, not on the size of their bounds.
#![tactic(auto)]

ghost use Rattle.std.specs.Prelude.{◌≡◌, cond, ℕ, suc, ◌+◌, ◌*◌, ◌<◌, ◌≤◌, ◌^◌, length, MatchOption};
ghost use Rattle.timing.specs.Solve.{instant_at, solve_prefixes};
ghost use Rattle.timing.specs.Windows.{upper_of, windows as window_in};
ghost use Rattle.sweep.specs.Arrays.{Listed, Short, Clipped, earliest_by, earliest_of};
ghost use Rattle.sweep.specs.Sweeps.{asked, Follows, InTime, Backward, Ahead, Forward, Reaching, Solved, Entered, Unmet};

use timing::Window;

// What a sweep backward raised: the lowest index that rose; and no window from `until` on needs a look in the sweep forward, but where a firing rises in it.
#[derive(Clone, Copy)]
struct Raised {
    from: usize,
    until: usize,
}

// What a sweep forward raised: the window of the first firing that rose, and the last firing that rose.
#[derive(Clone, Copy)]
struct Risen {
    first: usize,
    last: usize,
}

// An upper bound, and that it is below 2 ^ 32, which is not told of a number in an `Option`.
fn ticks(latest: u32) -> u64
    ensures { (result ≡ latest) × (result < 2 ^ 32) }
{
    u64::from(latest)
}

// The least instant of the origin with which a firing at t is within an upper bound.
fn least_origin(latest: Option<u32>, t: u64) -> u64
    ensures { result ≡ asked (upper_of latest) t }
{
    match latest {
        None => 0,
        Some(high) => t.saturating_sub(high as u64),
    }
}

// Raises origins along the upper bounds of the windows top - 1, .., 0, of which those below `bottom` are met and need no look unless their firing rises.
// `reach` tells of each firing how far the windows stand that it may leave unmet when it rises: the one right behind it, and those that count from it.
// Instants and windows stay parameters: a struct that kept them, and that the windows are `Listed`, would be made anew for the first windows, which are all
// that `settle` gets.
fn backward(
    x: &mut [u64; 65],
    windows: &[Window],
    reach: &[usize; 65],
    bottom: usize,
    top: usize,
) -> Option<Raised>
    requires listed { Listed windows.now × Reaching (window_in windows.now) (length windows.now) reach.now }
    requires below { (bottom ≤ top) × (top ≤ length windows.now) }
    requires met { (j : ℕ) → j < bottom → InTime (window_in windows.now) (instant_at x.old) j }
    requires follows { (j : ℕ) → j < length windows.now → Follows (window_in windows.now) (instant_at x.old) j }
    requires small { (j : ℕ) → j ≤ length windows.now → instant_at x.old j ≤ 64 * 2 ^ 32 }
    ensures { let W = window_in windows.now in let k = length windows.now in
        MatchOption result (Backward W top x.old top 0 x.new)
        (λ raised. Backward W top x.old raised.from 0 x.new × (raised.from < top) × Ahead W k raised.until x.new
        × ((j : ℕ) → j ≤ k → instant_at x.new j ≤ 64 * 2 ^ 32)) }
{
    let mut from = top;
    let mut until: usize = 0;
    let mut stop = bottom;
    let mut i = top;
    // The bottom falls with the firings that rise, so that this is no loop over a range.
    while stop < i {
        i -= 1;
        let window = windows[i];
        if let Some(latest) = window.interval.latest {
            let high = ticks(latest);
            let origin = window.origin;
            let t = x[i + 1];
            if x[origin] + high < t {
                x[origin] = t - high;
                from = from.min(origin);
                until = until.max(reach[origin]);
                stop = stop.min(origin.saturating_sub(1));
            }
        }
    }
    (from < top).then_some(Raised { from, until })
}

// Raises the firings behind `from` along order and lower bounds. Windows from `until` on need no look unless the firing before them or their origin rises.
fn forward(
    x: &mut [u64; 65],
    windows: &[Window],
    reach: &[usize; 65],
    from: usize,
    mut until: usize,
) -> Option<Risen>
    requires listed { Listed windows.now × Reaching (window_in windows.now) (length windows.now) reach.now }
    requires follows { (from ≤ length windows.now) × ((j : ℕ) → j < from → Follows (window_in windows.now) (instant_at x.old) j) }
    requires ahead { Ahead (window_in windows.now) (length windows.now) until x.old }
    requires small { (j : ℕ) → j ≤ length windows.now → instant_at x.old j ≤ 64 * 2 ^ 32 }
    ensures { let W = window_in windows.now in let k = length windows.now in
        MatchOption result (Forward W from k x.old 0 k x.new)
        (λ risen. Forward W from k x.old risen.last k x.new
        × (risen.first < risen.last)
        × ((j : ℕ) → j < risen.first → instant_at x.new (suc j) ≡ instant_at x.old (suc j))) }
{
    let mut first = windows.len();
    let mut last = 0;
    let mut before = x[from];
    let mut i = from;
    // The end rises with the firings that rise, so that this is no loop over a range.
    while i < until {
        let window = windows[i];
        let least = x[window.origin] + window.interval.earliest as u64;
        let t = x[i + 1];
        // Two tests in the place of one of the later of both: faster, since the next turn does not depend on a choice between them.
        if t < before || t < least {
            before = before.max(least);
            x[i + 1] = before;
            first = first.min(i);
            last = i + 1;
            until = until.max(reach[i + 1]);
        } else {
            before = t;
        }
        i += 1;
    }
    (first < last).then_some(Risen { first, last })
}

// Raises instants until the windows are met; false where they cannot be. In each round one more instant becomes final.
fn settle(x: &mut [u64; 65], windows: &[Window], reach: &[usize; 65]) -> bool
    requires listed { Listed windows.now × Reaching (window_in windows.now) (length windows.now) reach.now }
    requires entered { Entered (window_in windows.now) (length windows.now) x.old }
    ensures { cond result (Solved (window_in windows.now) (length windows.now) x.new) (Unmet (window_in windows.now) (length windows.now)) }
{
    let mut top = windows.len();
    let mut bottom = top - 1;
    for _ in 0..x.len() {
        let Some(raised) = backward(x, windows, reach, bottom, top) else {
            return true;
        };
        // The start stays where it is.
        let start_rises = raised.from == 0;
        if start_rises {
            return false;
        }
        let Some(risen) = forward(x, windows, reach, raised.from, raised.until) else {
            return true;
        };
        if risen.last == windows.len() {
            return false;
        }
        top = risen.last;
        bottom = risen.first;
    }
    false
}

// One window more: from the least instants of the first i windows those of the first i + 1; false where there are none.
fn enter(x: &mut [u64; 65], windows: &[Window], reach: &mut [usize; 65], i: usize) -> bool
    requires listed { Listed windows.now }
    requires below { i < length windows.now }
    requires short { Short windows.now i }
    requires reached { Reaching (window_in windows.now) i reach.old }
    requires solved { Solved (window_in windows.now) i x.old }
    ensures short { Short windows.now (i + 1) }
    ensures reached { Reaching (window_in windows.now) (i + 1) reach.new }
    ensures met { cond result (Solved (window_in windows.now) (i + 1) x.new) (Unmet (window_in windows.now) (i + 1)) }
{
    let window = windows[i];
    let t = x[i].max(x[window.origin] + window.interval.earliest as u64);
    x[i + 1] = t;
    reach[i] = i + 1;
    reach[window.origin] = i + 1;
    let needed = least_origin(window.interval.latest, t);
    needed <= x[window.origin] || settle(x, &windows[..=i], reach)
}

// The earliest instants that meet the windows, or Err(k): of the first k, the last cannot be met with the others.
fn search(windows: &[Window]) -> Result<[u64; 65], usize>
    requires { Listed windows.now }
    ensures { result ≡ earliest_by (solve_prefixes 1 (window_in windows.now) (length windows.now)) }
{
    let mut x = [0u64; 65];
    let mut reach = [0; 65];
    for i in 0..windows.len() {
        if !enter(&mut x, windows, &mut reach, i) {
            return Err(i + 1);
        }
    }
    Ok(x)
}

// Counts each window from an earlier firing.
#[tactic(auto, using(crate::proofs::Clipping::clipping_more))]
fn clip(windows: &mut [Window])
    ensures { Clipped windows.old windows.new }
{
    for (i, window) in windows.iter_mut().enumerate() {
        window.origin = window.origin.min(i);
    }
}

// The earliest instants that meet the first `count` windows, of at most 64, or Err(k): of the first k, the last cannot be met with the others. All other
// slots hold 0.
#[tactic(auto, using(crate::proofs::Clipping::clipped_listed, crate::proofs::Clipping::clipped_verdict), unfolding(crate::specs::Arrays::earliest_of))]
pub fn find_earliest(mut windows: [Window; 64], count: usize) -> Result<[u64; 65], usize>
    ensures { result ≡ earliest_of windows count }
{
    let counted = &mut windows[..count.min(64)];
    clip(counted);
    search(counted)
}
