// The operations on cards for programs in other languages: a static library. A `&[u8]` is there a pointer and a length.
// Each reads a net card and, behind it, a run card (tpn_timetable: an order card; tpn_rank: two run cards; tpn_join: another net card and a line `pairs`),
// and writes its answer to the front of the output. The tpn_live_ functions enter a run step by step: tpn_live_open reads a net card and, behind it, the lines
// `sheet`, `memory` and `denominator`, and the others a net card and the card of the run so far, which opening and each step answer. Every function returns how
// many bytes its answer is, or -(number * 65536 + place) for a refusal, which leaves the output as it was.
#![tactic(auto)]

ghost use Rattle.std.specs.Prelude.{◌≡◌};
ghost use Rattle.operations.specs.Replay.{replay_cards};
ghost use Rattle.operations.specs.Round.{round_cards};
ghost use Rattle.operations.specs.Process.{process_cards};
ghost use Rattle.operations.specs.Timetable.{timetable_cards};
ghost use Rattle.ranking.specs.Ranking.{rank_cards};
ghost use Rattle.joining.specs.Joining.{join_cards};
ghost use Rattle.open_run.specs.Cards.{open_cards, wait_cards, fire_cards, close_cards, state_cards, timetable_now_cards};
ghost use Rattle.tpn.specs.Result.{result_of, Narrow, Returned};

use reply::Refusal;

// A reply as one number. Every reply of an operation is narrow.
fn result_of(r: Result<usize, Refusal>) -> i64
    requires { Narrow r }
    ensures { result ≡ result_of r }
{
    match r {
        Ok(n) => n as i64,
        Err(why) => {
            let number = why.number() as u64;
            let place = why.position() as u64;
            let code = number * 65536 + place;
            0 - (code as i64)
        }
    }
}

// The exported functions differ in their operation alone: the C interface names each.

// Replays a run: its end.
#[unsafe(no_mangle)]
pub extern "C" fn tpn_replay(input: &[u8], output: &mut [u8]) -> i64
    ensures { Returned (replay_cards input.now) output.old result output.new }
{
    let r = engine::replay_cards(input, output);
    result_of(r)
}

// Rounds a run to whole ticks: the card of the rounded run.
#[unsafe(no_mangle)]
pub extern "C" fn tpn_round(input: &[u8], output: &mut [u8]) -> i64
    ensures { Returned (round_cards input.now) output.old result output.new }
{
    let r = engine::round_cards(input, output);
    result_of(r)
}

// Finds the earliest timetable of a firing order: the card of a run.
#[unsafe(no_mangle)]
pub extern "C" fn tpn_timetable(input: &[u8], output: &mut [u8]) -> i64
    ensures { Returned (timetable_cards input.now) output.old result output.new }
{
    let r = engine::timetable_cards(input, output);
    result_of(r)
}

// Derives the causal process of a run.
#[unsafe(no_mangle)]
pub extern "C" fn tpn_process(input: &[u8], output: &mut [u8]) -> i64
    ensures { Returned (process_cards input.now) output.old result output.new }
{
    let r = engine::process_cards(input, output);
    result_of(r)
}

// Ranks run X among two runs of one order.
#[unsafe(no_mangle)]
pub extern "C" fn tpn_rank(input: &[u8], output: &mut [u8]) -> i64
    ensures { Returned (rank_cards input.now) output.old result output.new }
{
    let r = ranking::rank_cards(input, output);
    result_of(r)
}

// Joins two nets by the pairs of their places: the card of the joined net.
#[unsafe(no_mangle)]
pub extern "C" fn tpn_join(input: &[u8], output: &mut [u8]) -> i64
    ensures { Returned (join_cards input.now) output.old result output.new }
{
    let r = joining::join_cards(input, output);
    result_of(r)
}

// Opens a run: the card of the run without steps.
#[unsafe(no_mangle)]
pub extern "C" fn tpn_live_open(input: &[u8], output: &mut [u8]) -> i64
    ensures { Returned (open_cards input.now) output.old result output.new }
{
    let r = open_cards::open_cards(input, output);
    result_of(r)
}

// Enters a wait of so many parts of a tick: the card of the run with it.
#[unsafe(no_mangle)]
pub extern "C" fn tpn_live_wait(input: &[u8], parts: u32, output: &mut [u8]) -> i64
    ensures { Returned (wait_cards input.now parts) output.old result output.new }
{
    let r = open_cards::wait_cards(input, parts, output);
    result_of(r)
}

// Enters a firing: the card of the run with it.
#[unsafe(no_mangle)]
pub extern "C" fn tpn_live_fire(input: &[u8], transition: u32, output: &mut [u8]) -> i64
    ensures { Returned (fire_cards input.now transition) output.old result output.new }
{
    let r = open_cards::fire_cards(input, transition, output);
    result_of(r)
}

// Closes a run with a rest: its card.
#[unsafe(no_mangle)]
pub extern "C" fn tpn_live_close(input: &[u8], rest: u32, output: &mut [u8]) -> i64
    ensures { Returned (close_cards input.now rest) output.old result output.new }
{
    let r = open_cards::close_cards(input, rest, output);
    result_of(r)
}

// Calls for the state where a run stands: its end marking and clocks.
#[unsafe(no_mangle)]
pub extern "C" fn tpn_live_state(input: &[u8], output: &mut [u8]) -> i64
    ensures { Returned (state_cards input.now) output.old result output.new }
{
    let r = open_cards::state_cards(input, output);
    result_of(r)
}

// Calls for the earliest timetable of the firings so far: the card of a run.
#[unsafe(no_mangle)]
pub extern "C" fn tpn_live_timetable(input: &[u8], output: &mut [u8]) -> i64
    ensures { Returned (timetable_now_cards input.now) output.old result output.new }
{
    let r = open_cards::timetable_cards(input, output);
    result_of(r)
}
