// The operations of the engine: over values, and over the bytes of cards.
#![tactic(auto)]

mod end_text;
mod process_text;
mod respond;

ghost use Rattle.std.specs.Prelude.{◌≡◌};
ghost use Rattle.reply.specs.Respond.{Passed, answer, Responded};
ghost use Rattle.firing.specs.Claims.{view};
ghost use Rattle.cards.specs.Cards.{run_checked, order_checked};
ghost use Rattle.operations.specs.Replay.{end_text, replay_of, replay_values, replay_cards};
ghost use Rattle.operations.specs.Round.{round_of, round_values, round_cards};
ghost use Rattle.operations.specs.Process.{process_of, process_values, process_cards};
ghost use Rattle.operations.specs.Timetable.{timetable_of, timetable_values, timetable_cards};

use firing::State;
use net::Net;
use reply::Refusal;
use respond::{End, Process, respond};
use run::{Order, Run};

// The end of a replay as the answer.
pub fn respond_end(net: Net, st: State, out: &mut [u8]) -> Result<usize, Refusal>
    ensures { Responded (answer (end_text net (view st))) out.old result out.new }
{
    respond::<1280, _>(End(&net, &st), out)
}

// The replay of a run that passed its check.
fn replay_checked(net: Net, run: Run, out: &mut [u8]) -> Result<usize, Refusal>
    requires { run_checked net run ≡ Passed }
    ensures { Responded (replay_of net run) out.old result out.new }
{
    let played = steps::play(net, run);
    played.checked?;
    let mut state = played.state;
    state.now += run.rest as u64;
    respond_end(net, state, out)
}

// The two forms of an operation, over values and over cards, differ in where the values come from, not in a type: one function for both would take the
// operation as a parameter, for two lines each. What an operation on values requires of a net and a run, these two have just checked.

// Replays a run of a net, both handed over as values.
pub fn replay(net: Net, run: Run, out: &mut [u8]) -> Result<usize, Refusal>
    ensures { Responded (replay_values net run) out.old result out.new }
{
    run_card::check(net, run)?;
    replay_checked(net, run, out)
}

// Replays a run: a net card and, right behind it, a run card.
pub fn replay_cards(input: &[u8], out: &mut [u8]) -> Result<usize, Refusal>
    ensures { Responded (replay_cards input.now) out.old result out.new }
{
    let (net, run) = run_card::net_and::<Run>(input)?;
    replay_checked(net, run, out)
}

// The rounding of a run that passed its check.
fn round_checked(net: Net, run: Run, out: &mut [u8]) -> Result<usize, Refusal>
    requires { run_checked net run ≡ Passed }
    ensures { Responded (round_of net run) out.old result out.new }
{
    steps::play(net, run).checked?;
    respond::<2048, _>(&schedule::rounded_run(run), out)
}

// Rounds a run of a net to whole ticks, both handed over as values.
pub fn round(net: Net, run: Run, out: &mut [u8]) -> Result<usize, Refusal>
    ensures { Responded (round_values net run) out.old result out.new }
{
    run_card::check(net, run)?;
    round_checked(net, run, out)
}

// Rounds a run to whole ticks: a net card and, right behind it, a run card.
pub fn round_cards(input: &[u8], out: &mut [u8]) -> Result<usize, Refusal>
    ensures { Responded (round_cards input.now) out.old result out.new }
{
    let (net, run) = run_card::net_and::<Run>(input)?;
    round_checked(net, run, out)
}

// The timetable of an order that passed its check.
fn timetable_checked(net: Net, order: Order, out: &mut [u8]) -> Result<usize, Refusal>
    requires { order_checked net order ≡ Passed }
    ensures { Responded (timetable_of net order) out.old result out.new }
{
    let run = schedule::timetable(net, order)?;
    respond::<2048, _>(&run, out)
}

// The earliest timetable of a firing order on a net, both handed over as values.
pub fn timetable(net: Net, order: Order, out: &mut [u8]) -> Result<usize, Refusal>
    ensures { Responded (timetable_values net order) out.old result out.new }
{
    run_card::check(net, order)?;
    timetable_checked(net, order, out)
}

// The earliest timetable of a firing order: a net card and, right behind it, an order card.
pub fn timetable_cards(input: &[u8], out: &mut [u8]) -> Result<usize, Refusal>
    ensures { Responded (timetable_cards input.now) out.old result out.new }
{
    let (net, order) = run_card::net_and::<Order>(input)?;
    timetable_checked(net, order, out)
}

// The process of a run that passed its check.
fn process_checked(net: Net, run: Run, out: &mut [u8]) -> Result<usize, Refusal>
    requires { run_checked net run ≡ Passed }
    ensures { Responded (process_of net run) out.old result out.new }
{
    steps::play(net, run).checked?;
    respond::<22001, _>(Process(&net, &run), out)
}

// Derives the causal process of a run of a net, both handed over as values.
pub fn process(net: Net, run: Run, out: &mut [u8]) -> Result<usize, Refusal>
    ensures { Responded (process_values net run) out.old result out.new }
{
    run_card::check(net, run)?;
    process_checked(net, run, out)
}

// Derives the causal process of a run: a net card and, right behind it, a run card.
pub fn process_cards(input: &[u8], out: &mut [u8]) -> Result<usize, Refusal>
    ensures { Responded (process_cards input.now) out.old result out.new }
{
    let (net, run) = run_card::net_and::<Run>(input)?;
    process_checked(net, run, out)
}
