// Open runs over the bytes of cards: a record stands as its net card and, right behind it, the card of its run, whose rest is the sum of the waits since the
// last firing. The lines that open a run stand right behind its net card.
#![tactic(auto)]

ghost use Rattle.std.specs.Prelude.{◌≡◌};
ghost use Rattle.reply.specs.Respond.{Passed, Responded};
ghost use Rattle.form.specs.Form.{front, alone};
ghost use Rattle.cards.specs.Cards.{run_checked, run_cards};
ghost use Rattle.net.specs.Net.{net_card};
ghost use Rattle.operations.specs.Operation.{once_read};
ghost use Rattle.open_run.specs.Cards.{denominator, opening, open_cards, opened_card, card_after, wait_cards, fire_cards, close_cards, state_cards, timetable_now_cards};
ghost use Rattle.open_cards.specs.Code.{opening_read, opening_on, record_of};

use form::{Judge, OwnSheet, Range};
use net::Net;
use open_run::{Entered, OpenRun};
use reply::Refusal;
use run::{Memory, Run};

// ---- opening

// The line `denominator`, number 3; outside its range it is 2 at 0.
fn denominator_line(s: &[u8], at: usize) -> Result<(u32, usize), Refusal>
    ensures { result ≡ denominator.read s.now at 3 }
{
    let (value, next) = form::number_line(s, at, b"denominator=", Range(0, 999999999), 3)?;
    Range(1, 1000).check(value as u64, 0)?;
    Ok((value, next))
}

// The lines of an opening behind its sheet.
fn opening_on_sheet(s: &[u8], at: usize) -> Result<((Memory, u32), usize), Refusal>
    ensures { result ≡ opening_on s.now at }
{
    let (memory, behind) = run_card::memory_line(s, at, 2)?;
    let (denominator, next) = denominator_line(s, behind)?;
    Ok(((memory, denominator), next))
}

// Reads the lines that open a run on a net's sheet, at the front of an input: the memory rule and the denominator, and the position behind the lines.
pub fn read_opening(s: &[u8], own: u32) -> Result<((Memory, u32), usize), Refusal>
    ensures { result ≡ opening_read (front (opening own) s.now) }
{
    let (_, next) = form::number_line(s, 0, b"sheet=", OwnSheet(own), 1)?;
    opening_on_sheet(s, next)
}

// The card of the run behind a step, as the answer.
fn respond_entered(e: Entered, out: &mut [u8]) -> Result<usize, Refusal>
    requires { e.checked ≡ Passed → run_checked e.run.net e.run.run ≡ Passed }
    ensures { Responded (card_after e) out.old result out.new }
{
    e.checked?;
    run_card::write(e.run.net, e.run.run, out)
}

// Opens a run on a net that was read, by the lines behind it.
fn open_behind(net: Net, s: &[u8], out: &mut [u8]) -> Result<usize, Refusal>
    requires { net_card.check net 1 ≡ Passed }
    ensures { Responded (once_read (alone (opening net.sheet) s.now) (opened_card net)) out.old result out.new }
{
    let ((memory, denominator), next) = read_opening(s, net.sheet)?;
    if next < s.len() {
        return Err(Refusal::Malformed(4));
    }
    respond_entered(entering::open_on(net, memory, denominator), out)
}

// Opens a run: a net card and, right behind it, the lines `sheet`, `memory` and `denominator`.
pub fn open_cards(input: &[u8], out: &mut [u8]) -> Result<usize, Refusal>
    ensures { Responded (open_cards input.now) out.old result out.new }
{
    let (net, next) = net_card::read_net(input)?;
    open_behind(net, net_card::remainder(input, next), out)
}

// ---- steps and calls: each reads the record and hands it to its operation. The five differ in the operation and in what it takes, not in a type: one function
// for all would take the operation as a parameter, for two lines each.

// The record that two cards stand for; cards that are refused are no open run.
fn record_in(input: &[u8]) -> Result<OpenRun, Refusal>
    ensures { result ≡ record_of (run_cards input.now) }
{
    match run_card::net_and::<Run>(input) {
        Ok((net, run)) => Ok(OpenRun {
            net,
            run,
            running: true,
        }),
        Err(_) => Err(Refusal::ClosedRun),
    }
}

// Enters a wait: the card of the run with it added.
pub fn wait_cards(input: &[u8], parts: u32, out: &mut [u8]) -> Result<usize, Refusal>
    ensures { Responded (wait_cards input.now parts) out.old result out.new }
{
    let run = record_in(input)?;
    respond_entered(entering::enter_wait(run, parts), out)
}

// Enters a firing: the card of the run with it added.
pub fn fire_cards(input: &[u8], t: u32, out: &mut [u8]) -> Result<usize, Refusal>
    ensures { Responded (fire_cards input.now t) out.old result out.new }
{
    let run = record_in(input)?;
    respond_entered(entering::enter_fire(run, t), out)
}

// Closes a run with a rest: its card.
pub fn close_cards(input: &[u8], rest: u32, out: &mut [u8]) -> Result<usize, Refusal>
    ensures { Responded (close_cards input.now rest) out.old result out.new }
{
    let run = record_in(input)?;
    entering::finish(run, rest, out).reply
}

// The end marking and the clocks, where a run stands.
pub fn state_cards(input: &[u8], out: &mut [u8]) -> Result<usize, Refusal>
    ensures { Responded (state_cards input.now) out.old result out.new }
{
    let run = record_in(input)?;
    entering::state(run, out)
}

// The earliest timetable of the firings so far.
pub fn timetable_cards(input: &[u8], out: &mut [u8]) -> Result<usize, Refusal>
    ensures { Responded (timetable_now_cards input.now) out.old result out.new }
{
    let run = record_in(input)?;
    entering::timetable(run, out)
}
