// Two runs of one order on one net ranked by their instants, over values and over the bytes of cards.
#![tactic(auto)]

ghost use Rattle.std.specs.Prelude.{◌≡◌, ◌++◌, ℕ, ◌^◌, ◌≤◌, ◌<◌, pos, ◌-ℤ◌};
ghost use Rattle.laws.specs.Tests.{same_numbers};
ghost use Rattle.laws.specs.Writing.{Puts};
ghost use Rattle.reply.specs.Respond.{Passed, Responded};
ghost use Rattle.text.specs.Key.{bytes};
ghost use Rattle.text.specs.Writer.{Writes};
ghost use Rattle.run.specs.Run.{memory_text, firings_of, order_of, run_card};
ghost use Rattle.form.specs.Code.{value_read};
ghost use Rattle.cards.specs.Cards.{two_runs_checked, two_runs};
ghost use Rattle.ranking.specs.Lead.{lead_of, sign_of};
ghost use Rattle.ranking.specs.Ranking.{rankable, Ranked, rank_values, signed, lead_lines, printed, rank_cards};

use net::Net;
use reply::Refusal;
use run::{Memory, Run};
use run_card::Card;
use std::cmp::Ordering;
use text::Writer;

// How one run stands to another: -1, 0 or 1 and the signed lead, negative for a run that is earlier. The rank is a number, as document 02, Q-2, prints it.
#[derive(Clone, Copy)]
pub struct Ranking {
    pub rank: i32,
    pub lead: i64,
}

// An instant of each of two runs, times the denominator of the other: X's lead over Y is the difference.
#[derive(Clone, Copy)]
struct Crossed {
    x: u64,
    y: u64,
}

// Whether two memory words are one.
fn same_memory(a: Memory, b: Memory) -> bool
    ensures { result ≡ same_numbers (memory_text a) (memory_text b) }
{
    a == b
}

// Whether two runs fire the same transitions in the same order.
fn same_firings(x: Run, y: Run) -> bool
    requires { (x.count ≤ 64) × (y.count ≤ 64) }
    ensures { result ≡ same_numbers (order_of (firings_of x)) (order_of (firings_of y)) }
{
    let mut pairs = x.firings[..x.count].iter().zip(&y.firings[..y.count]);
    x.count == y.count && pairs.all(|(a, b)| a.fire == b.fire)
}

// Why two runs that passed their checks are not ranked.
fn check_rankable(net: Net, x: Run, y: Run) -> Result<(), Refusal>
    requires { (x.count ≤ 64) × (y.count ≤ 64) }
    ensures { result ≡ rankable net x y }
{
    steps::play(net, x).checked?;
    steps::play(net, y).checked?;
    if same_memory(x.memory, y.memory) & same_firings(x, y) {
        return Ok(());
    }
    Err(Refusal::OtherOrder)
}

// The instants that decide: those of the first firing at which they differ, else the ends.
fn deciding(x: Run, y: Run) -> Crossed
    requires { ((s : ℕ) × (n : ℕ) × ((run_card s n).check x 1 ≡ Passed)) × ((s : ℕ) × (n : ℕ) × ((run_card s n).check y 1 ≡ Passed)) × (x.count ≡ y.count) }
    ensures { (pos result.x -ℤ pos result.y ≡ lead_of x y) × (result.x < 2 ^ 40) × (result.y < 2 ^ 40) }
{
    let dx = x.denominator as u64;
    let dy = y.denominator as u64;
    let mut sx: u64 = 0;
    let mut sy: u64 = 0;
    for (a, b) in x.firings[..x.count].iter().zip(&y.firings[..y.count]) {
        sx += a.wait as u64;
        sy += b.wait as u64;
        let px = sx * dy;
        let py = sy * dx;
        if px != py {
            return Crossed { x: px, y: py };
        }
    }
    let ex = sx + x.rest as u64;
    let ey = sy + y.rest as u64;
    Crossed {
        x: ex * dy,
        y: ey * dx,
    }
}

// The sign of a lead, as a lead of at most 1.
fn sign_of(lead: Crossed) -> Crossed
    ensures { (pos result.x -ℤ pos result.y ≡ sign_of (pos lead.x -ℤ pos lead.y)) × (result.x ≤ 1) × (result.y ≤ 1) }
{
    match lead.x.cmp(&lead.y) {
        Ordering::Less => Crossed { x: 0, y: 1 },
        Ordering::Equal => Crossed { x: 0, y: 0 },
        Ordering::Greater => Crossed { x: 1, y: 0 },
    }
}

// The ranking by a lead.
fn ranked(lead: Crossed) -> Ranking
    requires { (lead.x < 2 ^ 40) × (lead.y < 2 ^ 40) }
    ensures { result ≡ record { rank = sign_of (pos lead.x -ℤ pos lead.y); lead = pos lead.x -ℤ pos lead.y } }
{
    let sign = sign_of(lead);
    Ranking {
        rank: (sign.x as i32) - (sign.y as i32),
        lead: (lead.x as i64) - (lead.y as i64),
    }
}

// Checks two runs of a net, all handed over as values, as their cards would be.
fn check_two_runs(net: Net, x: Run, y: Run) -> Result<(), Refusal>
    ensures { result ≡ two_runs_checked net x y }
{
    run_card::check(net, x)?;
    y.check_lines(net.sheet, net.transitions)
}

// Ranks run X among two runs of one order on a net, all handed over as values.
pub fn rank(net: Net, x: Run, y: Run) -> Result<Ranking, Refusal>
    ensures { result ≡ rank_values net x y }
{
    check_two_runs(net, x, y)?;
    check_rankable(net, x, y)?;
    Ok(ranked(deciding(x, y)))
}

// A key, a lead with its sign and the line's end.
fn put_lead_line(w: &mut Writer, key: &[u8], lead: Crossed)
    ensures { Writes w.old (key.now ++ (signed (pos lead.x -ℤ pos lead.y) ++ bytes "\n")) w.new }
{
    w.put_bytes(key);
    if lead.x < lead.y {
        w.put_byte(b'-');
        w.put_field(lead.y - lead.x, true);
    } else {
        w.put_field(lead.x - lead.y, true);
    }
}

// The lines of a ranking by a lead.
fn put_lead_lines(w: &mut Writer, lead: Crossed)
    ensures { Writes w.old (lead_lines (sign_of (pos lead.x -ℤ pos lead.y)) (pos lead.x -ℤ pos lead.y)) w.new }
{
    put_lead_line(w, b"rank=", sign_of(lead));
    put_lead_line(w, b"lead=", lead);
}

// The same at the front of an output, and how many bytes they have, as `console::refusal_front` does.
fn put_lead(out: &mut [u8], lead: Crossed) -> usize
    ensures { Puts out.old 0 (lead_lines (sign_of (pos lead.x -ℤ pos lead.y)) (pos lead.x -ℤ pos lead.y)) result out.new }
{
    let mut w = Writer::new(out);
    put_lead_lines(&mut w, lead);
    w.at
}

// The ranking by a lead as the answer.
fn respond_lead(lead: Crossed, out: &mut [u8]) -> Result<usize, Refusal>
    requires { (lead.x < 2 ^ 40) × (lead.y < 2 ^ 40) }
    ensures { Responded (printed (Ranked (sign_of (pos lead.x -ℤ pos lead.y)) (pos lead.x -ℤ pos lead.y)))
        out.old result out.new }
{
    let mut text = [0u8; 32];
    let n = put_lead(&mut text, lead);
    reply::respond(&text[..n], out)
}

// Reads a net card and, right behind it, the cards of two runs of that net.
fn net_and_runs(input: &[u8]) -> Result<(Net, (Run, Run)), Refusal>
    ensures { result ≡ value_read (two_runs input.now) }
{
    let (net, next) = net_card::read_net(input)?;
    let behind = net_card::remainder(input, next);
    let (x, end) = Run::front(behind, net.sheet, net.transitions)?;
    let (y, _) = run_card::whole::<Run>(
        net_card::remainder(behind, end),
        net.sheet,
        net.transitions,
    )?;
    Ok((net, (x, y)))
}

// Ranks run X among two runs of one order: a net card and, right behind it, X's card and then Y's.
pub fn rank_cards(input: &[u8], out: &mut [u8]) -> Result<usize, Refusal>
    ensures { Responded (rank_cards input.now) out.old result out.new }
{
    let (net, (x, y)) = net_and_runs(input)?;
    check_rankable(net, x, y)?;
    respond_lead(deciding(x, y), out)
}
