// What an operation makes of the input of a case, as text: the answer or the refusal, and whether the output was touched elsewhere.
ghost use Rattle.std.specs.Prelude.{◌≡◌, length};

use super::change::Values;
use super::parts::{Case, Operation};
use super::{change, lines, live};
use net::{Net, Transition};
use reply::Refusal;
use run::{Firing, Memory, Order, Run};
use text::Writer;

// The byte that stands at a position of a lent output before the call: none that a card has, and not that of its neighbours.
fn pattern(i: usize) -> u8 {
    (128 + i % 127) as u8
}

// A buffer for an output, with the pattern.
pub(crate) fn prepared() -> [u8; 16384]
    ensures { 16384 ≡ length result }
{
    let mut out = [0u8; 16384];
    for (i, b) in out.iter_mut().enumerate() {
        *b = pattern(i);
    }
    out
}

// The first position from a given one on where an output has lost the pattern.
fn touched_at(out: &[u8], from: usize) -> Option<usize> {
    let mut places = out.iter().enumerate().skip(from);
    let (i, _) = places.find(|(i, b)| **b != pattern(*i))?;
    Some(i)
}

// What stands for a net, a run and an order whose cards are refused.
const NO_NET: Net = Net {
    sheet: 0,
    places: 0,
    transitions: 0,
    start: [0; 16],
    take: [0; 512],
    give: [0; 512],
    table: [Transition {
        earliest: 0,
        latest: None,
    }; 32],
};

const NO_RUN: Run = Run {
    sheet: 0,
    memory: Memory::Intermediate,
    denominator: 0,
    count: 0,
    firings: [Firing { wait: 0, fire: 0 }; 64],
    rest: 0,
};

const NO_ORDER: Order = Order {
    sheet: 0,
    memory: Memory::Intermediate,
    count: 0,
    fires: [0; 64],
};

// The answer or the refusal, and a line for a byte of the output that was touched besides, where there is one.
pub(crate) fn put_reply(w: &mut Writer, r: Result<usize, Refusal>, out: &[u8]) {
    match r {
        Err(why) => {
            console::put_refusal(w, why);
            put_touched(w, out, 0);
        }
        Ok(n) => {
            w.put_bytes(lines::part(out, 0, n));
            put_touched(w, out, n);
        }
    }
}

// A line for a touched byte of the output from a position on, where there is one.
fn put_touched(w: &mut Writer, out: &[u8], from: usize) {
    if let Some(i) = touched_at(out, from) {
        form::put_number_line(w, b"touched=", i as u64);
    }
}

// A line with a key and a number that may be negative. That of `ranking` is handed the two parts of a lead, and is private.
fn put_signed(w: &mut Writer, key: &[u8], n: i64) {
    w.put_bytes(key);
    if n < 0 {
        w.put_byte(b'-');
    }
    w.put_field(n.unsigned_abs(), true);
}

// How run X stands to run Y, in the form of the answer over cards.
fn rank_reply(net: Net, x: Run, y: Run, out: &mut [u8]) -> Result<usize, Refusal> {
    let ranking = ranking::rank(net, x, y)?;
    let mut w = Writer::new(out);
    put_signed(&mut w, b"rank=", ranking.rank as i64);
    put_signed(&mut w, b"lead=", ranking.lead);
    Ok(w.at)
}

// A net joined, as the first or as the second, with the one whose card is read, by the list behind that card; 1 at 0 where the list is too long.
fn join_reply(net: Net, second: bool, card: &[u8], out: &mut [u8]) -> Result<usize, Refusal> {
    let (other, next) = net_card::read_net(card)?;
    let mut list = [0u32; 64];
    let from = lines::behind(card, next, b'=');
    let Some(count) = lines::numbers(card, from, &mut list) else {
        return Err(Refusal::Malformed(0));
    };
    let numbers = &list[..count];
    if second {
        joining::join(other, net, numbers, out)
    } else {
        joining::join(net, other, numbers, out)
    }
}

// Whether something was read.
fn read<T: Copy>(found: Result<T, Refusal>) -> Result<(), Refusal> {
    let _ = found?;
    Ok(())
}

// Whether the cards of an operation were read.
fn read_of(
    operation: Operation,
    net: Result<(), Refusal>,
    run: Result<(), Refusal>,
    order: Result<(), Refusal>,
    other: Result<(), Refusal>,
) -> Result<(), Refusal> {
    match operation {
        Operation::RankValue => run.and(other),
        _ if operation.reads_net_alone() => net,
        _ if operation.reads_order() => order,
        _ => run,
    }
}

// The values of an operation: a net card and a card behind it, and the card that is read for the net as it was read.
fn values_of(operation: Operation, input: &[u8], card: &[u8]) -> Values {
    let n = net_card::read_net(input);
    let x = run_card::net_and::<Run>(input);
    let o = run_card::net_and::<Order>(input);
    let (net, _) = n.unwrap_or((NO_NET, 0));
    let (_, run) = x.unwrap_or((NO_NET, NO_RUN));
    let (_, order) = o.unwrap_or((NO_NET, NO_ORDER));
    let y = run_card::whole::<Run>(card, net.sheet, net.transitions);
    let (other, _) = y.unwrap_or((NO_RUN, 0));
    Values {
        read: read_of(operation, read(n), read(x), read(o), read(y)),
        net,
        run,
        order,
        other,
    }
}

// The values of an operation once they are changed: those that read a run or an order for the changed net read it now.
fn with_card(operation: Operation, values: Values, card: &[u8]) -> Values {
    let mut v = values;
    match operation {
        Operation::ReadRun => {
            let r = run_card::read::<Run>(v.net, card);
            v.read = v.read.and(read(r));
            v.run = r.unwrap_or((NO_RUN, 0)).0;
        }
        Operation::ReadOrder => {
            let o = run_card::read::<Order>(v.net, card);
            v.read = v.read.and(read(o));
            v.order = o.unwrap_or((NO_ORDER, 0)).0;
        }
        _ => {}
    }
    v
}

// What an operation that writes a value or ranks two runs replies.
fn write_or_rank(operation: Operation, v: Values, out: &mut [u8]) -> Result<usize, Refusal> {
    match operation {
        Operation::Run | Operation::RunValue | Operation::ReadRun => run_card::write(
            v.net, v.run, out,
        ),
        Operation::Order | Operation::OrderValue | Operation::ReadOrder => run_card::write(
            v.net, v.order, out,
        ),
        Operation::RankValue => rank_reply(v.net, v.run, v.other, out),
        _ => net_card::write_net(v.net, out),
    }
}

// What an operation on values replies, where they were read.
fn of_values(
    operation: Operation,
    v: Values,
    card: &[u8],
    out: &mut [u8],
) -> Result<usize, Refusal> {
    v.read?;
    match operation {
        Operation::ReplayValue => engine::replay(v.net, v.run, out),
        Operation::RoundValue => engine::round(v.net, v.run, out),
        Operation::TimetableValue => engine::timetable(v.net, v.order, out),
        Operation::ProcessValue => engine::process(v.net, v.run, out),
        Operation::JoinValue => join_reply(v.net, false, card, out),
        Operation::JoinOther => join_reply(v.net, true, card, out),
        _ => write_or_rank(operation, v, out),
    }
}

// For a net card, a line with the length of the remainder of the input.
fn put_left(w: &mut Writer, operation: Operation, input: &[u8]) {
    if let Operation::Net = operation {
        let read = net_card::read_net(input).map(|(_, next)| next);
        let rest = net_card::remainder_of(input, read);
        form::put_number_line(w, b"left=", rest.len() as u64);
    }
}

// What a case tries, once it is read: its operation, the length of the output lent, what is read first, the changes, and the card or the lines behind them.
#[derive(Clone, Copy)]
struct Trial<'a> {
    operation: Operation,
    size: usize,
    input: &'a [u8],
    changes: &'a [u8],
    card: &'a [u8],
}

impl<'a> Trial<'a> {
    // The values, with the changes made.
    fn values(&self) -> Values {
        let values = values_of(self.operation, self.input, self.card);
        change::changed(values, self.operation, self.changes)
    }

    // What the operation replies.
    fn reply(&self, out: &mut [u8]) -> Result<usize, Refusal> {
        match self.operation {
            Operation::Replay => engine::replay_cards(self.input, out),
            Operation::Round => engine::round_cards(self.input, out),
            Operation::Timetable => engine::timetable_cards(self.input, out),
            Operation::Process => engine::process_cards(self.input, out),
            Operation::Rank => ranking::rank_cards(self.input, out),
            Operation::Join => joining::join_cards(self.input, out),
            Operation::Open => open_cards::open_cards(self.input, out),
            operation => {
                let v = with_card(operation, self.values(), self.card);
                of_values(operation, v, self.card, out)
            }
        }
    }

    // What an operation says that is lent an output of the case's length.
    fn put_reply(&self, w: &mut Writer) {
        if 16384 < self.size {
            console::put_refusal(w, Refusal::Malformed(0));
            return;
        }
        let mut lent = prepared();
        let r = self.reply(&mut lent[..self.size]);
        put_reply(w, r, &lent[..self.size]);
        put_left(w, self.operation, self.input);
    }

    // What the lines of an open run are answered: of a record that is made of the values, or of one that is opened on the net with the run's word and denominator.
    fn put_live(&self, w: &mut Writer, opened: bool) {
        let v = self.values();
        if let Err(why) = v.read {
            console::put_refusal(w, why);
            return;
        }
        if opened {
            let e = entering::open_on(v.net, v.run.memory, v.run.denominator);
            live::put_checked(w, e.checked);
            live::put_answers(w, e.run, self.size, self.card);
        } else {
            live::put_answers(w, live::record(v.net, v.run), self.size, self.card);
        }
    }

    // What the case says.
    fn put(&self, w: &mut Writer) {
        match self.operation {
            Operation::OpenValue => self.put_live(w, true),
            Operation::LiveValue => self.put_live(w, false),
            _ => self.put_reply(w),
        }
    }
}

// Runs a case, and writes what it got; 1 at 0 where the case cannot be read.
pub(crate) fn put_outcome(w: &mut Writer, s: &[u8], case: Case) {
    let mut buffer = [0u8; 16384];
    let mut behind = [0u8; 16384];
    let input = lines::decode(lines::between(s, case.at, case.with), &mut buffer);
    let card = lines::decode(lines::between(s, case.card, case.expect), &mut behind);
    match (case.operation, input, card) {
        (Some(operation), Some(input), Some(card)) if case.end < s.len() => {
            let trial = Trial {
                operation,
                size: case.size,
                input,
                changes: lines::between(s, case.with, case.card),
                card,
            };
            trial.put(w);
        }
        _ => console::put_refusal(w, Refusal::Malformed(0)),
    }
}
