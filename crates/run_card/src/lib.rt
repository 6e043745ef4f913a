// The run card and the order card of a net: read, checked as values, written.
#![tactic(auto)]

ghost use Rattle.std.specs.Prelude.{ℕ, ◌≡◌, ◌++◌, ◌*◌, ◌≤◌, length, refl};
ghost use Rattle.laws.specs.Writing.{Puts};
ghost use Rattle.reply.specs.Respond.{Responded, Passed};
ghost use Rattle.text.specs.Key.{bytes};
ghost use Rattle.text.specs.Writer.{Writes};
ghost use Rattle.form.specs.Form.{Form, keyed, texts, checks, times, front, alone};
ghost use Rattle.form.specs.Code.{value_read};
ghost use Rattle.run.specs.Run.{memory, memory_text, fire, firing, no_firing, run_lines, run_card, order_lines, order_card};
ghost use Rattle.cards.specs.Cards.{read_card, card_checked, card_text, both_cards};
ghost use Rattle.run_card.specs.Code.{run_on, order_on};
ghost use Rattle.run_card.specs.Laws.{one_each, two_each, run_same_text, run_fits, order_same_text, order_fits};

use form::{Judge, Listed, OwnSheet, Range};
use net::Net;
use reply::Refusal;
use run::{Firing, Memory, NO_FIRING, Order, Run};
use text::Writer;

// The memory word that stands at a position, and the line's end.
fn memory_at(s: &[u8], at: usize, line: usize) -> Result<(Memory, usize), Refusal>
    ensures { result ≡ memory.read s.now at line }
{
    if text::begins_at(s, at, b"intermediate\n") {
        return Ok((Memory::Intermediate, at + 13));
    }
    if text::begins_at(s, at, b"atomic\n") {
        return Ok((Memory::Atomic, at + 7));
    }
    if text::begins_at(s, at, b"carry\n") {
        return Ok((Memory::Carry, at + 6));
    }
    Err(Refusal::Malformed(line))
}

// The line `memory`: the rule, and the position behind the line.
pub fn memory_line(s: &[u8], at: usize, line: usize) -> Result<(Memory, usize), Refusal>
    ensures { result ≡ (keyed (bytes "memory=") memory).read s.now at line }
{
    if !text::begins_at(s, at, b"memory=") {
        return Err(Refusal::Malformed(line));
    }
    memory_at(s, at + 7, line)
}

// The line `memory`.
fn put_memory_line(w: &mut Writer, m: Memory)
    ensures { Writes w.old (bytes "memory=" ++ memory_text m) w.new }
{
    w.put_bytes(b"memory=");
    match m {
        Memory::Intermediate => w.put_bytes(b"intermediate\n"),
        Memory::Atomic => w.put_bytes(b"atomic\n"),
        Memory::Carry => w.put_bytes(b"carry\n"),
    }
}

// What a card has for each firing: a firing of a run, the fired transition of an order.
trait Part: Copy {
    // Its form, in a net of so many transitions.
    ghost form: { ℕ → Form Self };

    // How many lines it has.
    ghost LINES: { ℕ };

    const LINES: usize;

    // What stands for a part that was not read.
    ghost NONE: { Self };

    const NONE: Self;

    // Reads the part that stands at a position: the value, and the position behind it.
    fn read(s: &[u8], at: usize, transitions: usize, line: usize) -> Result<(Self, usize), Refusal>
        requires { line ≤ 1000 }
        ensures { result ≡ (form transitions).read s.now at line };

    // Checks the value, as its lines would be checked.
    fn check(self, transitions: usize, line: usize) -> Result<(), Refusal>
        requires { line ≤ 1000 }
        ensures { result ≡ (form transitions).check self line };

    // Writes its lines.
    fn put(self, w: &mut Writer)
        ensures { Writes w.old ((form 0).text self) w.new };

    // Each part has so many lines.
    ghost each: { (n : ℕ) (a : Self) → (form n).lines a ≡ LINES };

    // 64 parts have 128 lines at most.
    ghost few: { (i : ℕ) → i ≤ 64 → LINES * i ≤ 128 };
}

// A firing of a run: the lines `wait` and `fire`.
impl Part for Firing {
    ghost form = { firing };

    ghost LINES = { 2 };

    const LINES: usize = 2;

    ghost NONE = { no_firing };

    const NONE: Firing = NO_FIRING;

    fn read(
        s: &[u8],
        at: usize,
        transitions: usize,
        line: usize,
    ) -> Result<(Firing, usize), Refusal> {
        let (wait, behind) = form::number_line(s, at, b"wait=", Range(0, 10000000), line)?;
        let (fire, next) = form::number_line(
            s,
            behind,
            b"fire=",
            Listed(transitions as u64),
            line + 1,
        )?;
        Ok((Firing { wait, fire }, next))
    }

    fn check(self, transitions: usize, line: usize) -> Result<(), Refusal> {
        Range(0, 10000000).check(self.wait as u64, line)?;
        Listed(transitions as u64).check(self.fire as u64, line + 1)
    }

    fn put(self, w: &mut Writer) {
        form::put_number_line(w, b"wait=", self.wait as u64);
        form::put_number_line(w, b"fire=", self.fire as u64);
    }

    ghost each = { λ n f. refl };

    ghost few = { two_each };
}

// The fired transition of an order: the line `fire`.
impl Part for u32 {
    ghost form = { fire };

    ghost LINES = { 1 };

    const LINES: usize = 1;

    ghost NONE = { 0 };

    const NONE: u32 = 0;

    fn read(s: &[u8], at: usize, transitions: usize, line: usize) -> Result<(u32, usize), Refusal> {
        form::number_line(s, at, b"fire=", Listed(transitions as u64), line)
    }

    fn check(self, transitions: usize, line: usize) -> Result<(), Refusal> {
        Listed(transitions as u64).check(self as u64, line)
    }

    fn put(self, w: &mut Writer) {
        form::put_number_line(w, b"fire=", self as u64);
    }

    ghost each = { λ n t. refl };

    ghost few = { one_each };
}

// The parts of a card, of which the first begins on this line, and the position behind them.
fn read_all<P: Part>(
    s: &[u8],
    at: usize,
    transitions: usize,
    count: usize,
    first: usize,
) -> Result<([P; 64], usize), Refusal>
    requires few { count ≤ 64 }
    requires early { first ≤ 5 }
    ensures { result ≡ (times count 64 P.NONE (P.form transitions)).read s.now at first }
{
    let mut parts = [P::NONE; 64];
    let mut next = at;
    for (i, slot) in parts[..count].iter_mut().enumerate() {
        let (part, behind) = P::read(s, next, transitions, first + P::LINES * i)?;
        *slot = part;
        next = behind;
    }
    Ok((parts, next))
}

// The parts of a card, of which the first begins on this line, as their lines would be checked.
fn check_all<P: Part>(parts: &[P], transitions: usize, first: usize) -> Result<(), Refusal>
    requires few { length parts.now ≤ 64 }
    requires early { first ≤ 5 }
    ensures { result ≡ checks (P.form transitions) parts.now first }
{
    for (i, part) in parts.iter().enumerate() {
        part.check(transitions, first + P::LINES * i)?;
    }
    Ok(())
}

// The lines of the parts of a card.
fn put_all<P: Part>(w: &mut Writer, parts: &[P])
    ensures { Writes w.old (texts (P.form 0) parts.now) w.new }
{
    for part in parts {
        part.put(w);
    }
}

// The lines of a run card behind its sheet.
fn run_on_sheet(
    s: &[u8],
    at: usize,
    sheet: u32,
    transitions: usize,
) -> Result<(Run, usize), Refusal>
    ensures { result ≡ run_on sheet ((run_lines transitions).read s.now at 2) }
{
    let (memory, at_denominator) = memory_line(s, at, 2)?;
    let (denominator, at_count) = form::number_line(
        s,
        at_denominator,
        b"denominator=",
        Range(1, 1000),
        3,
    )?;
    let (count, at_firings) = form::number_line(s, at_count, b"firings=", Range(0, 64), 4)?;
    let count = count as usize;
    let (firings, at_rest) = read_all(s, at_firings, transitions, count, 5)?;
    let (rest, end) = form::number_line(s, at_rest, b"rest=", Range(0, 10000000), 5 + 2 * count)?;
    let run = Run {
        sheet,
        memory,
        denominator,
        count,
        firings,
        rest,
    };
    Ok((run, end))
}

// The lines of an order card behind its sheet.
fn order_on_sheet(
    s: &[u8],
    at: usize,
    sheet: u32,
    transitions: usize,
) -> Result<(Order, usize), Refusal>
    ensures { result ≡ order_on sheet ((order_lines transitions).read s.now at 2) }
{
    let (memory, at_count) = memory_line(s, at, 2)?;
    let (count, at_fires) = form::number_line(s, at_count, b"firings=", Range(0, 64), 3)?;
    let count = count as usize;
    let (fires, next) = read_all(s, at_fires, transitions, count, 4)?;
    let order = Order {
        sheet,
        memory,
        count,
        fires,
    };
    Ok((order, next))
}

// A card that stands behind the card of its net: on the net's sheet, of its transitions.
pub trait Card: Copy {
    // Its form, on a sheet and of so many transitions.
    ghost form: { ℕ → ℕ → Form Self };

    // Reads the card at the front of an input: the value, and the position behind the card.
    fn front(s: &[u8], own: u32, transitions: usize) -> Result<(Self, usize), Refusal>
        ensures { result ≡ front (form own transitions) s.now };

    // How many lines the card has.
    fn lines(self) -> usize
        ensures few { result ≤ 133 }
        ensures value { (own n : ℕ) → result ≡ (form own n).lines self };

    // Checks the value, as its card would be checked.
    fn check_lines(self, own: u32, transitions: usize) -> Result<(), Refusal>
        ensures { result ≡ (form own transitions).check self 1 };

    // Writes the card, wherever the writer stands.
    fn put_lines(self, w: &mut Writer)
        ensures { Writes w.old ((form 0 0).text self) w.new };

    // The text of a value is the same for any net.
    ghost same_text: { (own n : ℕ) (a : Self) → (form 0 0).text a ≡ (form own n).text a };

    // The card of a value that passes its check, for 32 transitions at most, has 2,048 bytes at most.
    ghost short: { (own n : ℕ) (a : Self) → n ≤ 32 → (form own n).check a 1 ≡ Passed → length ((form own n).text a) ≤ 2048 };
}

impl Card for Run {
    ghost form = { run_card };

    fn front(s: &[u8], own: u32, transitions: usize) -> Result<(Run, usize), Refusal> {
        let (sheet, next) = form::number_line(s, 0, b"sheet=", OwnSheet(own), 1)?;
        run_on_sheet(s, next, sheet, transitions)
    }

    fn lines(self) -> usize {
        5 + 2 * self.count.min(64)
    }

    fn check_lines(self, own: u32, transitions: usize) -> Result<(), Refusal> {
        OwnSheet(own).check(self.sheet as u64, 1)?;
        Range(1, 1000).check(self.denominator as u64, 3)?;
        Range(0, 64).check(self.count as u64, 4)?;
        check_all(&self.firings[..self.count], transitions, 5)?;
        Range(0, 10000000).check(self.rest as u64, 5 + 2 * self.count)
    }

    fn put_lines(self, w: &mut Writer) {
        form::put_number_line(w, b"sheet=", self.sheet as u64);
        put_memory_line(w, self.memory);
        form::put_number_line(w, b"denominator=", self.denominator as u64);
        form::put_number_line(w, b"firings=", self.count as u64);
        put_all(w, &self.firings[..self.count.min(64)]);
        form::put_number_line(w, b"rest=", self.rest as u64);
    }

    ghost same_text = { run_same_text };

    ghost short = { run_fits };
}

impl Card for Order {
    ghost form = { order_card };

    fn front(s: &[u8], own: u32, transitions: usize) -> Result<(Order, usize), Refusal> {
        let (sheet, next) = form::number_line(s, 0, b"sheet=", OwnSheet(own), 1)?;
        order_on_sheet(s, next, sheet, transitions)
    }

    fn lines(self) -> usize {
        3 + self.count.min(64)
    }

    fn check_lines(self, own: u32, transitions: usize) -> Result<(), Refusal> {
        OwnSheet(own).check(self.sheet as u64, 1)?;
        Range(0, 64).check(self.count as u64, 3)?;
        check_all(&self.fires[..self.count], transitions, 4)
    }

    fn put_lines(self, w: &mut Writer) {
        form::put_number_line(w, b"sheet=", self.sheet as u64);
        put_memory_line(w, self.memory);
        form::put_number_line(w, b"firings=", self.count as u64);
        put_all(w, &self.fires[..self.count.min(64)]);
    }

    ghost same_text = { order_same_text };

    ghost short = { order_fits };
}

// Reads an input that is one card, behind which nothing may follow.
pub fn whole<C: Card>(s: &[u8], own: u32, transitions: usize) -> Result<(C, usize), Refusal>
    ensures { result ≡ alone (C.form own transitions) s.now }
{
    let (card, end) = C::front(s, own, transitions)?;
    if end < s.len() {
        return Err(Refusal::Malformed(1 + card.lines()));
    }
    Ok((card, end))
}

// Reads a card of a net: the net is checked first.
pub fn read<C: Card>(net: Net, s: &[u8]) -> Result<(C, usize), Refusal>
    ensures { result ≡ read_card C.form net s.now }
{
    net_card::check_net(net)?;
    whole(s, net.sheet, net.transitions)
}

// Checks a net and what has a card of it, both handed over as values, as their cards would be.
pub fn check<C: Card>(net: Net, card: C) -> Result<(), Refusal>
    ensures { result ≡ card_checked C.form net card }
{
    net_card::check_net(net)?;
    card.check_lines(net.sheet, net.transitions)
}

// The card of a value at the front of an output, as far as it fits, and how many bytes it has where it does.
pub fn put<C: Card>(out: &mut [u8], card: C) -> usize
    ensures { Puts out.old 0 ((C.form 0 0).text card) result out.new }
{
    let mut w = Writer::new(out);
    card.put_lines(&mut w);
    w.at
}

// Writes the card of a value of a net, both of which pass their checks.
pub fn write<C: Card>(net: Net, card: C, out: &mut [u8]) -> Result<usize, Refusal>
    ensures { Responded (card_text C.form net card) out.old result out.new }
{
    check(net, card)?;
    let mut text = [0u8; 2048];
    let n = put(&mut text, card);
    reply::respond(&text[..n], out)
}

// Reads a net card and, right behind it, a card of that net.
pub fn net_and<C: Card>(input: &[u8]) -> Result<(Net, C), Refusal>
    ensures { result ≡ value_read (both_cards C.form input.now) }
{
    let (net, next) = net_card::read_net(input)?;
    let (card, _) = whole(net_card::remainder(input, next), net.sheet, net.transitions)?;
    Ok((net, card))
}
