// Lines of a card: read at a position, checked as values, written behind one another.
#![tactic(auto)]

ghost use Rattle.std.specs.Prelude.{◌≡◌, ℕ, ◌++◌, true};
ghost use Rattle.reply.specs.Respond.{Checked};
ghost use Rattle.text.specs.Decimal.{field};
ghost use Rattle.text.specs.Writer.{Writes};
ghost use Rattle.form.specs.Form.{keyed};
ghost use Rattle.form.specs.Line.{ranged, listed, formed, number, items_text};
ghost use Rattle.form.specs.Sheet.{sheet_checked};
ghost use Rattle.form.specs.Code.{keyed_field};

use reply::Refusal;
use text::Writer;

// What a number on a line is checked against.
pub trait Judge: Copy {
    // What is found against a number, and the line that it stands on.
    ghost judge: { Self → ℕ → ℕ → Checked };

    fn check(self, n: u64, line: usize) -> Result<(), Refusal>
        ensures { result ≡ judge self n line };
}

// The numbers from the first to the second.
#[derive(Clone, Copy)]
pub struct Range(pub u64, pub u64);

impl Judge for Range {
    ghost judge = { λ r. ranged r.0 r.1 };

    fn check(self, n: u64, line: usize) -> Result<(), Refusal> {
        if n < self.0 || self.1 < n {
            return Err(Refusal::OutOfRange(line));
        }
        Ok(())
    }
}

// The numbers of a net's transitions, of which there are so many.
#[derive(Clone, Copy)]
pub struct Listed(pub u64);

impl Judge for Listed {
    ghost judge = { λ t. listed t.0 };

    fn check(self, n: u64, line: usize) -> Result<(), Refusal> {
        if n < self.0 {
            Ok(())
        } else {
            Err(Refusal::NoSuchTransition(line))
        }
    }
}

// The sheet of a card's net, which is in its range.
#[derive(Clone, Copy)]
pub struct OwnSheet(pub u32);

impl Judge for OwnSheet {
    ghost judge = { λ own. sheet_checked own.0 };

    fn check(self, n: u64, line: usize) -> Result<(), Refusal> {
        Range(0, 9999).check(n, line)?;
        if n != u64::from(self.0) {
            return Err(Refusal::AnotherSheet(line));
        }
        Ok(())
    }
}

// A reader of lines takes the input, the position and the number of the line, as the form of the line does whose `read` it equals: a cursor that is lent would
// promise the same of its state before and behind, which is no plainer.

// A key, a number behind it and the line's end.
fn field_line(s: &[u8], at: usize, key: &[u8], line: usize) -> Result<(u32, usize), Refusal>
    ensures { result ≡ formed line (keyed_field key.now s.now at) }
{
    if !text::begins_at(s, at, key) {
        return Err(Refusal::Malformed(line));
    }
    text::field_at(s, at + key.len(), true).ok_or(Refusal::Malformed(line))
}

// A line with a key and a number that passes its check: the number and the position behind the line.
pub fn number_line<J: Judge>(
    s: &[u8],
    at: usize,
    key: &[u8],
    judge: J,
    line: usize,
) -> Result<(u32, usize), Refusal>
    ensures { result ≡ (keyed key.now (number (J.judge judge))).read s.now at line }
{
    let (value, next) = field_line(s, at, key, line)?;
    judge.check(u64::from(value), line)?;
    Ok((value, next))
}

// A line with a key and a number.
pub fn put_number_line(w: &mut Writer, key: &[u8], n: u64)
    ensures { Writes w.old (key.now ++ field n true) w.new }
{
    w.put_bytes(key);
    w.put_field(n, true);
}

// Numbers joined by commas, and the line's end.
fn put_items(w: &mut Writer, items: &[u8])
    ensures { Writes w.old (items_text items.now) w.new }
{
    for (i, n) in items.iter().enumerate() {
        w.put_field(*n as u64, i + 1 == items.len());
    }
}

// A line with a key and a list of numbers.
pub fn put_items_line(w: &mut Writer, key: &[u8], items: &[u8])
    ensures { Writes w.old (key.now ++ items_text items.now) w.new }
{
    w.put_bytes(key);
    put_items(w, items);
}
