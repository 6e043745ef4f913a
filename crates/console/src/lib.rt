// What every program does outside: its input is read to its end, an answer is printed as it is, a refusal as two lines.
#![tactic(auto)]

ghost use Rattle.std.specs.Prelude.{◌≤◌, length, take, OnOk};
ghost use Rattle.std.specs.Io.KnownBytes.{Appends, Consumes};
ghost use Rattle.laws.specs.Writing.{Puts};
ghost use Rattle.text.specs.Writer.{Writes};
ghost use Rattle.console.specs.Printed.{refusal_text, reply_text};

use reply::Refusal;
use std::io;
use std::io::{Read, Write};
use text::Writer;

// Reads until a buffer is full, the input ends or a read fails; how many bytes stand at its front. The library's `read_exact` fails where the input ends first.
// What stands behind them is not told: the library lets a read write there.
pub fn read_full<R: Read>(input: &mut R, buffer: &mut [u8]) -> usize
    ensures within { result ≤ length buffer.new }
    ensures read { Consumes (R.remaining input.old) (R.remaining input.new) (take result buffer.new) }
{
    let mut n: usize = 0;
    // The step is how much one read brought.
    while n < buffer.len() {
        match input.read(&mut buffer[n..]) {
            Ok(0) | Err(_) => return n,
            Ok(more) => n += more,
        }
    }
    n
}

// A refusal as the lines `refused` and `place`. They are not the text that the library makes of a value: it would write the numbers, and it divides; the writer
// of cards does not.
pub fn put_refusal(w: &mut Writer, r: Refusal)
    ensures { Writes w.old (refusal_text r) w.new }
{
    let number = r.number() as u64;
    let place = r.position() as u64;
    form::put_number_line(w, b"refused=", number);
    form::put_number_line(w, b"place=", place);
}

// The same at the front of an output, and how many bytes they have. Each who writes there has three such lines: one function for all takes a type of each
// one's own, which is no shorter.
pub fn refusal_front(out: &mut [u8], r: Refusal) -> usize
    ensures { Puts out.old 0 (refusal_text r) result out.new }
{
    let mut w = Writer::new(out);
    put_refusal(&mut w, r);
    w.at
}

// Prints a refusal.
pub fn print_refusal<W: Write>(to: &mut W, r: Refusal) -> io::Result<()>
    ensures { OnOk result (Appends (W.contents to.old) (W.contents to.new) (refusal_text r)) }
{
    let mut text = [0u8; 64];
    let n = refusal_front(&mut text, r);
    to.write_all(&text[..n])
}

// Prints the bytes of an answer at the front of an output, or the refusal. Six programs are `read_full`, their operation and this, five lines each:
// one function for all takes an operation of each program's own, which is no shorter.
pub fn print_reply<W: Write>(to: &mut W, r: Result<usize, Refusal>, out: &[u8]) -> io::Result<()>
    ensures { OnOk result (Appends (W.contents to.old) (W.contents to.new) (reply_text r out.now)) }
{
    match r {
        Err(why) => print_refusal(to, why),
        Ok(n) => to.write_all(out.get(..n).unwrap_or(&[])),
    }
}
