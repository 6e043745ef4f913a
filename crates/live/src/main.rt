// Enters a run live: reads a net card, the lines `sheet`, `memory` and `denominator`, then steps and calls, and answers each line as it comes.
#![tactic(auto)]

ghost use Rattle.std.specs.Prelude.{◌-◌, ◌≤◌, length};

use open_run::OpenRun;
use reply::Refusal;
use std::io::{Read, Write};

// A run that is entered live: what is read and where the answers go, the buffer of what has come, the run's record, the number of the next line, the part of
// the buffer that is not answered, and up to where no line ends in it: each byte is looked at once, however small the pieces are in which a line comes.
#[derive(Drop)]
struct LiveRun<'a, R, W> {
    input: &'a mut R,
    to: &'a mut W,
    buffer: &'a mut [u8],
    run: OpenRun,
    number: usize,
    at: usize,
    seen: usize,
    end: usize,
}

// The part of a text between two positions; an empty one where they do not stand in the text, the first before the second. The program `cases` has the same
// line.
fn part(s: &[u8], from: usize, to: usize) -> &[u8] {
    s.get(from..to).unwrap_or(&[])
}

// Reads what has come into a buffer, from a position on; how many bytes, none where the input has ended or the buffer is full.
fn read_some<R: Read>(input: &mut R, buffer: &mut [u8], from: usize) -> usize
    ensures { result ≤ length buffer.old - from }
{
    if buffer.len() <= from {
        return 0;
    }
    let tail = &mut buffer[from..];
    let got = input.read(tail);
    got.unwrap_or(0)
}

// ---- the opening

// How many lines of a text have ended.
fn ended_lines(s: &[u8]) -> usize {
    s.iter().filter(|b| **b == b'\n').count()
}

// Whether a text is refused for good: its refusal is of no line, or of one that has ended.
fn is_final(e: Refusal, s: &[u8]) -> bool {
    e.position() <= ended_lines(s)
}

// Whether a text opens a run, or does not whatever comes behind it.
fn is_settled(s: &[u8]) -> bool {
    match net_card::read_net(s) {
        Err(e) => is_final(e, s),
        Ok((net, next)) => {
            let behind = net_card::remainder(s, next);
            match open_cards::read_opening(behind, net.sheet) {
                Err(e) => is_final(e, behind),
                Ok(_) => true,
            }
        }
    }
}

// Reads the input until that is settled, until it ends or until the buffer is full; how many bytes have come. Only a line that has ended settles it, so that a
// long line is not read anew for each piece of it.
fn read_opening<R: Read>(input: &mut R, buffer: &mut [u8]) -> usize {
    let mut n: usize = 0;
    // The next position is the one behind what came.
    while n < buffer.len() {
        let more = read_some(input, &mut *buffer, n);
        if more == 0 {
            return n;
        }
        let from = n;
        n += more;
        if part(buffer, from, n).contains(&b'\n') && is_settled(part(buffer, 0, n)) {
            return n;
        }
    }
    n
}

// The run that a text opens, and the position behind the lines that open it.
fn opening(s: &[u8]) -> Result<(OpenRun, usize), Refusal> {
    let (net, next) = net_card::read_net(s)?;
    let behind = net_card::remainder(s, next);
    let ((memory, denominator), end) = open_cards::read_opening(behind, net.sheet)?;
    let left = net_card::remainder(behind, end);
    let e = entering::open_on(net, memory, denominator);
    Ok((e.run, s.len() - left.len()))
}

// Opens the run of a text, and says so or why not; nothing goes on where the answer is not read.
fn open<W: Write>(to: &mut W, s: &[u8]) -> Option<(OpenRun, usize)> {
    match opening(s) {
        Err(e) => {
            let _ = console::print_refusal(to, e);
            None
        }
        Ok(opened) => {
            to.write_all(b"ok\n").ok()?;
            Some(opened)
        }
    }
}

// ---- the lines behind it

// The position behind the line at a position, if the line has ended.
fn line_end(s: &[u8], at: usize) -> Option<usize> {
    let bytes = s.get(at..)?.iter().position(|b| *b == b'\n')?;
    Some(at + bytes + 1)
}

// Moves the part of a buffer between two positions to its front, where it may stand already; how many bytes.
fn move_to_front(buffer: &mut [u8], at: usize, end: usize) -> usize {
    let last = end.min(buffer.len());
    if last <= at {
        return 0;
    }
    if 0 < at {
        buffer.copy_within(at..last, 0);
    }
    last - at
}

// What ends the input where no line does is 1 at its number.
fn print_unended<W: Write>(to: &mut W, number: usize, bytes: usize) {
    if 0 < bytes {
        let _ = console::print_refusal(to, Refusal::Malformed(number));
    }
}

impl<'a, R: Read, W: Write> LiveRun<'a, R, W> {
    // Answers the line that ends before a position; nothing goes on where the answer is not read.
    fn answer(&mut self, next: usize) -> Option<()> {
        let mut out = [0u8; 2048];
        let at = self.at;
        let a = session::answer_line(self.run, self.number, part(self.buffer, at, next), &mut out);
        self.to.write_all(part(&out, 0, a.length)).ok()?;
        self.run = a.run;
        self.number = self.number.saturating_add(1);
        self.at = next;
        self.seen = next;
        Some(())
    }

    // Reads on, behind the part that is not answered, which is moved to the front; nothing goes on where the input has ended, or the line fills the buffer.
    fn read_on(&mut self) -> Option<()> {
        let left = move_to_front(self.buffer, self.at, self.end);
        let more = read_some(self.input, self.buffer, left);
        if more == 0 {
            print_unended(self.to, self.number, left);
            return None;
        }
        self.at = 0;
        self.seen = left;
        self.end = left + more;
        Some(())
    }

    // Answers the next line where it has ended, and reads on where it has not.
    fn turn(&mut self) -> Option<()> {
        let (seen, end) = (self.seen, self.end);
        match line_end(part(self.buffer, 0, end), seen) {
            Some(next) => self.answer(next),
            None => self.read_on(),
        }
    }

    // Answers each line as it comes. A loop has to end: this one does so after more turns than there is time for.
    fn serve(&mut self) {
        for _ in 0..4000000000000000000u64 {
            if self.turn().is_none() {
                return;
            }
        }
    }
}

// Opens a run and answers the lines behind, which are counted from 4, in a buffer.
fn live<R: Read, W: Write>(input: &mut R, to: &mut W, buffer: &mut [u8]) {
    let n = read_opening(input, &mut *buffer);
    let Some((run, at)) = open(to, part(buffer, 0, n)) else {
        return;
    };
    let mut live_run = LiveRun {
        input,
        to,
        buffer,
        run,
        number: 4,
        at,
        seen: at,
        end: n,
    };
    live_run.serve();
}

fn main(rt: HostRuntime) {
    let mut buffer = [0u8; 65536];
    live(&mut rt.stdin(), &mut rt.stdout(), &mut buffer);
}
