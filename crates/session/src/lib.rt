// A run entered by lines of text: what each line asks for, and what is answered.
#![tactic(auto)]

ghost use Rattle.std.specs.Prelude.{◌≡◌, ◌++◌, length, drop};
ghost use Rattle.laws.specs.Tests.{same_numbers};
ghost use Rattle.laws.specs.Writing.{Puts};
ghost use Rattle.console.specs.Printed.{refusal_text};
ghost use Rattle.session.specs.Session.{number_behind, entry_of, told_text, line_text, line_leaves};
ghost use Rattle.session.specs.Code.{shown_length, shown_output};

use form::Range;
use open_run::{Entered, OpenRun};
use reply::Refusal;
use text::Writer;

// What a line asks for: a step, the closing or a call. They are a closed set: what is done for each is a match, which must have all of them.
#[derive(Clone, Copy)]
pub enum Entry {
    Wait(u32),
    Fire(u32),
    Rest(u32),
    State,
    Timetable,
}

// How many bytes the answer to a line has, and the record behind it.
#[derive(Clone, Copy)]
pub struct Answered {
    pub length: usize,
    pub run: OpenRun,
}

// The number behind a key, where that is the whole line, and the position behind it.
fn number_behind(line: &[u8], key: &[u8]) -> Result<(u32, usize), Refusal>
    ensures { result ≡ number_behind key.now line.now }
{
    let (value, next) = form::number_line(line, 0, key, Range(0, 999999999), 1)?;
    if next < line.len() {
        return Err(Refusal::Malformed(2));
    }
    Ok((value, next))
}

// Whether a line is a word.
fn is_word(line: &[u8], word: &[u8]) -> bool
    ensures { result ≡ same_numbers line.now word.now }
{
    line == word
}

// Reads a line, its byte 10 included; it may ask for nothing that there is.
pub fn read_entry(line: &[u8]) -> Option<Entry>
    ensures { result ≡ entry_of line.now }
{
    if let Ok((parts, _)) = number_behind(line, b"wait=") {
        return Some(Entry::Wait(parts));
    }
    if let Ok((t, _)) = number_behind(line, b"fire=") {
        return Some(Entry::Fire(t));
    }
    if let Ok((parts, _)) = number_behind(line, b"rest=") {
        return Some(Entry::Rest(parts));
    }
    if is_word(line, b"state\n") {
        return Some(Entry::State);
    }
    if is_word(line, b"timetable\n") {
        return Some(Entry::Timetable);
    }
    None
}

// A refusal as the answer to a line.
fn put_refused(e: Refusal, out: &mut [u8; 2048]) -> usize
    ensures { (result ≡ length (refusal_text e)) × (out.new ≡ refusal_text e ++ drop (length (refusal_text e)) out.old) }
{
    console::refusal_front(out, e)
}

// A word at the front of an output, and how many bytes it has, as `console::refusal_front` does.
fn put_word(out: &mut [u8], word: &[u8]) -> usize
    ensures { Puts out.old 0 word.now result out.new }
{
    let mut w = Writer::new(out);
    w.put_bytes(word);
    w.at
}

// What a step says, as the answer to its line.
fn put_told(c: Result<(), Refusal>, out: &mut [u8; 2048]) -> usize
    ensures { (result ≡ length (told_text c)) × (out.new ≡ told_text c ++ drop (length (told_text c)) out.old) }
{
    match c {
        Err(e) => put_refused(e, out),
        Ok(()) => put_word(out, b"ok\n"),
    }
}

// What a step says, and the record behind it, as the answer to its line.
fn told(e: Entered, out: &mut [u8; 2048]) -> Answered
    ensures { (result ≡ record { length = length (told_text e.checked); run = e.run })
        × (out.new ≡ told_text e.checked ++ drop (length (told_text e.checked)) out.old) }
{
    let length = put_told(e.checked, out);
    Answered { length, run: e.run }
}

// What a call or the closing replied, its text in the output, and the record behind it, as the answer to its line.
fn shown(r: Result<usize, Refusal>, run: OpenRun, out: &mut [u8; 2048]) -> Answered
    ensures { (result ≡ record { length = shown_length r; run = run }) × (out.new ≡ shown_output r out.old) }
{
    match r {
        Ok(length) => Answered { length, run },
        Err(e) => {
            let length = put_refused(e, out);
            Answered { length, run }
        }
    }
}

// Answers line number n, its byte 10 included: the text at the front of the output, and the record behind it.
pub fn answer_line(run: OpenRun, n: usize, line: &[u8], out: &mut [u8; 2048]) -> Answered
    ensures { (result ≡ record { length = length (line_text run n line.now); run = line_leaves run line.now })
        × (out.new ≡ line_text run n line.now ++ drop (length (line_text run n line.now)) out.old) }
{
    let Some(entry) = read_entry(line) else {
        let length = put_refused(Refusal::Malformed(n), out);
        return Answered { length, run };
    };
    match entry {
        Entry::Wait(w) => {
            let e = entering::enter_wait(run, w);
            told(e, out)
        }
        Entry::Fire(t) => {
            let e = entering::enter_fire(run, t);
            told(e, out)
        }
        Entry::Rest(w) => {
            let c = entering::finish(run, w, out);
            shown(c.reply, c.run, out)
        }
        Entry::State => {
            let r = entering::state(run, out);
            shown(r, run, out)
        }
        Entry::Timetable => {
            let r = entering::timetable(run, out);
            shown(r, run, out)
        }
    }
}
