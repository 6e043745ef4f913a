// Refusals with their numbers and positions, and the reply of every operation that writes an answer into a lent output.
#![tactic(auto)]

ghost use Rattle.std.specs.Prelude.{◌≡◌};
ghost use Rattle.reply.specs.Refusal.{number_of, position_of};
ghost use Rattle.reply.specs.Respond.{Responded, answer};

// Why an operation gives no answer. The variants hold the place that documents 01 and 02 print with them: a line of a card for the first four and for
// another sheet, a firing for the next four, both from 1. Of a step of an open run it is the firing being entered, whatever the number. The others have
// place 0: an output too short, two runs that are not of one order, nets that cannot be joined, by their list of pairs, their starts or their size, and a run
// that is closed.
#[derive(Clone, Copy)]
pub enum Refusal {
    Malformed(usize),
    OutOfRange(usize),
    LatestBelowEarliest(usize),
    NoSuchTransition(usize),
    NotEnabled(usize),
    TooManyTokens(usize),
    OutsideInterval(usize),
    Untimable(usize),
    OutputTooShort,
    OtherOrder,
    AnotherSheet(usize),
    BadPairs,
    UnequalStarts,
    TooLarge,
    ClosedRun,
}

impl Refusal {
    // The refusal's number in documents 01 and 02.
    pub fn number(self) -> u32
        ensures { result ≡ number_of self }
    {
        match self {
            Refusal::Malformed(_) => 1,
            Refusal::OutOfRange(_) => 2,
            Refusal::LatestBelowEarliest(_) => 3,
            Refusal::NoSuchTransition(_) => 4,
            Refusal::NotEnabled(_) => 5,
            Refusal::TooManyTokens(_) => 6,
            Refusal::OutsideInterval(_) => 7,
            Refusal::Untimable(_) => 8,
            Refusal::OutputTooShort => 9,
            Refusal::OtherOrder => 10,
            Refusal::AnotherSheet(_) => 11,
            Refusal::BadPairs => 12,
            Refusal::UnequalStarts => 13,
            Refusal::TooLarge => 14,
            Refusal::ClosedRun => 15,
        }
    }

    // The refusal's place in documents 01 and 02; 0 where it has none.
    pub fn position(self) -> usize
        ensures { result ≡ position_of self }
    {
        match self {
            Refusal::Malformed(line)
            | Refusal::OutOfRange(line)
            | Refusal::LatestBelowEarliest(line)
            | Refusal::NoSuchTransition(line)
            | Refusal::AnotherSheet(line) => line,
            Refusal::NotEnabled(firing)
            | Refusal::TooManyTokens(firing)
            | Refusal::OutsideInterval(firing)
            | Refusal::Untimable(firing) => firing,
            Refusal::OutputTooShort
            | Refusal::OtherOrder
            | Refusal::BadPairs
            | Refusal::UnequalStarts
            | Refusal::TooLarge
            | Refusal::ClosedRun => 0,
        }
    }
}

// The answer copied to the front of the output, and how many bytes it has; or 9 and no byte written where the output is shorter.
pub fn respond(text: &[u8], out: &mut [u8]) -> Result<usize, Refusal>
    ensures { Responded (answer text.now) out.old result out.new }
{
    if out.len() < text.len() {
        return Err(Refusal::OutputTooShort);
    }
    let n = text.len().min(out.len());
    out[..n].copy_from_slice(&text[..n]);
    Ok(n)
}
