// How an operation answers: the text is put straight into an output that has room for the longest one, and else into a buffer first.
ghost use Rattle.std.specs.Prelude.{ℕ, List, ◌≡◌, ◌≤◌, ◌<◌, ◌^◌, length};
ghost use Rattle.laws.specs.Writing.{Puts};
ghost use Rattle.reply.specs.Respond.{Passed, answer, Responded};
ghost use Rattle.text.specs.Writer.{Writes};
ghost use Rattle.run.specs.Run.{run_card, firings_of, order_of};
ghost use Rattle.firing.specs.Semantics.{start_marking};
ghost use Rattle.firing.specs.Tokens.{tokens};
ghost use Rattle.firing.specs.Claims.{view};
ghost use Rattle.causal.specs.Print.{process_text};
ghost use Rattle.operations.specs.Replay.{end_text};

use super::{end_text, process_text};
use firing::State;
use net::Net;
use reply::Refusal;
use run::Run;
use run_card::Card;
use text::Writer;

// What an operation answers with: its text, and what has to hold for its lines to be written.
pub(crate) trait Answer {
    ghost text: { Self → List ℕ };

    ghost ready: { Self → Type 0 };

    fn put_lines(self, w: &mut Writer)
        requires { ready self }
        ensures { Writes w.old (text self) w.new };
}

// An answer at the front of an output, as far as it fits, and how many bytes it has where it does.
fn put<A: Answer>(a: A, out: &mut [u8]) -> usize
    requires { A.ready a }
    ensures { Puts out.old 0 (A.text a) result out.new }
{
    let mut w = Writer::new(out);
    a.put_lines(&mut w);
    w.at
}

// The reply with an answer of at most N bytes. N is small enough for an array, which is on the stack only while this runs: at the place of the call it would
// lie below what reads the cards, and a thread of the size that docs/EMBEDDING.md names would be too small.
#[inline(never)]
pub(crate) fn respond<const N: usize, A: Answer>(a: A, out: &mut [u8]) -> Result<usize, Refusal>
    requires ready { A.ready a }
    requires fits { length (A.text a) ≤ N }
    requires small { N < 2 ^ 63 }
    ensures { Responded (answer (A.text a)) out.old result out.new }
{
    let fits = N <= out.len();
    if fits {
        return Ok(put(a, out));
    }
    let mut text = [0u8; N];
    let n = put(a, &mut text);
    reply::respond(&text[..n], out)
}

// The card of a run.
impl Answer for &Run {
    ghost text = { λ run. (run_card 0 0).text run.now };

    ghost ready = { λ run. Unit {0} };

    fn put_lines(self, w: &mut Writer) {
        Card::put_lines(*self, w)
    }
}

// The end of a replay, which is a state of a net.
#[derive(Clone, Copy)]
pub(crate) struct End<'a>(pub(crate) &'a Net, pub(crate) &'a State);

impl Answer for End<'_> {
    ghost text = { λ end. end_text end.0.now (view end.1.now) };

    ghost ready = { λ end. Unit {0} };

    fn put_lines(self, w: &mut Writer) {
        end_text::put_end_lines(w, self.0, self.1)
    }
}

// The process of a run of a net.
#[derive(Clone, Copy)]
pub(crate) struct Process<'a>(pub(crate) &'a Net, pub(crate) &'a Run);

impl Answer for Process<'_> {
    ghost text = { λ p. process_text p.0.now (order_of (firings_of p.1.now)) };

    ghost ready = { λ p. tokens p.0.now (order_of (firings_of p.1.now)) (start_marking p.0.now) 0 ≡ Passed };

    fn put_lines(self, w: &mut Writer) {
        process_text::put_process_lines(w, self.0, *self.1)
    }
}
