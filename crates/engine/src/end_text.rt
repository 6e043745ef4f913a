// The text of a replay's end: the tokens of each place, and the clock of each transition.
ghost use Rattle.std.specs.Prelude.{◌++◌, ◌≤◌, length};
ghost use Rattle.laws.specs.Writing.{joined};
ghost use Rattle.text.specs.Key.{bytes};
ghost use Rattle.text.specs.Writer.{Writes};
ghost use Rattle.firing.specs.Claims.{view};
ghost use Rattle.operations.specs.Replay.{end_text};
ghost use Rattle.engine.specs.Clocks.{clock_line, clock_value};

use firing::State;
use net::Net;
use text::Writer;

// The line of a clock, which is none where its transition is not enabled.
fn put_clock(w: &mut Writer, clock: Option<u64>)
    ensures { Writes w.old (bytes "clock=" ++ clock_value clock) w.new }
{
    w.put_bytes(b"clock=");
    match clock {
        Some(parts) => w.put_field(parts, true),
        None => w.put_bytes(b"off\n"),
    }
}

// The lines of the clocks of the transitions that have a flag.
fn put_clocks(w: &mut Writer, flags: &[bool], since: &[u64], instant: u64)
    requires { length flags.now ≤ length since.now }
    ensures { Writes w.old (joined (clock_line flags.now since.now instant) (length flags.now)) w.new }
{
    for (on, from) in flags.iter().zip(since) {
        put_clock(w, on.then_some(instant.saturating_sub(*from)));
    }
}

// The lines of a replay's end.
pub(crate) fn put_end_lines(w: &mut Writer, net: &Net, st: &State)
    ensures { Writes w.old (end_text net.now (view st.entry.now)) w.new }
{
    let flags = steps::enabled_flags(&net.take, net.places, net.transitions, &st.marking);
    form::put_items_line(w, b"end=", &st.marking[..net.places.min(16)]);
    put_clocks(w, &flags[..net.transitions.min(32)], &st.since, st.now);
}
