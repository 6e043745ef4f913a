// One step of a run, judged and fired, and the firings of a run.
#![tactic(auto)]

ghost use Rattle.std.specs.Prelude.{◌≡◌, ℕ, ◌-◌, ◌<◌, ◌≤◌, min, true, false, ◌&&◌, ◌||◌, replicate, nat_lt, slice_index, slice_index_or};
ghost use Rattle.laws.specs.Arrays.{filled};
ghost use Rattle.net.specs.Net.{takes_in};
ghost use Rattle.run.specs.Run.{firings_of};
ghost use Rattle.firing.specs.Semantics.{arcs_of, enough, looked_at, restarts_fired, rule_of};
ghost use Rattle.firing.specs.Replay.{timely, start_state, play};
ghost use Rattle.firing.specs.Step.{stepped};
ghost use Rattle.steps.specs.Code.{arcs_in, moved, short, restarted, renewed_by};

use firing::{Attempt, Played, State};
use net::{NO_TRANSITION, Net, Transition};
use reply::Refusal;
use run::{Memory, Run};
use std::array;

// What a step goes by: what the transitions of a net take and give, the net's counts, the memory word, and the parts of a tick. The marking and its clocks are
// lent beside it, since not every caller has an instant with them.
#[derive(Clone, Copy)]
pub struct Terms<'a> {
    pub take: &'a [u8; 512],
    pub give: &'a [u8; 512],
    pub places: usize,
    pub transitions: usize,
    pub memory: Memory,
    pub denominator: u32,
}

impl<'a> Terms<'a> {
    // On a net, under a memory word, with so many parts to a tick.
    pub fn of(net: &'a Net, memory: Memory, denominator: u32) -> Terms<'a>
        ensures { (arcs_in result ≡ arcs_of net.now) × (result.memory ≡ memory) × (result.denominator ≡ denominator) }
    {
        Terms {
            take: &net.take,
            give: &net.give,
            places: net.places,
            transitions: net.transitions,
            memory,
            denominator,
        }
    }
}

// What the transitions of a net take, and the counts of the net, which are within the array.
#[derive(Clone, Copy)]
struct Takes<'a> {
    weights: &'a [u8; 512],
    places: usize,
    transitions: usize,
    ghost few_places: { places ≤ 16 },
    ghost few_transitions: { transitions ≤ 32 },
}

// A firing of t, a transition of the net, at an instant under a memory word.
#[derive(Clone, Copy)]
struct Fire<'a> {
    takes: Takes<'a>,
    give: &'a [u8; 512],
    memory: Memory,
    t: usize,
    instant: u64,
    ghost listed: { t < takes.transitions },
}

// The tokens of each place behind a firing's taking and behind its giving.
#[derive(Clone, Copy)]
struct Moved {
    middle: [u8; 16],
    later: [u8; 16],
}

impl<'a> Takes<'a> {
    // What is taken in a net whose counts may be too large.
    fn within(weights: &'a [u8; 512], places: usize, transitions: usize) -> Self
        ensures weights { result.weights.now ≡ weights.now }
        ensures places { result.places ≡ min places 16 }
        ensures transitions { result.transitions ≡ min transitions 32 }
    {
        Self {
            weights,
            places: places.min(16),
            transitions: transitions.min(32),
        }
    }

    // Whether every place has the tokens that t takes; the first place found short settles the matter. Tried with `all` over the same places, which proves: a
    // step was a twentieth slower.
    fn has_enough(&self, marking: &[u8; 16], t: usize) -> bool
        requires { t < 32 }
        ensures { result ≡ enough self.now.weights.now self.now.places marking.now t }
    {
        for (p, tokens) in marking[..self.places].iter().enumerate() {
            if *tokens < self.weights[32 * p + t] {
                return false;
            }
        }
        true
    }

    // Whether t is a transition and enabled.
    fn is_enabled(&self, marking: &[u8; 16], t: usize) -> bool
        ensures { result
            ≡ (nat_lt t self.now.transitions && enough self.now.weights.now self.now.places marking.now t) }
    {
        t < self.transitions && self.has_enough(marking, t)
    }

    // Marks the transitions that take more from place p than it has. All 32 slots are compared, whatever the count.
    fn mark(&self, p: usize, tokens: u8, marks: &mut [bool; 32])
        requires { p < 16 }
        ensures { marks.new
            ≡ filled (λ u. slice_index_or marks.old u false || nat_lt tokens (takes_in self.now.weights.now u p)) 32 marks.old }
    {
        for (u, mark) in marks.iter_mut().enumerate() {
            *mark |= tokens < self.weights[32 * p + u];
        }
    }
}

impl<'a> Fire<'a> {
    ghost use Rattle.steps.specs.Firing.{arcs};

    // The tokens of an enabled transition moved, unless a place would pass 255. Tried with `checked_add(given)?`, which proves: the loop may then end at any place,
    // so the places are no longer taken side by side, and a step was slower.
    fn moved(&self, marking: &[u8; 16]) -> Option<Moved>
        requires { enough self.now.takes.weights.now self.now.takes.places marking.now self.now.t ≡ true }
        ensures { result ≡ moved (arcs self.now) marking.now self.now.t }
    {
        let mut middle = *marking;
        let mut later = *marking;
        let mut over = false;
        for (p, tokens) in marking[..self.takes.places].iter().enumerate() {
            let left = *tokens - self.takes.weights[32 * p + self.t];
            let given = self.give[16 * self.t + p];
            let (sum, past) = left.overflowing_add(given);
            middle[p] = left;
            later[p] = sum;
            over |= past;
        }
        if over {
            None
        } else {
            Some(Moved { middle, later })
        }
    }

    // The transitions for which a marking is short at a place that t gives to: of those that the firing enables, all that were not enabled.
    fn short_marks(&self, looked: &[u8; 16]) -> [bool; 32]
        ensures { (u : ℕ) → u < self.now.takes.transitions
            → slice_index_or result u false ≡ short (arcs self.now) looked.now self.now.t u }
    {
        let mut marks = [false; 32];
        for (p, tokens) in looked[..self.takes.places].iter().enumerate() {
            if self.give[16 * self.t + p] != 0 {
                self.takes.mark(p, *tokens, &mut marks);
            }
        }
        marks
    }

    // Restarts the transitions that are marked and enabled. Mostly none is marked, which is seen at once.
    fn restart_marked(&self, later: &[u8; 16], marks: &[bool; 32], since: &mut [u64; 32])
        ensures { since.new ≡ restarted (arcs self.now) later.now marks.now self.now.instant since.old }
    {
        if !marks.contains(&true) {
            return;
        }
        for (u, marked) in marks[..self.takes.transitions].iter().enumerate() {
            if *marked && self.takes.has_enough(later, u) {
                since[u] = self.instant;
            }
        }
    }

    // The restarts: of those transitions that are enabled after the firing, the ones that were short where the memory word looks, and t if the word says so.
    fn renew(&self, looked: &[u8; 16], later: &[u8; 16], since: &mut [u64; 32])
        ensures { since.new
            ≡ renewed_by (arcs self.now) (restarts_fired self.now.memory) looked.now later.now self.now.t
            self.now.instant since.old }
    {
        let marks = self.short_marks(looked);
        self.restart_marked(later, &marks, since);
        if restarts_fired(self.memory) && self.takes.has_enough(later, self.t) {
            since[self.t] = self.instant;
        }
    }
}

// Which transitions have enough tokens.
pub fn enabled_flags(
    take: &[u8; 512],
    places: usize,
    transitions: usize,
    marking: &[u8; 16],
) -> [bool; 32]
    ensures { result ≡ filled (λ u. enough take.now (min places 16) marking.now u) (min transitions 32) (replicate 32 false) }
{
    let takes = Takes::within(take, places, transitions);
    array::from_fn(|u| takes.is_enabled(marking, u))
}

// Whether a clock, in parts, is within a transition's interval.
fn on_time(t: Transition, denominator: u32, clock: u64) -> bool
    ensures { result ≡ timely t denominator clock }
{
    let parts = denominator as u64;
    if clock < parts * t.earliest as u64 {
        return false;
    }
    match t.latest {
        None => true,
        Some(ticks) => clock <= parts * ticks as u64,
    }
}

// What a clock shows at an instant.
pub fn elapsed(instant: u64, since: u64) -> u64
    ensures { result ≡ instant - since }
{
    instant.saturating_sub(since)
}

// The marking that the memory word looks at.
fn looked_at<'a>(memory: Memory, before: &'a [u8; 16], middle: &'a [u8; 16]) -> &'a [u8; 16]
    ensures { result.now ≡ looked_at memory before.now middle.now }
{
    match memory {
        Memory::Intermediate => middle,
        Memory::Atomic | Memory::Carry => before,
    }
}

// Whether the fired transition restarts under the memory word, if it is still enabled.
fn restarts_fired(memory: Memory) -> bool
    ensures { result ≡ restarts_fired memory }
{
    matches!(memory, Memory::Intermediate | Memory::Atomic)
}

// A firing judged and, if it is allowed, fired. A refused firing changes nothing.
pub fn step(
    terms: Terms,
    f: Attempt,
    marking: &mut [u8; 16],
    since: &mut [u64; 32],
) -> Result<(), Refusal>
    ensures { record { checked = result; marking = marking.new; since = since.new }
        ≡ (let a = arcs_in terms.entry in
        stepped a (rule_of a terms.entry.memory) terms.entry.denominator f marking.old since.old) }
{
    let t = f.t;
    let takes = Takes::within(terms.take, terms.places, terms.transitions);
    if !takes.is_enabled(marking, t) {
        return Err(Refusal::NotEnabled(f.number));
    }
    if !on_time(f.interval, terms.denominator, elapsed(f.instant, since[t])) {
        return Err(Refusal::OutsideInterval(f.number));
    }
    let fire = Fire {
        takes,
        give: terms.give,
        memory: terms.memory,
        t,
        instant: f.instant,
    };
    let Some(moved) = fire.moved(marking) else {
        return Err(Refusal::TooManyTokens(f.number));
    };
    let looked = looked_at(terms.memory, marking, &moved.middle);
    fire.renew(looked, &moved.later, since);
    *marking = moved.later;
    Ok(())
}

// The tokens at the start.
pub fn start_marking(start: [u8; 16], places: usize) -> [u8; 16]
    ensures { result ≡ filled (λ p. slice_index start p) (min places 16) (replicate 16 0) }
{
    let n = places.min(16);
    let mut marking = [0u8; 16];
    marking[..n].copy_from_slice(&start[..n]);
    marking
}

// A run's firings, from the start: the state behind the last, or the first refusal and the state before that firing.
pub fn play(net: Net, run: Run) -> Played
    ensures { result ≡ play net (rule_of (arcs_of net) run.memory) run.denominator (firings_of run) (start_state net) 0 }
{
    let terms = Terms::of(&net, run.memory, run.denominator);
    let count = run.count.min(64);
    let mut state = State {
        marking: start_marking(net.start, net.places),
        since: [0; 32],
        now: 0,
    };
    for (i, f) in run.firings[..count].iter().enumerate() {
        let t = f.fire as usize;
        let instant = state.now + f.wait as u64;
        let attempt = Attempt {
            t,
            interval: net.table.get(t).copied().unwrap_or(NO_TRANSITION),
            instant,
            number: i + 1,
        };
        let checked = step(terms, attempt, &mut state.marking, &mut state.since);
        let Ok(()) = checked else {
            return Played { checked, state };
        };
        state.now = instant;
    }
    let checked = Ok(());
    Played { checked, state }
}
