// The published semantics and the replay of a run. No function: types, definitions and theorems.
#![tactic(auto)]

use net::Transition;
use reply::Refusal;

// The tokens of each place, the instant at which each transition's clock last restarted, and the present instant, in parts of a tick.
#[derive(Clone, Copy)]
pub struct State {
    pub marking: [u8; 16],
    pub since: [u64; 32],
    pub now: u64,
}

// What a run came to: whether every firing was allowed, and the state, which stands beside a refusal too, as that before the refused firing.
#[derive(Clone, Copy)]
pub struct Played {
    pub checked: Result<(), Refusal>,
    pub state: State,
}

// A firing that is tried: transition number t with its interval, the instant, and which firing of the run it is, from 1.
#[derive(Clone, Copy)]
pub struct Attempt {
    pub t: usize,
    pub interval: Transition,
    pub instant: u64,
    pub number: usize,
}
