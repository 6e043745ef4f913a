// Windows and timings of firing orders. No function: a type, definitions and theorems.
#![tactic(auto)]

use net::Transition;

// The window of a firing: the static interval of its transition, counted from an earlier firing, its origin (0 is the beginning, 1 the first firing).
#[derive(Clone, Copy)]
pub struct Window {
    pub origin: usize,
    pub interval: Transition,
}
