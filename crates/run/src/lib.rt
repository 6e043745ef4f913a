// Timed runs and firing orders of a net. No function: the types, their cards as forms, and their laws.
#![tactic(auto)]

// The memory rule: which clocks restart at a firing. The three are a closed set: what depends on the rule is a match, which must have all of them.
#[derive(Clone, Copy, PartialEq, Eq)]
pub enum Memory {
    Intermediate,
    Atomic,
    Carry,
}

// A firing of a run: the wait before it in parts of a tick, and the transition's number.
#[derive(Clone, Copy)]
pub struct Firing {
    pub wait: u32,
    pub fire: u32,
}

// What stands for a firing that is none.
pub const NO_FIRING: Firing = Firing { wait: 0, fire: 0 };

// A timed run of the net on a sheet: a part is one tick divided by the denominator. Slots past the count are no part of it, as with a net.
#[derive(Clone, Copy)]
pub struct Run {
    pub sheet: u32,
    pub memory: Memory,
    pub denominator: u32,
    pub count: usize,
    pub firings: [Firing; 64],
    pub rest: u32,
}

// A firing order of the net on a sheet. Slots past the count are no part of it, as with a net.
#[derive(Clone, Copy)]
pub struct Order {
    pub sheet: u32,
    pub memory: Memory,
    pub count: usize,
    pub fires: [u32; 64],
}
