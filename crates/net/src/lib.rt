// Nets. No function: the types, the net card as a form, and its laws.
#![tactic(auto)]

// A transition's static interval, in ticks; with no `latest` it has no upper bound.
#[derive(Clone, Copy)]
pub struct Transition {
    pub earliest: u32,
    pub latest: Option<u32>,
}

// What stands for a transition that is none: no clock is outside its interval.
pub const NO_TRANSITION: Transition = Transition {
    earliest: 0,
    latest: None,
};

// A net, by the sheet that it is drawn on. What is taken stands by places, 32 transitions a place, so that a firing finds those that a place is short of
// side by side; what is given stands by transitions, 16 places a transition. Slots past the counts are no part of it: there is no heap, and values whose
// counts pass the arrays are refused like a card.
#[derive(Clone, Copy)]
pub struct Net {
    pub sheet: u32,
    pub places: usize,
    pub transitions: usize,
    pub start: [u8; 16],
    pub take: [u8; 512],
    pub give: [u8; 512],
    pub table: [Transition; 32],
}
