// What the lines of a net card are read by: the counts, and the slots of the weights, with their bounds. These types are in a file of their own, since
// specs/Code.antt names them and a type with ghost fields imports what the clauses of its file name.
ghost use Rattle.std.specs.Prelude.{◌≡◌, ◌+◌, ◌*◌, ◌≤◌, ◌<◌};

// The slots of an array for a list of so many numbers: the first, and each next one a step further. Sixteen of them are within the array.
#[derive(Clone, Copy)]
pub(crate) struct Slots {
    pub(crate) count: usize,
    pub(crate) first: usize,
    pub(crate) step: usize,
    ghost few: { count ≤ 16 },
    ghost within: { first + step * 15 < 512 },
}

impl Slots {
    // Where the array of what is taken has the weights of transition t.
    pub(crate) fn taken(count: usize, t: usize) -> Self
        requires { (count ≤ 16) × (t < 32) }
        ensures count { result.count ≡ count }
        ensures first { result.first ≡ t }
        ensures step { result.step ≡ 32 }
    {
        Self {
            count,
            first: t,
            step: 32,
        }
    }

    // Where the array of what is given has them.
    pub(crate) fn given(count: usize, t: usize) -> Self
        requires { (count ≤ 16) × (t < 32) }
        ensures count { result.count ≡ count }
        ensures first { result.first ≡ 16 * t }
        ensures step { result.step ≡ 1 }
    {
        Self {
            count,
            first: 16 * t,
            step: 1,
        }
    }
}

// The values of the first three lines of a net card.
#[derive(Clone, Copy)]
pub(crate) struct Heading {
    pub(crate) sheet: u32,
    pub(crate) places: usize,
    pub(crate) transitions: usize,
    ghost few_places: { places ≤ 16 },
    ghost few_transitions: { transitions ≤ 32 },
}
