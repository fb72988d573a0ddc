// A change of an area as a list of stores, what it wrote, and the laws of what is stored. Only types, definitions and proofs: the code that makes a change stands above.
#![tactic(auto)]

// What an accepted change tells: how many intervals it wrote, and their buffer numbers, ascending: the index record is 0, data interval i is i + 1. Past the
// count stands 0.
#[derive(Clone, Copy)]
pub struct Written {
    pub count: usize,
    pub first: usize,
    pub second: usize,
    pub third: usize,
    pub fourth: usize,
}

// Why a change was not made: too few intervals are free, or the index record has no room.
#[derive(Clone, Copy)]
pub enum Full {
    NoInterval,
    NoRoom,
}
