// A whole control area: the index record and the data intervals that it names.
#![tactic(auto)]

// What a sound area holds: how many records, and how many free intervals.
#[derive(Clone, Copy)]
pub struct Intact {
    pub records: usize,
    pub free: usize,
}

// Where an area is damaged: 0 at the index record, else the buffer number of the lowest interval.
#[derive(Clone, Copy)]
pub struct Damage {
    pub place: usize,
}

// A record that lies in an area: where it begins, and how long it is.
#[derive(Clone, Copy)]
pub struct Lying {
    pub from: usize,
    pub length: usize,
}
