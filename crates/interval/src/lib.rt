// One data interval: its layout, its reading, and the laws between them.
#![tactic(auto)]

// Where a key stands among the records of an interval, or where it would stand.
#[derive(Clone, Copy)]
pub enum Found {
    At {
        ordinal: usize,
        start: usize,
        length: usize,
    },
    Gap {
        ordinal: usize,
        start: usize,
    },
}
