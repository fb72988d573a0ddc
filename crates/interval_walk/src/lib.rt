// The records of a data interval one after another, in either direction, each from the one before it: document 02, L1. A step judges nothing. Of a sound interval the
// steps give its records; of other bytes, and from a spot that was made up, they give what their definitions say, and look at nothing outside the interval.
#![tactic(auto)]

ghost use Rattle.std.specs.Prelude.{◌+◌, ◌≤◌, ◌≡◌, length};
ghost use Rattle.interval.specs.Reading.{records_in, Readable};
ghost use Rattle.interval_walk.specs.AidSpots.{some_of, end_of, left_of, right_of, first_of, last_of, after_of, before_of, SpotOf};

use measures::Measures;
use rdf::{Control, Front};

// A record: where it begins in the interval, how long it is, how many records of its run are still to come in the direction, and where the
// run's RDFs end in that direction: forwards where they begin, backwards where they end.
#[derive(Clone, Copy)]
pub struct Spot {
    pub start: usize,
    pub len: usize,
    pub left: usize,
    pub at: usize,
}

// A record of so many bytes; none if there are no bytes, as no record is empty.
pub(crate) fn some_spot(start: usize, len: usize, left: usize, at: usize) -> Option<Spot>
    ensures { result ≡ some_of start len left at }
{
    if len == 0 {
        return None;
    }
    Some(Spot {
        start,
        len,
        left,
        at,
    })
}

// The first record of the group whose RDFs end at place q; it begins at `start`. The RDFs begin where the CIDF says.
pub(crate) fn group_left(ci: &[u8], start: usize, q: usize) -> Option<Spot>
    requires { q + 4 ≤ length ci.now }
    ensures { result ≡ left_of ci.now start q }
{
    let p = rdf::rdfs_begin(ci);
    if q < p + 3 {
        return None;
    }
    let Front { len, count, used } = rdf::group_before(ci, q, (q - p) / 3, 1, 65535)?;
    Some(Spot {
        start,
        len,
        left: count - 1,
        at: q - 3 * used,
    })
}

// The last record of a group of so many records of one length, which ends at `end`; its RDFs end at place q.
pub(crate) fn group_end(end: usize, len: usize, count: usize, q: usize) -> Option<Spot>
    ensures { result ≡ end_of end len count q }
{
    if end < len || count == 0 {
        return None;
    }
    some_spot(end - len, len, count - 1, q)
}

// The last record of the group whose RDFs begin at place q; it ends at `end`. A count stands left of its length.
pub(crate) fn group_right(ci: &[u8], end: usize, q: usize) -> Option<Spot>
    requires { 4 ≤ length ci.now }
    ensures { result ≡ right_of ci.now end q }
{
    let e = ci.len() - 4;
    if e < q || e - q < 3 {
        return None;
    }
    let first = fields::read::<2>(ci, q + 1);
    match rdf::take_apart(ci[q]) {
        Some(Control::Single) => group_end(end, first, 1, q + 3),
        Some(Control::Count) => {
            if e - q < 6 {
                return None;
            }
            group_end(end, fields::read::<2>(ci, q + 4), first, q + 6)
        }
        Some(Control::Paired) => None,
        None => None,
    }
}

// The first record of an interval.
pub fn first(ci: &[u8]) -> Option<Spot>
    ensures { result ≡ first_of ci.now }
{
    if ci.len() < 4 {
        return None;
    }
    group_left(ci, 0, ci.len() - 4)
}

// The last record of an interval.
pub fn last(ci: &[u8]) -> Option<Spot>
    ensures { result ≡ last_of ci.now }
{
    let n = ci.len();
    if n < 4 {
        return None;
    }
    let bytes = fields::read::<2>(ci, n - 4);
    group_right(ci, bytes, rdf::rdfs_begin(ci))
}

// The record after one.
pub fn after(ci: &[u8], s: Spot) -> Option<Spot>
    ensures { result ≡ after_of ci.now s }
{
    let n = ci.len();
    if n < s.start || n - s.start < s.len {
        return None;
    }
    let start = s.start + s.len;
    if 0 < s.left {
        return some_spot(start, s.len, s.left - 1, s.at);
    }
    if n < 4 || n - 4 < s.at {
        return None;
    }
    group_left(ci, start, s.at)
}

// The record before one.
pub fn before(ci: &[u8], s: Spot) -> Option<Spot>
    ensures { result ≡ before_of ci.now s }
{
    if 0 < s.left {
        return group_end(s.start, s.len, s.left, s.at);
    }
    if ci.len() < 4 {
        return None;
    }
    group_right(ci, s.start, s.at)
}

// The record of an ordinal in a sound interval, counted from 0: run by run.
pub fn spot_at(ci: &[u8], m: Measures, i: usize, forward: bool) -> Spot
    requires { Readable m ci.now × (i + 1 ≤ length (records_in ci.now)) }
    ensures { SpotOf m ci.now forward result i }
{
    let rdfs = rdf::rdfs_of(ci);
    let p = rdfs.at;
    let mut left = rdfs.many;
    let mut ordinal: usize = 0;
    let mut start: usize = 0;
    while 0 < left {
        let Some(Front { len, count, used }) = rdf::group_at(ci, p, left, m.least, m.most) else {
            unreachable!();
        };
        if i < ordinal + count {
            let j = i - ordinal;
            let ahead = if forward { count - 1 - j } else { j };
            let at = if forward { left - used } else { left };
            return Spot {
                start: start + j * len,
                len,
                left: ahead,
                at: p + 3 * at,
            };
        }
        ordinal += count;
        start += count * len;
        left -= used;
    }
    unreachable!()
}
