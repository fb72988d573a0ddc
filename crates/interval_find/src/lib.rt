// The records of a sound data interval: searched for a key or a place, and told by their lengths, run by run.
#![tactic(auto)]

ghost use Rattle.std.specs.Prelude.{◌+◌, ◌-◌, ◌*◌, ◌^◌, ◌≤◌, ◌<◌, ◌≡◌, map, length};
ghost use Rattle.fields.specs.Bytes.{splice, part};
ghost use Rattle.fields.specs.Order.{order_of};
ghost use Rattle.interval.specs.Reading.{displacement, records_in, Readable};
ghost use Rattle.interval.specs.Search.{place_of, Within, starting_at, started_of, Ends};
ghost use Rattle.interval.specs.declared.Found.TheVariants.{At};
ghost use Rattle.interval_find.specs.AidRuns.{RunIn, Holding};

use interval::Found;
use measures::Measures;
use rdf::Front;
use std::cmp::Ordering;

// Records of one length that lie one after another: the ordinal of the first, where it begins, how long each is, and how many follow it.
#[derive(Clone, Copy)]
pub(crate) struct Run {
    ordinal: usize,
    start: usize,
    len: usize,
    last: usize,
}

// The i-th record of a run, counted from 0, as the one that was sought.
pub(crate) fn found(run: Run, i: usize) -> Found
    requires { (run.ordinal + i < 2 ^ 63) × (run.start + i * run.len < 2 ^ 63) }
    ensures { result ≡ At (run.ordinal + i) (run.start + i * run.len) run.len }
{
    Found::At {
        ordinal: run.ordinal + i,
        start: run.start + i * run.len,
        length: run.len,
    }
}

// How the key of the record that begins at a place stands to a key.
pub(crate) fn order_at(ci: &[u8], m: Measures, at: usize, key: &[u8]) -> Ordering
    requires { (at + m.offset + m.key ≤ length ci.now) × (length key.now ≡ m.key) }
    ensures { result ≡ order_of (part ci.now (at + m.offset) m.key) key.now }
{
    let a = at + m.offset;
    let e = a + m.key;
    fields::compare(&ci[a..e], key)
}

// The place of a key that is above the records before a run and below its last. The run is halved until one gap is left: keys ascend, so what
// is left of a record whose key is below is below, and what is right of one whose key is above is above.
pub(crate) fn find_in(ci: &[u8], m: Measures, key: &[u8], run: Run) -> Found
    requires { Readable m ci.now × (length key.now ≡ m.key) × RunIn ci.now run × Holding m ci.now key.now run }
    ensures { result ≡ place_of m key.now (records_in ci.now) }
{
    let mut low: usize = 0;
    let mut high = run.last;
    while low < high {
        let middle = low + (high - low) / 2;
        match order_at(ci, m, run.start + middle * run.len, key) {
            Ordering::Less => low = middle + 1,
            Ordering::Equal => return found(run, middle),
            Ordering::Greater => high = middle,
        }
    }
    Found::Gap {
        ordinal: run.ordinal + low,
        start: run.start + low * run.len,
    }
}

// The place of a key: run by run, until the last key of one is not below it.
pub fn find(ci: &[u8], m: Measures, key: &[u8]) -> Found
    requires { Readable m ci.now × (length key.now ≡ m.key) }
    ensures is { result ≡ place_of m key.now (records_in ci.now) }
    ensures within { Within (length (records_in ci.now)) (displacement ci.now) result }
{
    let rdfs = rdf::rdfs_of(ci);
    let p = rdfs.at;
    let mut left = rdfs.many;
    let mut ordinal: usize = 0;
    let mut start: usize = 0;
    while 0 < left {
        let Some(Front { len, count, used }) = rdf::group_at(ci, p, left, m.least, m.most) else {
            return Found::Gap { ordinal, start };
        };
        let run = Run {
            ordinal,
            start,
            len,
            last: count - 1,
        };
        match order_at(ci, m, start + run.last * len, key) {
            Ordering::Less => {}
            Ordering::Equal => return found(run, run.last),
            Ordering::Greater => return find_in(ci, m, key, run),
        }
        ordinal += count;
        start += count * len;
        left -= used;
    }
    Found::Gap { ordinal, start }
}

// Whether a record begins at a place of the interval, and how long it is. In a run a division tells.
pub fn record_at(ci: &[u8], m: Measures, place: usize) -> Option<usize>
    requires { Readable m ci.now }
    ensures is { result ≡ started_of (starting_at place 0 (records_in ci.now)) }
    ensures ends { Ends (length ci.now) place result }
{
    let rdfs = rdf::rdfs_of(ci);
    let p = rdfs.at;
    let mut left = rdfs.many;
    let mut start: usize = 0;
    while 0 < left {
        let Front { len, count, used } = rdf::group_at(ci, p, left, m.least, m.most)?;
        let end = start + count * len;
        if place < end {
            if (place - start) % len != 0 {
                return None;
            }
            return Some(len);
        }
        start = end;
        left -= used;
    }
    None
}

// The lengths of the records, at the front of a buffer; the answer is how many. Group by group, so that a run's RDFs are read once.
pub fn lengths_out(ci: &[u8], m: Measures, lens: &mut [u16]) -> usize
    requires { Readable m ci.now × (length (records_in ci.now) ≤ length lens.old) }
    ensures count { result ≡ length (records_in ci.now) }
    ensures list { lens.new ≡ splice lens.old 0 (map length (records_in ci.now)) }
{
    let rdfs = rdf::rdfs_of(ci);
    let p = rdfs.at;
    let mut left = rdfs.many;
    let mut i: usize = 0;
    while 0 < left {
        let Some(Front { len, count, used }) = rdf::group_at(ci, p, left, m.least, m.most) else {
            return i;
        };
        lens[i..i + count].fill(len as u16);
        i += count;
        left -= used;
    }
    i
}
