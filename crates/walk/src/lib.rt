// The register from end to end: document 02, L1. A walk begins at the bytes of a key or at an end of the register, on an area that is checked then, and goes from
// record to record in one direction. A place carries what makes a step quick, and a step judges nothing. From a place that a walk began with or that a step gave, on
// the area as it was when the walk began, the steps give the records of the walk, each once, and then the end for ever. Between steps a caller may do what it
// likes but change the area: then, and from a place that was made up, each step gives a place whose record is empty or a part of the area, and nothing more is promised.
#![tactic(auto)]

ghost use Rattle.std.specs.Prelude.{◌+◌, ◌-◌, ◌*◌, ◌^◌, ◌≤◌, ◌<◌, ◌≡◌, true, false, length};
ghost use Rattle.measures.specs.Judgement.{Fits, asked, width_for};
ghost use Rattle.interval.specs.Reading.{records_in, Readable};
ghost use Rattle.area.specs.Content.{records_of};
ghost use Rattle.area_find.specs.AidSought.{Whole};
ghost use Rattle.requests.specs.Walks.{walk_from_of, walk_end_of};
ghost use Rattle.opening.specs.AidOpened.{opened_of};
ghost use Rattle.walk.specs.AidSteps.{end_place, count_in, placed_of, edge_past_of, ahead_of, last_filled_of, Among, behind_of, along_to, along_of, leave_of, next_of, Shown, end_in};
ghost use Rattle.walk.specs.AidGives.{Begins};
ghost use Rattle.walk.specs.AidStands.{before, StoodIn, Sits, from_found, upto_found, FirstFrom, begins_from, BeginsAt, ended_by};
ghost use Rattle.walk.specs.AidStands.{begun_from};

use area_find::KeyPlace;
use index_walk::Edge;
use interval::Found;
use interval_walk::Spot;
use measures::{Measures, Numbers};
use requests::Refusal;

// Where a walk stands: at a record, or at the end, where the length is 0. `entry` is its entry, from 0, `start` where it begins in the area. The rest makes steps quick:
// how many records of its run are still to come, and where the run's RDFs end in the direction, in the interval; forwards also where the next entry of the
// index record ends, 0 after the last, and where its section's highest lies.
#[derive(Clone, Copy)]
pub struct Place {
    pub entry: usize,
    pub start: usize,
    pub length: usize,
    pub left: usize,
    pub at: usize,
    pub right: usize,
    pub end: usize,
}

// A walk begun at a place, or refused.
pub type Begun = Result<Place, Refusal>;

// The end.
pub(crate) fn ended() -> Place
    ensures { result ≡ end_place }
{
    Place {
        entry: 0,
        start: 0,
        length: 0,
        left: 0,
        at: 0,
        right: 0,
        end: 0,
    }
}

// How many data intervals an area has; none where the size is below every one that is permitted.
pub(crate) fn count_of(long: usize, size: usize) -> usize
    ensures { result ≡ count_in long size }
{
    if size < 512 || long < size {
        return 0;
    }
    long / size - 1
}

// A record of the interval that begins at `base`.
pub(crate) fn placed(s: Spot, base: usize, entry: usize, next: Edge) -> Place
    requires { base + s.start < 2 ^ 64 }
    ensures { result ≡ placed_of s base entry next }
{
    Place {
        entry,
        start: base + s.start,
        length: s.len,
        left: s.left,
        at: s.at,
        right: next.right,
        end: next.end,
    }
}

// The first record from an entry on, of n intervals: those without records are passed.
pub(crate) fn ahead(area: &[u8], size: usize, n: usize, entry: usize, from: Edge) -> Place
    requires { (512 ≤ size) × ((n + 1) * size ≤ length area.now) }
    ensures { result ≡ ahead_of (n - entry) area.now size n entry from }
{
    let w = measures::width_for(n);
    let mut e = from;
    for i in entry..n {
        if e.right == 0 {
            return ended();
        }
        let Some(met) = index_walk::pass(&area[..size], w, e) else {
            return ended();
        };
        let number = met.number;
        if n <= number {
            return ended();
        }
        let right = if met.last { 0 } else { met.next.right };
        let beyond = Edge {
            right,
            end: met.next.end,
        };
        let a = (number + 1) * size;
        let z = a + size;
        if let Some(s) = interval_walk::first(&area[a..z]) {
            return placed(s, a, i, beyond);
        }
        e = beyond;
    }
    ended()
}

// An entry whose interval has records, by its ordinal and its interval's number.
#[derive(Clone, Copy)]
pub(crate) struct Filled {
    pub entry: usize,
    pub number: usize,
}

// The last entry of the first so many, of n intervals, whose interval has records: one pass over the index record.
pub(crate) fn last_filled(area: &[u8], size: usize, n: usize, entries: usize) -> Option<Filled>
    requires { (512 ≤ size) × ((n + 1) * size ≤ length area.now) }
    ensures is { result ≡ last_filled_of area.now size n entries }
    ensures inside { Among n result }
{
    let w = measures::width_for(n);
    let mut e = index_walk::start(&area[..size]);
    let mut found = None;
    for i in 0..entries {
        let Some(met) = index_walk::pass(&area[..size], w, e) else {
            return found;
        };
        let number = met.number;
        if n <= number {
            return found;
        }
        let z = (number + 2) * size;
        if fields::read::<2>(area, z - 4) != 0 {
            found = Some(Filled { entry: i, number });
        }
        e = met.next;
    }
    found
}

// The last record of the first so many entries, of n intervals.
pub(crate) fn behind(area: &[u8], size: usize, n: usize, entries: usize) -> Place
    requires { (512 ≤ size) × ((n + 1) * size ≤ length area.now) }
    ensures { result ≡ behind_of area.now size n entries }
{
    let Some(Filled { entry, number }) = last_filled(area, size, n, entries) else {
        return ended();
    };
    let a = (number + 1) * size;
    let z = a + size;
    let Some(s) = interval_walk::last(&area[a..z]) else {
        return ended();
    };
    let none = Edge { right: 0, end: 0 };
    placed(s, a, entry, none)
}

// The record of the same run that begins at a byte of the area.
pub(crate) fn moved(p: Place, start: usize) -> Place
    requires { 0 < p.left }
    ensures { result ≡ along_to start p }
{
    Place {
        entry: p.entry,
        start,
        length: p.length,
        left: p.left - 1,
        at: p.at,
        right: p.right,
        end: p.end,
    }
}

// The next record of the same run.
pub(crate) fn along(long: usize, forward: bool, p: Place) -> Place
    requires { 0 < p.left }
    ensures { result ≡ along_of long forward p }
{
    if forward {
        if long < p.start || long - p.start < p.length {
            return ended();
        }
        return moved(p, p.start + p.length);
    }
    if p.start < p.length {
        return ended();
    }
    moved(p, p.start - p.length)
}

// The next record past a run: of the same interval, or of another one.
pub(crate) fn leave(area: &[u8], size: usize, forward: bool, p: Place) -> Place
    ensures { result ≡ leave_of area.now size forward p }
{
    let n = count_of(area.len(), size);
    if n <= p.entry {
        return ended();
    }
    let number = p.start / size;
    if number == 0 || n < number {
        return ended();
    }
    let a = number * size;
    let z = a + size;
    let here = Spot {
        start: p.start - a,
        len: p.length,
        left: p.left,
        at: p.at,
    };
    let next = Edge {
        right: p.right,
        end: p.end,
    };
    if forward {
        if let Some(s) = interval_walk::after(&area[a..z], here) {
            return placed(s, a, p.entry, next);
        }
        return ahead(area, size, n, p.entry + 1, next);
    }
    if let Some(s) = interval_walk::before(&area[a..z], here) {
        return placed(s, a, p.entry, next);
    }
    behind(area, size, n, p.entry)
}

// The next place; that of the end is itself. Of the measures only the size is asked for.
pub fn walk_next(area: &[u8], size: usize, forward: bool, p: Place) -> Place
    ensures { result ≡ next_of area.now size forward p }
{
    if p.length == 0 {
        return p;
    }
    if 0 < p.left {
        return along(area.len(), forward, p);
    }
    leave(area, size, forward, p)
}

// The record at a place, as its part of the area; the empty part at the end, and at a place that does not lie in the area.
pub fn walk_record<'a>(area: &'a [u8], p: Place) -> &'a [u8]
    ensures { Shown area.entry p result }
{
    if area.len() < p.start || area.len() - p.start < p.length {
        return &area[0..0];
    }
    let a = p.start;
    let e = a + p.length;
    &area[a..e]
}

// Past so many entries of an index record of n intervals.
pub(crate) fn edge_past(ib: &[u8], n: usize, entries: usize) -> Edge
    ensures { result ≡ edge_past_of (width_for n) ib.now entries }
{
    let w = measures::width_for(n);
    let mut e = index_walk::start(ib);
    for _i in 0..entries {
        let Some(met) = index_walk::pass(ib, w, e) else {
            return e;
        };
        let right = if met.last { 0 } else { met.next.right };
        e = Edge {
            right,
            end: met.next.end,
        };
    }
    e
}

// In a sound area, the lowest record from the place of a key on.
pub(crate) fn from_above(area: &[u8], m: Measures, n: usize, sought: KeyPlace) -> Place
    requires { Fits m n (length area.now) × Whole m n area.now × Sits m n area.now sought }
    ensures { StoodIn m n area.now true (λ c. before c.filled sought.entry + from_found sought.found) result }
{
    let size = m.size;
    let number = sought.number;
    let entry = sought.entry;
    let found = sought.found;
    let a = (number + 1) * size;
    let z = a + size;
    let next = edge_past(&area[..size], n, entry + 1);
    let s = match found {
        Found::At {
            ordinal,
            start: _,
            length: _,
        } => Some(interval_walk::spot_at(&area[a..z], m, ordinal, true)),
        Found::Gap { ordinal, start: _ } => first_from(&area[a..z], m, ordinal),
    };
    if let Some(s) = s {
        return placed(s, a, entry, next);
    }
    ahead(area, size, n, entry + 1, next)
}

// The record of a sound interval whose ordinal is so much, none past the last.
pub(crate) fn first_from(ci: &[u8], m: Measures, ordinal: usize) -> Option<Spot>
    requires { Readable m ci.now × (ordinal ≤ length (records_in ci.now)) }
    ensures { FirstFrom m ci.now ordinal result }
{
    if ordinal == 0 {
        return interval_walk::first(ci);
    }
    interval_walk::after(ci, interval_walk::spot_at(ci, m, ordinal - 1, true))
}

// In a sound area, the highest record up to the place of a key.
pub(crate) fn from_below(area: &[u8], m: Measures, n: usize, sought: KeyPlace) -> Place
    requires { Fits m n (length area.now) × Whole m n area.now × Sits m n area.now sought }
    ensures { StoodIn m n area.now false (λ c. before c.filled sought.entry + upto_found sought.found) result }
{
    let size = m.size;
    let number = sought.number;
    let entry = sought.entry;
    let found = sought.found;
    let a = (number + 1) * size;
    let z = a + size;
    let none = Edge { right: 0, end: 0 };
    match found {
        Found::At {
            ordinal,
            start: _,
            length: _,
        } => placed(
            interval_walk::spot_at(&area[a..z], m, ordinal, false),
            a,
            entry,
            none,
        ),
        Found::Gap { ordinal, start: _ } => {
            if ordinal == 0 {
                return behind(area, size, n, entry);
            }
            placed(
                interval_walk::spot_at(&area[a..z], m, ordinal - 1, false),
                a,
                entry,
                none,
            )
        }
    }
}

// In a sound area, the first record at or beyond the first bytes of a key: these are filled up to a key with the lowest bytes, or downwards with the highest.
pub(crate) fn begin_at(area: &[u8], m: Measures, n: usize, forward: bool, given: &[u8]) -> Place
    requires { Fits m n (length area.now) × Whole m n area.now × (length given.now ≤ m.key) }
    ensures { StoodIn m n area.now forward (λ c. begins_from m forward given.now (records_of c.filled)) result }
{
    let k = m.key;
    let mut key = [0u8; 255];
    if !forward {
        fields::fill(&mut key, 0, 255, 255);
    }
    fields::copy(&mut key, 0, given);
    let sought = area_find::find(area, m, n, &key[..k]);
    if forward {
        from_above(area, m, n, sought)
    } else {
        from_below(area, m, n, sought)
    }
}

// A walk from the bytes of a key, or from its first ones: refusals 1, 2, 3 for none or more than K bytes, 5 if nothing lies at or beyond them.
pub fn walk_from(area: &[u8], numbers: Numbers, forward: bool, given: &[u8]) -> Begun
    ensures begins { Begins area.now numbers.size forward
        (walk_from_of (asked numbers) area.now forward given.now) result }
    ensures there { BeginsAt (asked numbers) area.now forward given.now result }
    ensures is { result ≡ begun_from (asked numbers) area.now forward given.now }
{
    let whole = opening::open(area, numbers)?;
    let m = whole.measures;
    if given.len() == 0 || m.key < given.len() {
        return Err(Refusal::WrongLength);
    }
    let p = begin_at(area, m, whole.count, forward, given);
    if p.length == 0 {
        return Err(Refusal::Absent);
    }
    Ok(p)
}

// In a sound area, the first record from an end.
pub(crate) fn end_in(area: &[u8], m: Measures, n: usize, free: usize, forward: bool) -> Place
    requires { (512 ≤ m.size) × ((n + 1) * m.size ≤ length area.now) × (free ≤ n) }
    ensures { result ≡ end_in area.now m.size n free forward }
{
    let size = m.size;
    if forward {
        let e = index_walk::start(&area[..size]);
        return ahead(area, size, n, 0, e);
    }
    behind(area, size, n, n - free)
}

// A walk from an end: refusals 1 and 2; an empty register opens at the end.
pub fn walk_end(area: &[u8], numbers: Numbers, forward: bool) -> Begun
    ensures begins { Begins area.now numbers.size forward
        (walk_end_of (asked numbers) area.now forward) result }
    ensures is { result ≡ ended_by area.now forward (opened_of (asked numbers) area.now) }
{
    let whole = opening::open(area, numbers)?;
    Ok(end_in(area, whole.measures, whole.count, whole.free, forward))
}
