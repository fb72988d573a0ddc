// Walks for programs in C. A place is seven numbers, which a walk stores where C keeps them and a step replaces.
ghost use Rattle.std.specs.Prelude.{◌≡◌, ◌%◌, ◌^◌, length};
ghost use Rattle.measures.specs.Judgement.{measures};
ghost use Rattle.exports.specs.Walks.{place, Denies, Tells, Starts, Opens, Steps, lengths_from, Adds};

use measures::Numbers;
use requests::Refusal;
use walk::{Begun, Place};

// What a walk begins with, as C reads it: 0 and the place; or a refusal's number and, in the place of an entry, the place of damage.
#[derive(Clone, Copy)]
pub(crate) struct Start {
    pub number: usize,
    pub place: Place,
}

pub(crate) fn refused(refusal: Refusal) -> Start
    ensures { Denies refusal result.number result.place }
{
    let v = crate::told(Err(refusal));
    let place = Place {
        entry: v.first,
        start: 0,
        length: 0,
        left: 0,
        at: 0,
        right: 0,
        end: 0,
    };
    Start {
        number: v.number,
        place,
    }
}

pub(crate) fn started(begun: Begun) -> Start
    ensures { Tells begun result.number result.place }
{
    match begun {
        Ok(place) => Start { number: 0, place },
        Err(refusal) => refused(refusal),
    }
}

// A walk from bytes: 0 and its place, or a refusal.
#[unsafe(no_mangle)]
pub extern "C" fn belquita_walk_from(
    area: &[u8],
    size: usize,
    offset: usize,
    key: usize,
    most: usize,
    forward: bool,
    given: &[u8],
    entry: &mut usize,
    start: &mut usize,
    long: &mut usize,
    left: &mut usize,
    at: &mut usize,
    right: &mut usize,
    end: &mut usize,
) -> usize
    ensures { Starts (measures size offset key most) area.now forward given.now result
        (place entry.new start.new long.new left.new at.new
        right.new end.new) }
{
    let numbers = Numbers {
        size,
        offset,
        key,
        most,
    };
    let s = started(walk::walk_from(area, numbers, forward, given));
    let p = s.place;
    *entry = p.entry;
    *start = p.start;
    *long = p.length;
    *left = p.left;
    *at = p.at;
    *right = p.right;
    *end = p.end;
    s.number
}

// A walk from an end.
#[unsafe(no_mangle)]
pub extern "C" fn belquita_walk_end(
    area: &[u8],
    size: usize,
    offset: usize,
    key: usize,
    most: usize,
    forward: bool,
    entry: &mut usize,
    start: &mut usize,
    long: &mut usize,
    left: &mut usize,
    at: &mut usize,
    right: &mut usize,
    end: &mut usize,
) -> usize
    ensures { Opens (measures size offset key most) area.now forward result
        (place entry.new start.new long.new left.new at.new
        right.new end.new) }
{
    let numbers = Numbers {
        size,
        offset,
        key,
        most,
    };
    let s = started(walk::walk_end(area, numbers, forward));
    let p = s.place;
    *entry = p.entry;
    *start = p.start;
    *long = p.length;
    *left = p.left;
    *at = p.at;
    *right = p.right;
    *end = p.end;
    s.number
}

// A step: the place becomes the next one, and the length of the record there is given.
#[unsafe(no_mangle)]
pub extern "C" fn belquita_walk_next(
    area: &[u8],
    size: usize,
    forward: bool,
    entry: &mut usize,
    start: &mut usize,
    long: &mut usize,
    left: &mut usize,
    at: &mut usize,
    right: &mut usize,
    end: &mut usize,
) -> usize
    ensures { Steps area.now size forward (place entry.old start.old long.old left.old at.old right.old end.old) (place entry.new start.new long.new left.new at.new right.new end.new) result }
{
    let from = Place {
        entry: *entry,
        start: *start,
        length: *long,
        left: *left,
        at: *at,
        right: *right,
        end: *end,
    };
    let p = walk::walk_next(area, size, forward, from);
    *entry = p.entry;
    *start = p.start;
    *long = p.length;
    *left = p.left;
    *at = p.at;
    *right = p.right;
    *end = p.end;
    walk::walk_record(area, p).len()
}

// The lengths of all records from a place on, added up. No area has more records than bytes: so many steps are made at most.
pub(crate) fn added(area: &[u8], size: usize, forward: bool, begun: Place) -> usize
    ensures { result ≡ lengths_from (length area.now) area.now size forward begun % 2 ^ 64 }
{
    let mut p = begun;
    let mut sum = 0;
    let mut n = 0;
    while n < area.len() {
        if p.length == 0 {
            return sum;
        }
        sum = std::num::wrapping_add_usize(sum, walk::walk_record(area, p).len());
        p = walk::walk_next(area, size, forward, p);
        n += 1;
    }
    sum
}

// A whole walk from an end: the lengths of its records, added up; 0 where it is refused.
#[unsafe(no_mangle)]
pub extern "C" fn belquita_walk(
    area: &[u8],
    size: usize,
    offset: usize,
    key: usize,
    most: usize,
    forward: bool,
) -> usize
    ensures { Adds (measures size offset key most) area.now forward result }
{
    let numbers = Numbers {
        size,
        offset,
        key,
        most,
    };
    let Ok(p) = walk::walk_end(area, numbers, forward) else {
        return 0;
    };
    added(area, size, forward, p)
}
