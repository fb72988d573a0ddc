// A walker over the register: it borrows the area and remembers its place in it: document 02, L1. Thin functions over the steps of crate walk. A walk begins there, with its
// refusals, before there is a walker.
#![tactic(auto)]

ghost use Rattle.std.specs.Prelude.{◌≡◌};
ghost use Rattle.walk.specs.AidSteps.{next_of, Shown};
ghost use Rattle.walker.specs.Walkers.{walker_at, walker_next};

use walk::Place;

// The area, the size of its intervals, the direction, and the place.
#[derive(Clone, Copy)]
pub struct Walker<'a> {
    pub area: &'a [u8],
    pub size: usize,
    pub forward: bool,
    pub place: Place,
}

// A walker at a place that a walk began with.
pub fn begun<'a>(area: &'a [u8], size: usize, forward: bool, place: Place) -> Walker<'a>
    ensures { result ≡ walker_at area.entry size forward place }
{
    Walker {
        area,
        size,
        forward,
        place,
    }
}

// Its record, as its part of the area; the empty part at the end.
pub fn seen<'a>(w: Walker<'a>) -> &'a [u8]
    ensures { Shown w.entry.area w.entry.place result }
{
    walk::walk_record(w.area, w.place)
}

// The walker at the next place.
pub fn next<'a>(w: Walker<'a>) -> Walker<'a>
    ensures { result ≡ walker_next w.entry }
{
    let p = walk::walk_next(w.area, w.size, w.forward, w.place);
    Walker {
        area: w.area,
        size: w.size,
        forward: w.forward,
        place: p,
    }
}

// What a walker at a place sees, for callers that hold none.
pub fn seen_at<'a>(area: &'a [u8], size: usize, forward: bool, place: Place) -> &'a [u8]
    ensures { Shown area.entry place result }
{
    seen(begun(area, size, forward, place))
}

// The place of the walker that comes after one at a place, for callers that hold none.
pub fn next_place<'a>(area: &'a [u8], size: usize, forward: bool, place: Place) -> Place
    ensures { result ≡ next_of area.now size forward place }
{
    let w = next(begun(area, size, forward, place));
    w.place
}
