// Over how many intervals records are spread, and where they are cut: document 01, 'Dividing an interval'.
#![tactic(auto)]

ghost use Rattle.std.specs.Prelude.{◌+◌, ◌*◌, ◌≤◌, ◌<◌, ◌≡◌, length};
ghost use Rattle.room.specs.AidSteps.{room_of};
ghost use Rattle.division.specs.Division.{best_cut, division_of};
ghost use Rattle.division.specs.AidChoose.{cut_of, weighed};

use room::Room;

// Rule 1: the records stay. Rule 2: two parts, the first with `cut` records. Rule 3: those before the changed record, it alone,
// those after.
#[derive(Clone, Copy)]
pub enum Division {
    Stays,
    Two { cut: usize },
    Three,
}

// The best cut so far, and what the record bytes of its parts differ in.
#[derive(Clone, Copy)]
pub(crate) struct Chosen {
    pub(crate) cut: usize,
    pub(crate) difference: usize,
}

// Rule 2, for one cut more: the better of the best so far and this one. The records left of it take `left`; those right of it have
// `bytes` bytes and need `need`.
pub(crate) fn weigh(
    best: Option<Chosen>,
    cut: usize,
    left: Room,
    bytes: usize,
    need: usize,
    s: usize,
) -> Option<Chosen>
    requires { (left.bytes < 4294967296) × (left.rdfs < 4294967296) }
    ensures { result ≡ weighed best cut left.bytes (left.bytes + 3 * left.rdfs + 4) bytes need s }
{
    // Only cuts whose parts both fit are weighed.
    if s < room::need_of(left) {
        return best;
    }
    if s < need {
        return best;
    }
    let difference = left.bytes.abs_diff(bytes);
    match best {
        // On a tie the earlier cut stays: it has the smaller left part.
        Some(earlier) if earlier.difference <= difference => best,
        _ => Some(Chosen { cut, difference }),
    }
}

// Rule 2: the fitting cut whose parts differ least, or none where no cut into two parts fits. Each record goes over from the right part
// to the left one, so that no cut is summed up anew.
pub(crate) fn best_cut(lens: &[u16], s: usize, whole: Room) -> Option<usize>
    requires { (whole ≡ room_of lens.now) × (whole.bytes < 4294967296) × (whole.rdfs < 4294967296) × (length lens.now ≤ 32768) }
    ensures { result ≡ cut_of (best_cut s lens.now) }
{
    let mut left = Room {
        bytes: 0,
        rdfs: 0,
        last: 0,
        run: 0,
    };
    let mut bytes = whole.bytes;
    let mut need = room::need_of(whole);
    let mut best: Option<Chosen> = None;
    for i in 0..lens.len().saturating_sub(1) {
        let a = room::ahead_at(lens, i);
        let l = lens[i];
        left = room::add(left, l);
        bytes = bytes - l as usize;
        need = need - (l as usize + a);
        best = weigh(best, i + 1, left, bytes, need, s);
    }
    Some(best?.cut)
}

// The division of records of these lengths, the change made, over intervals of s bytes.
pub fn divide(lens: &[u16], s: usize) -> Division
    requires { length lens.now ≤ 32768 }
    ensures { result ≡ division_of s lens.now }
{
    let whole = room::room_of(lens);
    // Rule 1.
    if room::need_of(whole) <= s {
        return Division::Stays;
    }
    // Rule 3, only where no cut fits.
    let Some(cut) = best_cut(lens, s, whole) else {
        return Division::Three;
    };
    // Rule 2.
    Division::Two { cut }
}
