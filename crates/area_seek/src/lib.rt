// A record sought by its key in an area of which only what is read is judged: the index record, and the interval that the key leads to.
#![tactic(auto)]

ghost use Rattle.std.specs.Prelude.{◌+◌, ◌≤◌, ◌≡◌, [], length};
ghost use Rattle.fields.specs.Choice.{pick};
ghost use Rattle.measures.specs.Judgement.{Fits};
ghost use Rattle.interval.specs.Bounds.{bound};
ghost use Rattle.interval.specs.Reading.{Checkable};
ghost use Rattle.interval.specs.Role.{sound_used};
ghost use Rattle.area_seek.specs.AidLooked.{looked_of, Inside};

use area::{Damage, Lying};
use interval::Found;
use interval_read::Opened;
use measures::Measures;

// A separator's bytes at the most.
const LONGEST: usize = 255;

// Whether an interval in use is sound between two bounds, whose separators are lent; the first entry has no bound before.
pub(crate) fn sound_between(ci: &[u8], m: Measures, first: bool, low: &[u8], high: &[u8]) -> bool
    requires { Checkable m ci.now × (length low.now ≤ m.key) × (length high.now ≤ m.key) }
    ensures { result ≡ sound_used m (pick first [] (bound m.key low.now)) (bound m.key high.now) ci.now }
{
    match interval_read::opens(ci, m, first, low) {
        Some(Opened { count, last }) => interval_read::closes(ci, m, count, last, high),
        None => false,
    }
}

// Where the record with a key lies, if there is one: 2 at the index record, 2 at the interval that the key leads to, and then its place there. No other interval is looked at.
pub fn look_up(area: &[u8], m: Measures, n: usize, key: &[u8]) -> Result<Option<Lying>, Damage>
    requires { Fits m n (length area.now) × (length key.now ≡ m.key) }
    ensures is { result ≡ looked_of m n area.now key.now }
    ensures inside { Inside (length area.now) result }
{
    let size = m.size;
    let mut before = [0u8; LONGEST];
    let mut own = [0u8; LONGEST];
    let Some(spot) = index_read::seek(&area[..size], key, n, &mut before, &mut own) else {
        return Err(Damage { place: 0 });
    };
    let b = spot.before;
    let o = spot.own;
    let a = (spot.number + 1) * size;
    let e = a + size;
    if !sound_between(&area[a..e], m, spot.ordinal == 0, &before[..b], &own[..o]) {
        return Err(Damage {
            place: spot.number + 1,
        });
    }
    match interval_find::find(&area[a..e], m, key) {
        Found::At {
            ordinal: _,
            start,
            length,
        } => Ok(Some(Lying {
            from: a + start,
            length,
        })),
        Found::Gap {
            ordinal: _,
            start: _,
        } => Ok(None),
    }
}
