// What an edit of one interval of a sound area comes to: 6, 7, or a plan. It only reads, and copies nothing out of the area but a few keys.
#![tactic(auto)]

ghost use Rattle.std.specs.Prelude.{◌+◌, ◌*◌, ◌≤◌, ◌<◌, ◌≡◌, length, drop};
ghost use Rattle.fields.specs.Bytes.{part};
ghost use Rattle.fields.specs.Lists.{swap};
ghost use Rattle.measures.specs.Judgement.{Fits};
ghost use Rattle.interval_edit.specs.AidChanged.{fresh_in};
ghost use Rattle.area_find.specs.AidSought.{Whole};
ghost use Rattle.change_plan.specs.AidEdited.{Entered, edit_at, edited_records, Told, Seen, Piece};
ghost use Rattle.change_plan.specs.AidParts.{CutInside, left_key_at, separator_at, left_keys, cuts_at};
ghost use Rattle.change_plan.specs.AidPlanned.{FreeCounted, EnoughFree, TakenAt, PlannedAs, PlannedDivided};

use change::Full;
use division::Division;
use index_write::{Cut, Cuts};
use interval_edit::Site;
use measures::Measures;

// Into how many parts the records fall, and the cuts: before record `first`, and before record `second` where there are three.
#[derive(Clone, Copy)]
pub struct Parts {
    pub many: usize,
    pub first: usize,
    pub second: usize,
}

// How an edit is made: where; in which parts; the free intervals that the later parts take; the size of the renewed index record.
#[derive(Clone, Copy)]
pub struct Spread {
    pub site: Site,
    pub parts: Parts,
    pub a: usize,
    pub b: usize,
    pub index: usize,
}

// Bytes of the edited records from place x on, as many as the buffer has: they lie before what goes, or in what comes, or behind.
pub(crate) fn bytes_out(area: &[u8], base: usize, site: Site, new: &[u8], x: usize, out: &mut [u8])
    requires small { (base ≤ length area.now) × (length area.now + length new.now < 8589934592) }
    requires piece { Piece site.start site.span (length new.now) x (length out.old) (length (drop base area.now)) }
    ensures { out.new ≡ part (swap site.start site.span new.now (drop base area.now)) x (length out.old) }
{
    let z = x + out.len();
    if z <= site.start {
        let s = base + x;
        let e = s + out.len();
        fields::copy(out, 0, &area[s..e]);
        return;
    }
    let end = site.start + new.len();
    if end <= x {
        let s = base + site.start + site.span + (x - end);
        let e = s + out.len();
        fields::copy(out, 0, &area[s..e]);
        return;
    }
    let s = x - site.start;
    let e = s + out.len();
    fields::copy(out, 0, &new[s..e]);
}

// The key on the left of the cut before record k, at whose front its separator lies; the answer is how many bytes that has.
pub(crate) fn cut_out(
    area: &[u8],
    m: Measures,
    site: Site,
    new: &[u8],
    lens: &[u16],
    k: usize,
    left: &mut [u8],
) -> usize
    requires { Seen m area.now site new.now lens.now × (0 < k) × (k < length lens.now) × (length left.old ≡ m.key) }
    ensures length { (result ≡ length (separator_at m (edited_records m area.now site new.now) k)) × (result ≤ m.key) }
    ensures key { left.new ≡ left_key_at m (edited_records m area.now site new.now) k }
{
    let base = (site.number + 1) * m.size;
    let key = m.key;
    let x = room::bytes_to(lens, k - 1) + m.offset;
    bytes_out(area, base, site, new, x, left);
    let y = room::bytes_to(lens, k) + m.offset;
    let mut right = [0u8; 255];
    bytes_out(area, base, site, new, y, &mut right[..key]);
    index_write::cut_length(left, &right[..key])
}

// The separators of the cuts, in a buffer for two keys.
pub fn cuts_out(
    area: &[u8],
    m: Measures,
    site: Site,
    new: &[u8],
    lens: &[u16],
    parts: Parts,
    keys: &mut [u8],
) -> Cuts
    requires { Seen m area.now site new.now lens.now × CutInside parts (length lens.now) × (length keys.old ≡ 2 * m.key) }
    ensures cuts { result ≡ cuts_at m (edited_records m area.now site new.now) parts }
    ensures keys { keys.new ≡ left_keys m (edited_records m area.now site new.now) parts }
{
    let key = m.key;
    let to = cut_out(area, m, site, new, lens, parts.first, &mut keys[..key]);
    let n = cut_out(area, m, site, new, lens, parts.second, &mut keys[key..]);
    let first = Cut { from: 0, to };
    if parts.many != 3 {
        return Cuts {
            first,
            second: None,
        };
    }
    Cuts {
        first,
        second: Some(Cut {
            from: key,
            to: key + n,
        }),
    }
}

// How many intervals are free.
pub(crate) fn free_count(area: &[u8], m: Measures, n: usize) -> usize
    requires { Fits m n (length area.now) × Whole m n area.now }
    ensures { FreeCounted m n area.now result }
{
    let size = m.size;
    index_step::free_count(&area[..size], measures::width_for(n))
}

// The free interval that a division takes first, with k = 0, or next.
pub(crate) fn taken_at(area: &[u8], m: Measures, n: usize, k: usize) -> usize
    requires { Fits m n (length area.now) × Whole m n area.now × EnoughFree m n area.now (k + 1) }
    ensures { TakenAt m n area.now k result }
{
    let size = m.size;
    index_write::taken(&area[..size], measures::width_for(n), k)
}

// The plan of a division into these parts: 6 where too few intervals are free, 7 where the new index record has no room.
pub(crate) fn plan_divided(
    area: &[u8],
    m: Measures,
    n: usize,
    site: Site,
    new: &[u8],
    lens: &[u16],
    parts: Parts,
) -> Result<Spread, Full>
    requires { Entered m n area.now site.entry site.number × Seen m area.now site new.now lens.now × CutInside parts (length lens.now) }
    ensures { PlannedDivided m n area.now site (edited_records m area.now site new.now) parts result }
{
    let size = m.size;
    if free_count(area, m, n) < parts.many - 1 {
        return Err(Full::NoInterval);
    }
    let two = 2 * m.key;
    let mut keys = [0u8; 510];
    let cuts = cuts_out(area, m, site, new, lens, parts, &mut keys[..two]);
    let index = index_write::size_divided(&area[..size], n, site.entry, &keys[..two], cuts);
    if size - 7 < index {
        return Err(Full::NoRoom);
    }
    let a = taken_at(area, m, n, 0);
    let b = if parts.many == 3 {
        taken_at(area, m, n, 1)
    } else {
        0
    };
    Ok(Spread {
        site,
        parts,
        a,
        b,
        index,
    })
}

// What an edit comes to, once it is made in records of these lengths: it reads, and stores nothing.
pub fn plan(
    area: &[u8],
    m: Measures,
    n: usize,
    site: Site,
    new: &[u8],
    lens: &[u16],
) -> Result<Spread, Full>
    requires { Told m n area.now site new.now lens.now }
    ensures { PlannedAs m n area.now site (edit_at site (fresh_in new.now)) result }
{
    let division = division::divide(lens, m.size);
    if let Division::Stays = division {
        return Ok(Spread {
            site,
            parts: Parts {
                many: 1,
                first: lens.len(),
                second: lens.len(),
            },
            a: 0,
            b: 0,
            index: 0,
        });
    }
    let Division::Two { cut } = division else {
        let three = Parts {
            many: 3,
            first: site.ordinal,
            second: site.ordinal + 1,
        };
        return plan_divided(area, m, n, site, new, lens, three);
    };
    let two = Parts {
        many: 2,
        first: cut,
        second: cut,
    };
    plan_divided(area, m, n, site, new, lens, two)
}
