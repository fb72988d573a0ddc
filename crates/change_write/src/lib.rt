// A plan of a change, carried out in the area: it cannot be refused any more. Nothing but lengths and a few keys is copied out of the area; records are
// moved within it.
#![tactic(auto)]

ghost use Rattle.std.specs.Prelude.{◌+◌, ◌≤◌, ◌<◌, ◌≡◌, [], Ok, length, take};
ghost use Rattle.room.specs.Room.{need};
ghost use Rattle.interval.specs.Reading.{records_in};
ghost use Rattle.interval_edit.specs.AidChanged.{fresh_in};
ghost use Rattle.area.specs.Content.{data_in};
ghost use Rattle.change.specs.Written.{among, carrying};
ghost use Rattle.change_plan.specs.AidEdited.{edit_at, Edits, edited_records, Told, Seen};
ghost use Rattle.change_plan.specs.AidPlanned.{PlannedAs};
ghost use Rattle.change_write.specs.AidStored.{Layable, laid_at, Rewritable, rewritten, Storable, stored_at};
ghost use Rattle.change_write.specs.AidStored.{own_stored, Countable, Takes, taken_left, Parted, parts_left};
ghost use Rattle.change_write.specs.AidCarried.{SpreadApart, written_for, Applied, MadeEdit};

use change::{Full, Written};
use change_plan::Spread;
use interval_edit::Site;
use measures::Measures;

// Some bytes of the edited records.
#[derive(Clone, Copy)]
pub(crate) struct Span {
    pub(crate) from: usize,
    pub(crate) to: usize,
}

// Some of the edited records, and the interval of the buffer that they go to.
#[derive(Clone, Copy)]
pub(crate) struct Stretch {
    pub(crate) place: usize,
    pub(crate) first: usize,
    pub(crate) last: usize,
}

// Lays bytes of the edited records from place `at` on, in the buffer that they are read in: the area, or their own
// interval. What lies behind the new record goes first, so that nothing is overwritten that is still to be read where
// the place is the interval's own.
pub(crate) fn lay(b: &mut [u8], at: usize, base: usize, site: Site, new: &[u8], span: Span)
    requires { Layable (length b.old) at base site (length new.now) span }
    ensures { b.new ≡ laid_at b.old at base site new.now span }
{
    let from = span.from;
    let to = span.to;
    let start = site.start;
    let end = start + new.len();
    let behind = base + start + site.span;
    if to <= start {
        fields::carry(b, at, base + from, to - from);
        return;
    }
    if end <= from {
        fields::carry(b, at, behind + (from - end), to - from);
        return;
    }
    fields::carry(b, at + (end - from), behind, to - end);
    fields::copy(b, at + (start - from), new);
    fields::carry(b, at, base + from, start - from);
}

// Writes an interval anew: the first of its records with the edit made, as many as there are lengths, in the writer's
// form.
pub(crate) fn rewrite(ci: &mut [u8], site: Site, new: &[u8], lens: &[u16])
    requires { Rewritable (length ci.old) site (length new.now) lens.now }
    ensures { ci.new ≡ rewritten ci.old site new.now lens.now }
{
    let len = room::bytes_to(lens, lens.len());
    let span = Span { from: 0, to: len };
    lay(ci, 0, 0, site, new, span);
    interval_write::close(ci, len, lens);
}

// Stores the first of the edited records in their own interval, which is handed as a part of the area.
pub(crate) fn store_own(
    area: &mut [u8],
    m: Measures,
    site: Site,
    new: &[u8],
    lens: &[u16],
    last: usize,
)
    requires seen { Seen m area.old site new.now lens.now }
    requires fits { (last ≤ length lens.now) × (need (take last lens.now) ≤ m.size) }
    ensures { area.new ≡ own_stored m area.old site new.now last }
{
    let at = (site.number + 1) * m.size;
    let e = at + m.size;
    rewrite(&mut area[at..e], site, new, &lens[..last]);
}

// Stores some of the edited records in an interval that is not theirs. They are laid over the whole area, since they
// are read in another interval of it.
pub(crate) fn store(area: &mut [u8], m: Measures, site: Site, new: &[u8], lens: &[u16], s: Stretch)
    requires { Seen m area.old site new.now lens.now × Storable m.size (length area.old) site.number lens.now s }
    ensures { area.new ≡ stored_at m area.old site new.now s }
{
    let size = m.size;
    let first = s.first;
    let last = s.last;
    let from = room::bytes_to(lens, first);
    let part = &lens[first..last];
    let len = room::bytes_to(part, last - first);
    let at = s.place * size;
    let e = at + size;
    let base = (site.number + 1) * size;
    let span = Span {
        from,
        to: from + len,
    };
    lay(area, at, base, site, new, span);
    interval_write::close(&mut area[at..e], len, part);
}

// More than the records that an interval has, by how many bytes they have.
pub(crate) fn records_below(area: &[u8], m: Measures, number: usize) -> usize
    requires { Countable m area.now number }
    ensures { length (records_in (data_in m area.now number)) + 1 ≤ result }
{
    let e = (number + 2) * m.size;
    fields::read::<2>(area, e - 4) / m.least + 1
}

// Stores the later parts in the intervals that they take.
pub(crate) fn store_taken(area: &mut [u8], m: Measures, new: &[u8], lens: &[u16], spread: Spread)
    requires { Takes m area.old new.now lens.now spread }
    ensures { area.new ≡ taken_left m.size area.old spread (edited_records m area.old spread.site new.now) }
{
    let parts = spread.parts;
    let last = if parts.many == 3 {
        parts.second
    } else {
        lens.len()
    };
    let middle = Stretch {
        place: spread.a + 1,
        first: parts.first,
        last,
    };
    store(area, m, spread.site, new, lens, middle);
    if parts.many == 3 {
        let end = Stretch {
            place: spread.b + 1,
            first: parts.second,
            last: lens.len(),
        };
        store(area, m, spread.site, new, lens, end);
    }
}

// Stores all parts: the intervals taken, the index record, then the old interval.
pub(crate) fn apply_divided(
    area: &mut [u8],
    m: Measures,
    n: usize,
    new: &[u8],
    lens: &[u16],
    spread: Spread,
)
    requires { Parted m n area.old new.now lens.now spread }
    ensures { area.new ≡ parts_left m n area.old spread (edited_records m area.old spread.site new.now) }
{
    let size = m.size;
    let site = spread.site;
    let parts = spread.parts;
    let two = 2 * m.key;
    let mut keys = [0u8; 510];
    let cuts = change_plan::cuts_out(area, m, site, new, lens, parts, &mut keys[..two]);
    store_taken(area, m, new, lens, spread);
    index_write::divide(&mut area[..size], n, site.entry, &keys[..two], cuts);
    store_own(area, m, site, new, lens, parts.first);
}

// Two intervals and the index record were written.
pub(crate) fn two_written(x: usize, y: usize) -> Written
    requires { (0 < x) × (0 < y) × (x ≡ y → ⊥) }
    ensures { result ≡ carrying (among x (among 0 (among y []))) }
{
    let low = x.min(y);
    let high = x.max(y);
    Written {
        count: 3,
        first: 0,
        second: low,
        third: high,
        fourth: 0,
    }
}

// Three intervals and the index record were written.
pub(crate) fn three_written(x: usize, y: usize, z: usize) -> Written
    requires { (0 < x) × (0 < y) × (0 < z) × (x ≡ y → ⊥) × (x ≡ z → ⊥) × (y ≡ z → ⊥) }
    ensures { result ≡ carrying (among x (among y (among 0 (among z [])))) }
{
    let low = y.min(z);
    let high = y.max(z);
    Written {
        count: 4,
        first: 0,
        second: x.min(low),
        third: x.max(low).min(high),
        fourth: x.max(high),
    }
}

// Which intervals the parts were stored in.
pub(crate) fn written_by(spread: Spread) -> Written
    requires { SpreadApart spread }
    ensures { result ≡ written_for spread }
{
    let old = spread.site.number + 1;
    if spread.parts.many == 1 {
        return Written {
            count: 1,
            first: old,
            second: 0,
            third: 0,
            fourth: 0,
        };
    }
    if spread.parts.many == 2 {
        return two_written(spread.a + 1, old);
    }
    three_written(spread.a + 1, spread.b + 1, old)
}

// Carries out what was planned, and tells which intervals were written.
pub fn apply(
    area: &mut [u8],
    m: Measures,
    n: usize,
    new: &[u8],
    lens: &[u16],
    spread: Spread,
) -> Written
    requires told { Told m n area.old spread.site new.now lens.now }
    requires planned { PlannedAs m n area.old spread.site (edit_at spread.site (fresh_in new.now)) (Ok spread) }
    ensures { Applied m n area.old (edit_at spread.site (fresh_in new.now)) result area.new }
{
    let parts = spread.parts;
    if parts.many == 1 {
        store_own(area, m, spread.site, new, lens, lens.len());
        return written_by(spread);
    }
    apply_divided(area, m, n, new, lens, spread);
    written_by(spread)
}

// An edit, with the lengths in a buffer that is long enough.
pub(crate) fn change_by(
    area: &mut [u8],
    m: Measures,
    n: usize,
    site: Site,
    new: &[u8],
    lens: &mut [u16],
) -> Result<Written, Full>
    requires { Edits m n area.old site (fresh_in new.now) × (length (records_in (data_in m area.old site.number)) + 1 ≤ length lens.old) }
    ensures { MadeEdit m n area.old (edit_at site (fresh_in new.now)) result area.new }
{
    let a = (site.number + 1) * m.size;
    let e = a + m.size;
    let count = interval_edit::lengths(&area[a..e], m, site, new.len(), lens);
    let spread = change_plan::plan(area, m, n, site, new, &lens[..count])?;
    Ok(apply(area, m, n, new, &lens[..count], spread))
}

// Out of line, so that a caller's frame has no room for the buffers that other intervals ask for.
#[inline(never)]
fn change_sized<const N: usize>(
    area: &mut [u8],
    m: Measures,
    n: usize,
    site: Site,
    new: &[u8],
) -> Result<Written, Full>
    requires edits { Edits m n area.old site (fresh_in new.now) }
    requires long { (length (records_in (data_in m area.old site.number)) + 1 ≤ N) × (N ≤ 32768) }
    ensures { MadeEdit m n area.old (edit_at site (fresh_in new.now)) result area.new }
{
    let mut lens = [0u16; N];
    change_by(area, m, n, site, new, &mut lens)
}

// The records that go at a site make way for the new one, or for none where no bytes are handed over. The buffer for the lengths is as long as
// the interval's bytes ask for.
pub fn change(
    area: &mut [u8],
    m: Measures,
    n: usize,
    site: Site,
    new: &[u8],
) -> Result<Written, Full>
    requires { Edits m n area.old site (fresh_in new.now) }
    ensures { MadeEdit m n area.old (edit_at site (fresh_in new.now)) result area.new }
{
    let many = records_below(area, m, site.number);
    if many <= 256 {
        return change_sized::<256>(area, m, n, site, new);
    }
    if many <= 4096 {
        return change_sized::<4096>(area, m, n, site, new);
    }
    change_sized::<32768>(area, m, n, site, new)
}
