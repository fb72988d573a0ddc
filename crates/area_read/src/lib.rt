// Whether a whole control area is sound: the index record, then every data interval in its role, in one pass in key order.
#![tactic(auto)]

ghost use Rattle.std.specs.Prelude.{◌+◌, ◌*◌, ◌≤◌, ◌<◌, min, ◌≡◌, true, false, [], length};
ghost use Rattle.fields.specs.Choice.{pick};
ghost use Rattle.measures.specs.Judgement.{Fits, width_for};
ghost use Rattle.interval.specs.Bounds.{bound};
ghost use Rattle.interval.specs.Reading.{Checkable};
ghost use Rattle.interval_read.specs.AidOpened.{Inside};
ghost use Rattle.index.specs.Meaning.{below};
ghost use Rattle.index.specs.Reading.{numbers_at};
ghost use Rattle.sections.specs.Reading.{read_index};
ghost use Rattle.area.specs.Soundness.{unsound_free, unsound_used, lowest};
ghost use Rattle.area.specs.Reading.{read_area};
ghost use Rattle.area.specs.Checked.{checked_of};
ghost use Rattle.area_read.specs.AidEntries.{Closed, Counted, EntriesSound};

use area::{Damage, Intact};
use index_step::BUFFER;
use interval_read::Opened;
use measures::Measures;

// The lowest unsound number so far, and how many records were counted.
#[derive(Clone, Copy)]
pub(crate) struct Tally {
    pub(crate) worst: usize,
    pub(crate) records: usize,
}

// The lowest number met, when one more was seen.
pub(crate) fn noted(worst: usize, number: usize, ok: bool) -> usize
    ensures { result ≡ pick ok worst (min number worst) }
{
    if ok { worst } else { worst.min(number) }
}

// The lowest of the free intervals that are not empty and sound, or n.
pub(crate) fn free_worst(area: &[u8], ib: &[u8], m: Measures, n: usize, free: usize) -> usize
    requires { Fits m n (length area.now) × (24 + width_for n * free ≤ length ib.now) × (below n (numbers_at (width_for n) ib.now 24 free) ≡ true) }
    ensures { result ≡ lowest n (unsound_free m area.now (numbers_at (width_for n) ib.now 24 free)) }
{
    let w = measures::width_for(n);
    let mut worst = n;
    for i in 0..free {
        let k = fields::read_pointer(ib, 24 + w * i, w);
        let a = (k + 1) * m.size;
        let e = a + m.size;
        worst = noted(worst, k, interval_read::free_sound(&area[a..e], m));
    }
    worst
}

// The second half of an entry's judgement: its own bound. How many records it has; none where it is unsound in its role.
pub(crate) fn closed(ci: &[u8], m: Measures, opened: Option<Opened>, high: &[u8]) -> Option<usize>
    requires { Checkable m ci.now × Inside m ci.now opened × (length high.now ≤ m.key) }
    ensures { Closed m ci.now (bound m.key high.now) opened result }
{
    let Opened { count, last } = opened?;
    interval_read::closes(ci, m, count, last, high).then_some(count)
}

// The lowest of the intervals in use that are unsound in their role, or `worst` where that is lower; and the records counted.
// An entry's interval is judged above the bound before, with whose separator buf begins; then, when buf begins with its own separator,
// by its own bound.
pub(crate) fn used_worst(
    area: &[u8],
    ib: &[u8],
    m: Measures,
    n: usize,
    worst: usize,
    entries: usize,
) -> Tally
    requires { EntriesSound m n area.now ib.now entries }
    ensures lowest { result.worst ≡ lowest worst (unsound_used m area.now [] (read_index (width_for n) n ib.now).entries) }
    ensures counted { Counted m area.now [] (read_index (width_for n) n ib.now).entries result.records }
{
    let w = measures::width_for(n);
    let mut buf = [0u8; BUFFER];
    let mut high = [0u8; BUFFER];
    let mut p = index_step::start(ib);
    let mut lowest = worst;
    let mut records: usize = 0;
    for i in 0..entries {
        let s = index_step::entry_at(ib, w, p);
        let a = (s.number + 1) * m.size;
        let e = a + m.size;
        let before = p.len;
        let opened = interval_read::opens(&area[a..e], m, i == 0, &buf[..before]);
        index_step::renew(&mut buf, &mut high, ib, s);
        p = index_step::past(ib, s, p);
        let len = p.len;
        let seen = closed(&area[a..e], m, opened, &buf[..len]);
        lowest = noted(lowest, s.number, seen.is_some());
        records += seen.unwrap_or(0);
    }
    Tally {
        worst: lowest,
        records,
    }
}

// The whole area: the index record first; data intervals are not looked at where it is unsound.
pub fn check(area: &[u8], m: Measures, n: usize) -> Result<Intact, Damage>
    requires { Fits m n (length area.now) }
    ensures { result ≡ checked_of (read_area m n area.now) }
{
    let size = m.size;
    let Some(index) = index_read::check(&area[..size], m.key, n) else {
        return Err(Damage { place: 0 });
    };
    let worst = free_worst(area, &area[..size], m, n, index.free);
    let tally = used_worst(area, &area[..size], m, n, worst, index.entries);
    if tally.worst < n {
        return Err(Damage {
            place: tally.worst + 1,
        });
    }
    Ok(Intact {
        records: tally.records,
        free: index.free,
    })
}
