// Whether a data interval is sound: one walk over its RDFs and records.
#![tactic(auto)]

ghost use Rattle.std.specs.Prelude.{◌+◌, ◌-◌, ◌*◌, ◌≤◌, ◌<◌, ◌≡◌, true, false, [], length, eqb};
ghost use Rattle.fields.specs.Choice.{pick};
ghost use Rattle.fields.specs.Bytes.{part};
ghost use Rattle.fields.specs.Order.{less};
ghost use Rattle.interval.specs.Records.{ascend_from, keys_of, up_to};
ghost use Rattle.interval.specs.Reading.{rdfs, records_in, Checkable};
ghost use Rattle.interval.specs.Role.{sound_free};
ghost use Rattle.interval.specs.Bounds.{bound};
ghost use Rattle.interval_read.specs.Verdict.{verdict_of};
ghost use Rattle.interval_read.specs.AidWalk.{tail_of, Small, keys_in, walked, RunLies, KeysLie, lead_of, LeadsKnown};
ghost use Rattle.interval_read.specs.AidOpened.{opened_of, Inside, Closable};

use measures::Measures;
use rdf::Front;
use std::cmp::Ordering;

// What is told of a sound interval: how many records, their bytes, how many RDFs, and where the last record begins (0 where there is none).
#[derive(Clone, Copy)]
pub struct Verdict {
    pub count: usize,
    pub bytes: usize,
    pub rdfs: usize,
    pub last: usize,
}

// What the CIDF says: the records' bytes, where the RDFs begin, how many they are.
#[derive(Clone, Copy)]
pub(crate) struct Tail {
    bytes: usize,
    at: usize,
    many: usize,
}

// Not busy, and d + u + 3 × RDFs + 4 = S.
pub(crate) fn read_tail(ci: &[u8]) -> Option<Tail>
    requires { (4 ≤ length ci.now) × (length ci.now ≤ 32768) }
    ensures is { result ≡ tail_of ci.now }
    ensures small { Small (length ci.now) result }
{
    let size = ci.len();
    let bytes = fields::read::<2>(ci, size - 4);
    let field = fields::read::<2>(ci, size - 2);
    if rdf::is_busy(field) {
        return None;
    }
    let at = bytes + rdf::below_flag(field);
    if size < at + 4 {
        return None;
    }
    let many = (size - 4 - at) / 3;
    if at + 3 * many + 4 != size {
        return None;
    }
    Some(Tail { bytes, at, many })
}

// Whether the key at one place is below the key at another.
pub(crate) fn key_below(ci: &[u8], key: usize, before: usize, here: usize) -> bool
    requires { (before + key ≤ length ci.now) × (here + key ≤ length ci.now) × (length ci.now ≤ 32768) }
    ensures { result ≡ less (part ci.now before key) (part ci.now here key) }
{
    let e = before + key;
    let f = here + key;
    let Ordering::Less = fields::compare(&ci[before..e], &ci[here..f]) else {
        return false;
    };
    true
}

// The number in the first eight bytes of the key at a place. Of a shorter key it is 0, which decides nothing.
pub(crate) fn lead(ci: &[u8], key: usize, at: usize) -> usize
    requires { at + key ≤ length ci.now }
    ensures { result ≡ lead_of key ci.now at }
{
    if key < 8 {
        return 0;
    }
    fields::read_eight(ci, at)
}

// The same as key_below where the keys' leads are known: if the first is lower they decide.
pub(crate) fn word_below(
    ci: &[u8],
    key: usize,
    before: usize,
    here: usize,
    word: usize,
    next: usize,
) -> bool
    requires { LeadsKnown ci.now key before here word next }
    ensures { result ≡ less (part ci.now before key) (part ci.now here key) }
{
    if word < next {
        return true;
    }
    key_below(ci, key, before, here)
}

// Keys of records of one length that lie one after another: where the first key begins, how long each record is, and how many they are.
#[derive(Clone, Copy)]
pub(crate) struct RunKeys {
    at: usize,
    len: usize,
    count: usize,
}

// Whether some keys ascend after the key at place `prev`. The first eight bytes of each are read once, as a number that goes along.
pub(crate) fn rises(ci: &[u8], key: usize, prev: usize, keys: RunKeys) -> bool
    requires { KeysLie ci.now key prev keys }
    ensures { result ≡ ascend_from (part ci.now prev key) (keys_in key ci.now keys) }
{
    let mut before = prev;
    let mut here = keys.at;
    let mut word = lead(ci, key, prev);
    for _ in 0..keys.count {
        let next = lead(ci, key, here);
        if !word_below(ci, key, before, here, word, next) {
            return false;
        }
        word = next;
        before = here;
        here += keys.len;
    }
    true
}

// The same for a run of an interval of which `seen` records were passed, the last of them with its key at `prev`.
pub(crate) fn run_rises(ci: &[u8], key: usize, seen: usize, prev: usize, keys: RunKeys) -> bool
    requires { RunLies ci.now key prev keys }
    ensures { result ≡ ascend_from (pick (eqb seen 0) [] (part ci.now prev key)) (keys_in key ci.now keys) }
{
    if seen == 0 {
        let others = RunKeys {
            at: keys.at + keys.len,
            len: keys.len,
            count: keys.count - 1,
        };
        return rises(ci, key, keys.at, others);
    }
    rises(ci, key, prev, keys)
}

// The walk over the RDFs that the CIDF tells of, and over the records that they describe, which must have as many bytes as it says. The RDFs
// end where the CIDF begins, so the first of them is read without waiting for what the CIDF says.
pub(crate) fn walk(ci: &[u8], m: Measures, tail: Tail) -> Option<Verdict>
    requires { (tail.at + 3 * tail.many + 4 ≡ length ci.now) × (tail.bytes ≤ length ci.now) × Checkable m ci.now }
    ensures { result ≡ walked m ci.now tail.bytes tail.many (rdfs ci.now tail.at tail.many) }
{
    let Measures {
        offset,
        key,
        least,
        most,
        ..
    } = m;
    let bytes = tail.bytes;
    let mut left = tail.many;
    let mut q = ci.len() - 4;
    let mut at = 0;
    let mut seen = 0;
    let mut last = 0;
    while 0 < left {
        let Front { len, count, used } = rdf::group_before(ci, q, left, least, most)?;
        let end = at + len * count;
        if bytes < end {
            return None;
        }
        let keys = RunKeys {
            at: at + offset,
            len,
            count,
        };
        if !run_rises(ci, key, seen, last + offset, keys) {
            return None;
        }
        last = end - len;
        at = end;
        seen += count;
        left -= used;
        q -= 3 * used;
    }
    if at != bytes {
        return None;
    }
    Some(Verdict {
        count: seen,
        bytes,
        rdfs: tail.many,
        last,
    })
}

// The verdict on an interval, whatever its bytes are: none if it is unsound.
pub fn check(ci: &[u8], m: Measures) -> Option<Verdict>
    requires { Checkable m ci.now }
    ensures { result ≡ verdict_of m ci.now }
{
    walk(ci, m, read_tail(ci)?)
}

// Whether a free interval is as it must be: sound, and with no record.
pub fn free_sound(ci: &[u8], m: Measures) -> bool
    requires { Checkable m ci.now }
    ensures { result ≡ sound_free m ci.now }
{
    match check(ci, m) {
        Some(verdict) => verdict.count == 0,
        None => false,
    }
}

// What is known of an interval that is sound and has no key at or below the bound before: how many records, where the last begins.
#[derive(Clone, Copy)]
pub struct Opened {
    pub count: usize,
    pub last: usize,
}

// The interval judged by itself and against the bound before, whose separator is lent; the first entry has none. Keys ascend, so the first
// key decides, and of that as many bytes as the separator has: nothing has to be filled up.
pub fn opens(ci: &[u8], m: Measures, first: bool, low: &[u8]) -> Option<Opened>
    requires { Checkable m ci.now × (length low.now ≤ m.key) }
    ensures is { result ≡ opened_of m (pick first [] (bound m.key low.now)) ci.now }
    ensures inside { Inside m ci.now result }
{
    let Verdict { count, last, .. } = check(ci, m)?;
    let opened = Opened { count, last };
    if first {
        return Some(opened);
    }
    if count == 0 {
        return Some(opened);
    }
    let from = m.offset;
    let to = from + low.len();
    let Ordering::Less = fields::compare_bytes(low, &ci[from..to]) else {
        return None;
    };
    Some(opened)
}

// Whether no key of a sound interval is above its own bound, whose separator is lent: the last key decides.
pub fn closes(ci: &[u8], m: Measures, count: usize, last: usize, high: &[u8]) -> bool
    requires { Closable m ci.now count last × (length high.now ≤ m.key) }
    ensures { result ≡ up_to (bound m.key high.now) (keys_of m (records_in ci.now)) }
{
    if count == 0 {
        return true;
    }
    let from = last + m.offset;
    let to = from + high.len();
    match fields::compare_bytes(high, &ci[from..to]) {
        Ordering::Less => false,
        Ordering::Equal => true,
        Ordering::Greater => true,
    }
}
