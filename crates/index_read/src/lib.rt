// The index record, read and judged in one walk.
#![tactic(auto)]

ghost use Rattle.std.specs.Prelude.{ℕ, ◌+◌, ◌-◌, ◌*◌, ◌≤◌, ◌<◌, ◌≡◌, true, false, List, ◌⊎◌, length, get_or, take, eqb, None, is_some, IfSome};
ghost use Rattle.fields.specs.Choice.{pick, both, no};
ghost use Rattle.fields.specs.Bytes.{part, number};
ghost use Rattle.measures.specs.Judgement.{limit};
ghost use Rattle.index.specs.Bounds.{bound, separator};
ghost use Rattle.index.specs.Rules.{base_fine};
ghost use Rattle.index.specs.Reading.{numbers_at, length_at, frame};
ghost use Rattle.index_read.specs.Check.{index_of, Seeks, LeadWithin};
ghost use Rattle.index_read.specs.AidParsing.{closes_at, parsed_of};
ghost use Rattle.index_read.specs.AidWalk.{Ascends, places_of, Before, entry_of, Taken, marking, seen_after, fine_from, walked_fine};
ghost use Rattle.index_read.specs.AidSeek.{reach_of, look_of, aim_of, FoundBy};
ghost use Rattle.index_read.specs.AidStand.{Walkable, Stand, Stood, Stopped};
ghost use Rattle.index_read.specs.AidJudged.{JudgedAs};
ghost use Rattle.index_step.specs.AidStep.{joined_of, copied_from};

use index_step::{BUFFER, PassPlace, Step};
use measures::LIMIT;
use std::cmp::Ordering;

// The entry that a key leads to: its place among the entries, from 0, its number, and how many bytes the separator before it and its own have.
#[derive(Clone, Copy, Default)]
pub struct Lead {
    pub ordinal: usize,
    pub number: usize,
    pub before: usize,
    pub own: usize,
}

// What the displacements say: how many free numbers there are, and where the entries begin, the last of them with its section's field.
#[derive(Clone, Copy)]
pub(crate) struct Places {
    pub free: usize,
    pub edge: usize,
}

// What the entries are judged by: the bytes of a pointer, where the last of them must begin with its section's field, how many intervals there
// are, how many of them have an entry, the key's length.
#[derive(Clone, Copy)]
pub(crate) struct Limits {
    pub width: usize,
    pub edge: usize,
    pub n: usize,
    pub count: usize,
    pub key: usize,
}

// Where a walk over a section's entries sets out: the place, the entries left, and the reach of the key that is sought. That is 0 where none is sought, or no
// more. Else the separator before has one byte less than `reach` in common with the key, and its next one is lower, if it has so many at all: so every
// separator whose F is at least `reach` is below the key, without a look at its characters.
#[derive(Clone, Copy)]
pub(crate) struct Leg {
    pub p: PassPlace,
    pub left: usize,
    pub reach: usize,
}

// Where a section's highest or the entry sought was met, and how many entries are left from it on.
#[derive(Clone, Copy)]
pub(crate) struct Stop {
    pub p: PassPlace,
    pub left: usize,
}

// Which interval numbers were met, how many are free and how many have an entry; and the verdict: where the key leads that was sought, if all that was
// met kept the rules. It goes by value through the walk.
#[derive(Drop)]
pub(crate) struct Marks {
    pub seen: [u8; LIMIT],
    pub used: usize,
    pub free: usize,
    pub spot: Option<Lead>,
}

// A sound record: its free intervals and entries, and where the key leads that was sought.
#[derive(Clone, Copy)]
pub(crate) struct Verdict {
    pub free: usize,
    pub entries: usize,
    pub spot: Lead,
}

// A sound index record: how many free intervals and entries it has.
#[derive(Clone, Copy)]
pub struct Index {
    pub free: usize,
    pub entries: usize,
}

// The next entry, whose control information lies right of `edge`. It must not begin left of it, nor must the field before it, if it is the highest of its section;
// F is at most the length of the separator that it refers to, and the separator that F and L make has at most `key` bytes. F and L are bytes, so their sum may
// reach 510. The caller tells whether it is the highest: so each of the two ways is compiled by itself, without a choice left in it.
pub(crate) fn piece_at(ib: &[u8], p: PassPlace, by: Limits, closes: bool) -> Option<Step>
    requires le_width { (1 ≤ by.width) × (by.width ≤ 4) × (p.right ≤ length ib.now) × (by.width + 2 ≤ p.right) × (by.edge < 65536) }
    requires which { closes_at by.width p ≡ closes }
    ensures { result ≡ parsed_of ib.now p by }
{
    let w = by.width;
    let r = p.right;
    let l = usize::from(ib[r - (w + 1)]);
    let field = if closes { 2 } else { 0 };
    if r < by.edge + (w + 2 + l + field) {
        return None;
    }
    let s = index_step::entry_at(ib, w, p);
    let most = if closes { p.high } else { p.len };
    if most < s.front {
        return None;
    }
    if by.key < s.front + s.len {
        return None;
    }
    Some(s)
}

// Whether the bound of the next separator is above that of the one before, the first `len` bytes of buf. Both begin with the same F
// bytes, and the first byte after them in which they differ decides. Where none does: what the separator before has left ends below
// X'FF', and X'FF' stands there in the new bound; and where it has nothing left, nothing is above its own X'FF'.
pub(crate) fn compares(buf: &[u8], front: usize, len: usize, ib: &[u8], at: usize, l: usize) -> bool
    requires { (front ≤ len) × (len ≤ length buf.now) × (at + l ≤ length ib.now) × (separator len (take len buf.now) ≡ true) }
    ensures { Ascends false front len buf.now ib.now at l result }
{
    let rest = len - front;
    let m = if l < rest { l } else { rest };
    let e = front + m;
    let z = at + m;
    let o = fields::compare_bytes(&buf[front..e], &ib[at..z]);
    match o {
        Ordering::Less => true,
        Ordering::Equal => l < rest,
        Ordering::Greater => false,
    }
}

// The same for the next entry, mostly told by one byte: F must be below the length of the separator before; then no characters at all rise, and a first one above the
// byte that it takes the place of does. The first entry has none before it, and so an F of 0.
pub(crate) fn ascends(buf: &[u8], first: bool, len: usize, ib: &[u8], s: Step) -> bool
    requires { (len ≤ length buf.now) × (s.at + s.len ≤ length ib.now) × (separator len (take len buf.now) ≡ true) × (first ≡ true → len ≡ 0) }
    ensures over { len < s.front → result ≡ false }
    ensures rises { s.front ≤ len → Ascends first s.front len buf.now ib.now s.at s.len result }
{
    let f = s.front;
    let at = s.at;
    if len <= f {
        if len < f {
            return false;
        }
        return first;
    }
    if s.len == 0 {
        return true;
    }
    if buf[f] < ib[at] {
        return true;
    }
    compares(buf, f, len, ib, at, s.len)
}

// The last of the first len bytes, 0 where there is none.
pub(crate) fn last_of(buf: &[u8], len: usize) -> u8
    requires { len ≤ length buf.now }
    ensures { result ≡ get_or (take len buf.now) (len - 1) 0 }
{
    if len == 0 {
        return 0;
    }
    buf[len - 1]
}

// Whether the next separator does not end with X'FF': its last character, or the last of the F bytes where it has none.
pub(crate) fn ends_low(buf: &[u8], ib: &[u8], s: Step) -> bool
    requires { (s.front ≤ length buf.now) × (s.at + s.len ≤ length ib.now) }
    ensures { result ≡ no (eqb (get_or (joined_of s.front buf.now ib.now s.at s.len) (s.front + s.len - 1) 0) 255) }
{
    if s.len == 0 {
        return last_of(buf, s.front) != 255;
    }
    let z = s.at + s.len;
    ib[z - 1] != 255
}

// The next entry, no section's highest, which lies right of the edge, with every rule on its separator: F, the length, the order of the bounds, the last byte. The
// buffer begins with the separator before it, and afterwards with its own. A wrong entry ends the walk, so that nothing is stored of one.
pub(crate) fn next_inner(
    buf: &mut [u8],
    first: bool,
    ib: &[u8],
    p: PassPlace,
    by: Limits,
) -> Option<Step>
    requires before { Before ib.now p by buf.old × (first ≡ true → p.len ≡ 0) }
    requires which { closes_at by.width p ≡ false }
    requires lies { by.edge + (by.width + 2 + length_at by.width ib.now p.right) ≤ p.right }
    ensures is { (high : List ℕ) → by.key + 8 ≤ length high → result ≡ entry_of ib.now p by first buf.old high }
    ensures renewed { (high : List ℕ) → by.key + 8 ≤ length high → Taken ib.now buf.old high buf.new high result }
{
    let s = index_step::entry_at(ib, by.width, p);
    if by.key < s.front + s.len {
        return None;
    }
    if !ascends(buf, first, p.len, ib, s) {
        return None;
    }
    if !ends_low(buf, ib, s) {
        return None;
    }
    index_step::extend(buf, s.front, ib, s.at, s.len);
    Some(s)
}

// Whether the bound of a section's highest, the first z bytes of `high`, is above that of the entry before, the first `len` bytes of buf. It is compressed against
// the highest of the section before, so that its F tells nothing of the one before it, and all bytes are compared.
pub(crate) fn topmost(buf: &[u8], first: bool, len: usize, high: &[u8], z: usize) -> bool
    requires { (len ≤ length buf.now) × (z ≤ length high.now) × (separator len (take len buf.now) ≡ true) }
    ensures { Ascends first 0 len buf.now high.now 0 z result }
{
    if first {
        return true;
    }
    compares(buf, 0, len, high, 0, z)
}

// The same of a section's highest. `high` begins with the highest of the section before, and afterwards both buffers begin with this one.
pub(crate) fn next_top(
    buf: &mut [u8],
    high: &mut [u8],
    first: bool,
    ib: &[u8],
    p: PassPlace,
    by: Limits,
) -> Option<Step>
    requires before { Before ib.now p by buf.old }
    requires which { closes_at by.width p ≡ true }
    requires tall { by.key + 8 ≤ length high.old }
    ensures is { result ≡ entry_of ib.now p by first buf.old high.old }
    ensures renewed { Taken ib.now buf.old high.old buf.new high.new result }
{
    let Some(s) = piece_at(ib, p, by, true) else {
        return None;
    };
    index_step::extend(high, s.front, ib, s.at, s.len);
    let z = s.front + s.len;
    if !topmost(buf, first, p.len, high, z) {
        return None;
    }
    index_step::extend(buf, 0, high, 0, z);
    if last_of(buf, z) == 255 {
        return None;
    }
    Some(s)
}

// The same for the one entry that the key leads to, where it is no section's highest. It stands apart from `next_inner`, whose body is then put into the loop that alone calls
// it: with a call in that loop the walk takes more than twice as long.
pub(crate) fn next_met(
    buf: &mut [u8],
    first: bool,
    ib: &[u8],
    p: PassPlace,
    by: Limits,
) -> Option<Step>
    requires before { Before ib.now p by buf.old × (first ≡ true → p.len ≡ 0) }
    requires which { closes_at by.width p ≡ false }
    ensures is { (high : List ℕ) → by.key + 8 ≤ length high → result ≡ entry_of ib.now p by first buf.old high }
    ensures renewed { (high : List ℕ) → by.key + 8 ≤ length high → Taken ib.now buf.old high buf.new high result }
{
    let Some(s) = piece_at(ib, p, by, false) else {
        return None;
    };
    if !ascends(buf, first, p.len, ib, s) {
        return None;
    }
    index_step::extend(buf, s.front, ib, s.at, s.len);
    if last_of(buf, s.front + s.len) == 255 {
        return None;
    }
    Some(s)
}

// The next entry, whichever it is.
pub(crate) fn next_entry(
    buf: &mut [u8],
    high: &mut [u8],
    first: bool,
    ib: &[u8],
    p: PassPlace,
    by: Limits,
) -> Option<Step>
    requires before { Before ib.now p by buf.old × (first ≡ true → p.len ≡ 0) }
    requires tall { by.key + 8 ≤ length high.old }
    ensures is { result ≡ entry_of ib.now p by first buf.old high.old }
    ensures renewed { Taken ib.now buf.old high.old buf.new high.new result }
{
    if p.right - (by.width + 2) == p.end {
        return next_top(buf, high, first, ib, p, by);
    }
    next_met(buf, first, ib, p, by)
}

// The reach of a key past a separator, 0 where the separator is not below as many bytes of the key. Both begin with the same `front` bytes; `chars` are those
// that follow them in the separator.
pub(crate) fn reach_of(key: &[u8], front: usize, chars: &[u8]) -> usize
    requires { front + length chars.now ≤ length key.now }
    ensures { result ≡ reach_of key.now front chars.now }
{
    let e = front + chars.len();
    let same = fields::common_front(chars, &key[front..e]);
    if chars.len() <= same {
        return 0;
    }
    if key[front + same] < chars[same] {
        return 0;
    }
    front + same + 1
}

// The reach of a key past the next entry, whose F is below the reach before it; `top` says whether it is its section's
// highest. Of an entry that is wrong nothing is told: it ends the walk.
pub(crate) fn look(
    key: &[u8],
    ib: &[u8],
    p: PassPlace,
    by: Limits,
    top: bool,
    reach: usize,
) -> usize
    requires le_width { (1 ≤ by.width) × (by.width ≤ 4) × (p.right ≤ length ib.now) × (by.width + 2 ≤ p.right) × (by.edge < 65536) × (length key.now ≡ by.key) }
    requires which { closes_at by.width p ≡ top }
    ensures { result ≡ look_of ib.now p by key.now reach }
{
    let Some(s) = piece_at(ib, p, by, top) else {
        return reach;
    };
    let a = s.at;
    let z = a + s.len;
    reach_of(key, s.front, &ib[a..z])
}

// The reach of a key past the entry before which a walk over a section's entries stopped, 0 where the key leads to it. `reach` is that past the highest of the section
// before, to which F of a section's highest refers; the walk stopped before any other because the key leads to it.
pub(crate) fn aimed(key: &[u8], ib: &[u8], p: PassPlace, by: Limits, reach: usize) -> usize
    requires { (1 ≤ by.width) × (by.width ≤ 4) × (p.right ≤ length ib.now) × (by.width + 2 ≤ p.right) × (by.edge < 65536) × (0 < reach → length key.now ≡ by.key) }
    ensures { result ≡ aim_of ib.now p by key.now reach }
{
    if reach == 0 {
        return 0;
    }
    let c = p.right - (by.width + 2);
    if c != p.end {
        return 0;
    }
    if reach <= usize::from(ib[c]) {
        return reach;
    }
    look(key, ib, p, by, true, reach)
}

// Where the key's entry is met: the first `len` bytes of buf, at the front of another buffer. Behind them may stand anything.
pub(crate) fn keep(to: &mut [u8], buf: &[u8], len: usize, meets: bool)
    requires { (len ≤ 255) × (263 ≤ length to.old) × (263 ≤ length buf.now) }
    ensures { to.new ≡ pick meets (copied_from buf.now len to.old) to.old }
{
    if !meets {
        return;
    }
    index_step::extend(to, 0, buf, 0, len);
}

// Marks each of the free numbers; refuses one that is not below n, or is marked already.
pub(crate) fn mark_free(seen: &mut [u8; LIMIT], ib: &[u8], w: usize, count: usize, n: usize) -> bool
    requires { (1 ≤ w) × (w ≤ 4) × (24 + w * count ≤ length ib.now) × (n ≤ limit) }
    ensures sound { result ≡ marking n seen.old (numbers_at w ib.now 24 count) }
    ensures marks { result ≡ true → seen.new ≡ seen_after seen.old (numbers_at w ib.now 24 count) }
{
    for i in 0..count {
        let number = fields::read_pointer(ib, 24 + w * i, w);
        if n <= number {
            return false;
        }
        if seen[number] != 0 {
            return false;
        }
        seen[number] = 1;
    }
    true
}

// Walks the entries of a section leftwards up to its highest, or to the one that the key leads to, and marks their numbers. Of `left` entries the last must close
// a section, so that one must be met. These are nearly all entries, and their loop has nothing else in it.
pub(crate) fn walk_inner(
    seen: &mut [u8; LIMIT],
    buf: &mut [u8],
    ib: &[u8],
    key: &[u8],
    from: Leg,
    by: Limits,
) -> Option<Stop>
    requires walkable { Walkable ib.now by key.now × (0 < from.left) }
    requires stands { Stood ib.now by key.now seen.old buf.old from }
    ensures { (old high : List ℕ) → Stand ib.now by key.now old seen.old buf.old high from.p true from.left from.reach → Stopped ib.now by key.now old from seen.new buf.new high result }
{
    let w = by.width;
    let mut p = from.p;
    let mut left = from.left;
    let mut reach = from.reach;
    while 0 < left {
        let r = p.right;
        let c = r - (w + 2);
        if c == p.end {
            return Some(Stop { p, left });
        }
        if c < by.edge + usize::from(ib[c + 1]) {
            return None;
        }
        if usize::from(ib[c]) < reach {
            reach = look(key, ib, p, by, false, reach);
            if reach == 0 {
                if left == 1 {
                    return None;
                }
                return Some(Stop { p, left });
            }
        }
        let number = fields::read_pointer(ib, r - w, w);
        if by.n <= number {
            return None;
        }
        if seen[number] != 0 {
            return None;
        }
        seen[number] = 1;
        let Some(s) = next_inner(buf, left == by.count, ib, p, by) else {
            return None;
        };
        p = index_step::past(ib, s, p);
        left -= 1;
    }
    None
}

// Past the last entry: it began at the edge with its section's field, which is zero, and its separator was empty.
pub(crate) fn ends(ib: &[u8], p: PassPlace, by: Limits) -> bool
    requires { by.edge + 2 ≤ length ib.now }
    ensures { result ≡ both (eqb p.right by.edge) (both (eqb p.len 0) (eqb (number 2 ib.now by.edge) 0)) }
{
    if p.right != by.edge {
        return false;
    }
    if p.len != 0 {
        return false;
    }
    fields::read::<2>(ib, by.edge) == 0
}

// Walks all entries from the RDF leftwards, section by section, and marks their numbers. The last must close a section, begin at the edge with that section's
// field, which must be zero, and have an empty separator. The fields are followed as they are met: one that leads nowhere leaves a section without its highest.
// While a key of one byte or more is sought, each section's highest is held against it as well; the entry that it leads to is told, with the separator before
// it and its own at the front of two lent buffers.
pub(crate) fn mark_entries(
    seen: &mut [u8; LIMIT],
    ib: &[u8],
    by: Limits,
    key: &[u8],
    before: &mut [u8],
    own: &mut [u8],
) -> Option<Lead>
    requires { Walkable ib.now by key.now × (0 < by.count) × (length before.old ≡ 263) × (length own.old ≡ 263) }
    ensures sound { is_some result ≡ fine_from by ib.now seen.old by.count }
    ensures found { 0 < length key.now → IfSome result (λ spot. FoundBy by.width by.count ib.now key.now spot before.new own.new) }
{
    let mut buf = [0u8; BUFFER];
    let mut high = [0u8; BUFFER];
    let mut p = index_step::start(ib);
    let mut left = by.count;
    let mut reach = if key.len() == 0 { 0 } else { 1 };
    let mut spot = Lead::default();
    while 0 < left {
        let leg = Leg { p, left, reach };
        let Some(stop) = walk_inner(seen, &mut buf, ib, key, leg, by) else {
            return None;
        };
        let aim = aimed(key, ib, stop.p, by, reach);
        let meets = if reach == 0 { false } else { aim == 0 };
        keep(before, &buf, stop.p.len, meets);
        let Some(s) = next_entry(&mut buf, &mut high, stop.left == by.count, ib, stop.p, by) else {
            return None;
        };
        let number = s.number;
        if by.n <= number {
            return None;
        }
        if seen[number] != 0 {
            return None;
        }
        seen[number] = 1;
        p = index_step::past(ib, s, stop.p);
        left = stop.left - 1;
        if meets {
            spot = Lead {
                ordinal: by.count - stop.left,
                number,
                before: stop.p.len,
                own: p.len,
            };
        }
        keep(own, &buf, p.len, meets);
        reach = aim;
    }
    if !ends(ib, p, by) {
        return None;
    }
    Some(spot)
}

// The walk over the free numbers, and then over the entries. A number either is free or has an entry, so all lie below the sum of the two counts.
pub(crate) fn walk(
    marks: Marks,
    ib: &[u8],
    by: Limits,
    key: &[u8],
    before: &mut [u8],
    own: &mut [u8],
) -> Marks
    requires walkable { Walkable ib.now by key.now × (0 < by.count) × (length before.old ≡ 263) × (length own.old ≡ 263) }
    requires free { (by.count ≤ by.n) × (24 + by.width * (by.n - by.count) ≤ length ib.now) }
    requires begun { (marks.free ≡ by.n - by.count) × (marks.used ≡ by.count) × (marks.spot ≡ None) }
    ensures sound { is_some result.spot ≡ walked_fine by ib.now marks.seen }
    ensures found { 0 < length key.now → IfSome result.spot (λ spot. FoundBy by.width by.count ib.now key.now spot before.new own.new) }
    ensures counts { (result.free ≡ by.n - by.count) × (result.used ≡ by.count) }
{
    let mut m = marks;
    if !mark_free(&mut m.seen, ib, by.width, m.free, m.free + m.used) {
        return m;
    }
    m.spot = mark_entries(&mut m.seen, ib, by, key, before, own);
    m
}

// Whether header values, RDF and CIDF are as they must be. The pointer indicator has a bit for each byte of a pointer.
pub(crate) fn framed(ib: &[u8], w: usize) -> bool
    requires { (31 ≤ length ib.now) × (1 ≤ w) × (w ≤ 4) }
    ensures { result ≡ frame w ib.now }
{
    let size = ib.len();
    if fields::read::<2>(ib, 0) != size - 7 {
        return false;
    }
    if usize::from(ib[2]) != w + 2 {
        return false;
    }
    if usize::from(ib[3]) != (1 << w) - 1 {
        return false;
    }
    if ib[16] != 1 {
        return false;
    }
    if ib[size - 7] != 0 {
        return false;
    }
    if fields::read::<2>(ib, size - 6) != size - 7 {
        return false;
    }
    if fields::read::<2>(ib, size - 4) != size - 7 {
        return false;
    }
    fields::read::<2>(ib, size - 2) == 0
}

// The base RBA.
pub fn base_of(ib: &[u8]) -> usize
    requires { 8 ≤ length ib.now }
    ensures { (result ≡ number 4 ib.now 4) × (result < 4294967296) }
{
    fields::read::<4>(ib, 4)
}

// Whether n intervals from the base on stay within the addresses of four bytes.
pub(crate) fn base_fine(ib: &[u8], n: usize) -> bool
    requires { (8 ≤ length ib.now) × (length ib.now ≤ 32768) × (n ≤ limit) }
    ensures { result ≡ base_fine (length ib.now) n (part ib.now 4 12) }
{
    base_of(ib) + n * ib.len() <= 4294967296
}

// Whether the displacements are in order, as far as that shows before the walk: the unused space begins past the free numbers,
// which leave one interval at least to an entry, and ends where the entries begin. The last entry's separator is empty, so that its field stands right before its
// control information. Where the first section's highest is the last entry there is a single section, and it has at most two entries.
pub(crate) fn placed(ib: &[u8], w: usize, n: usize) -> Option<Places>
    requires { (31 ≤ length ib.now) × (1 ≤ w) × (w ≤ 4) }
    ensures { result ≡ places_of w n ib.now }
{
    let unused = fields::read::<2>(ib, 18);
    let last = fields::read::<2>(ib, 20);
    if unused < 24 {
        return None;
    }
    let free = index_step::free_count(ib, w);
    if 24 + w * free != unused {
        return None;
    }
    if n <= free {
        return None;
    }
    if last < unused + 2 {
        return None;
    }
    if ib.len() - 7 < last {
        return None;
    }
    if fields::read::<2>(ib, 22) == last {
        if 2 < n - free {
            return None;
        }
    }
    Some(Places {
        free,
        edge: last - 2,
    })
}

// Whether an index record of n intervals with keys of `key` bytes is sound; with the numbers of free intervals and of entries, and where a key of that length
// leads, if one is sought: then the separator before its entry and its own stand at the front of two lent buffers.
pub(crate) fn judge(
    ib: &[u8],
    key: usize,
    n: usize,
    wanted: &[u8],
    before: &mut [u8],
    own: &mut [u8],
) -> Option<Verdict>
    requires in_bounds { (31 ≤ length ib.now) × (length ib.now ≤ 32768) × (1 ≤ key) × (key ≤ 255) × (n ≤ limit) }
    requires buffers { ((length wanted.now ≡ 0) ⊎ (length wanted.now ≡ key)) × (length before.old ≡ 263) × (length own.old ≡ 263) }
    ensures { JudgedAs key n ib.now wanted.now before.new own.new result }
{
    let w = measures::width_for(n);
    if !framed(ib, w) {
        return None;
    }
    if !base_fine(ib, n) {
        return None;
    }
    let places = placed(ib, w, n)?;
    let free = places.free;
    let entries = n - free;
    let by = Limits {
        width: w,
        edge: places.edge,
        n,
        count: entries,
        key,
    };
    let marks = Marks {
        seen: [0u8; LIMIT],
        used: entries,
        free,
        spot: None,
    };
    let walked = walk(marks, ib, by, wanted, before, own);
    let spot = walked.spot?;
    Some(Verdict {
        free: walked.free,
        entries: walked.used,
        spot,
    })
}

// Whether an index record of n intervals with keys of `key` bytes is sound, with its free intervals and entries.
pub fn check(ib: &[u8], key: usize, n: usize) -> Option<Index>
    requires { (31 ≤ length ib.now) × (length ib.now ≤ 32768) × (1 ≤ key) × (key ≤ 255) × (n ≤ limit) }
    ensures { result ≡ index_of key n ib.now }
{
    let mut before = [0u8; BUFFER];
    let mut own = [0u8; BUFFER];
    let verdict = judge(ib, key, n, &ib[..0], &mut before, &mut own)?;
    Some(Index {
        free: verdict.free,
        entries: verdict.entries,
    })
}

// The same, and where a key leads, found in the same walk: the separator before its entry is put at the front of `before`, its own at the front of `own`.
// Where the record is unsound both stay as they were.
pub fn seek(ib: &[u8], key: &[u8], n: usize, before: &mut [u8], own: &mut [u8]) -> Option<Lead>
    requires in_bounds { (31 ≤ length ib.now) × (length ib.now ≤ 32768) × (1 ≤ length key.now) × (length key.now ≤ 255) × (n ≤ limit) }
    requires buffers { (255 ≤ length before.old) × (255 ≤ length own.old) }
    ensures is { Seeks n ib.now key.now before.old own.old result before.new own.new }
    ensures within { LeadWithin n (length key.now) result }
{
    let mut low = [0u8; BUFFER];
    let mut high = [0u8; BUFFER];
    let verdict = judge(ib, key.len(), n, key, &mut low, &mut high)?;
    let spot = verdict.spot;
    let b = spot.before;
    let o = spot.own;
    fields::copy(before, 0, &low[..b]);
    fields::copy(own, 0, &high[..o]);
    Some(spot)
}
