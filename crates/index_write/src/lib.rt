// The writer of an index record after a division. It streams: separators run along the old entries, once for the size of the new record, once for its bytes, which
// are made from a copy of the old one. The same pass does both, with a pen that stores or one that counts.
#![tactic(auto)]

ghost use Rattle.std.specs.Prelude.{◌+◌, ◌-◌, ◌≤◌, ◌<◌, ◌^◌, ◌≡◌, false, length, get_or, take};
ghost use Rattle.fields.specs.Bytes.{splice};
ghost use Rattle.fields.specs.Order.{common};
ghost use Rattle.measures.specs.Judgement.{width_for};
ghost use Rattle.index.specs.Reading.{free_count, numbers_at};
ghost use Rattle.sections.specs.Form.{index_size, index_bytes};
ghost use Rattle.index_step.specs.AidStep.{joined_of, reach, Renewed};
ghost use Rattle.index_pen.specs.AidPen.{Puts, part_at, pen_on, top_on, bytes_on};
ghost use Rattle.index_write.specs.AidStream.{CutAt, cuts_in, last_of, CutsLie, FreeLie, renewed_by, Drawn, draft_of, draft_all, CursorStands, Ran, Cuttable, cut_entries};
ghost use Rattle.index_write.specs.AidDivided.{Divisible, new_record, AllFit, AllPut};

use index_pen::Pen;
use index_step::{BUFFER, PassPlace, Step};

// Where a pass stands: before which old entry, with the new record as far as it has been made; and how many old entries it is to put.
#[derive(Clone, Copy)]
pub(crate) struct Cursor {
    place: PassPlace,
    pen: Pen,
    count: usize,
}

// What is to be done: entry i of a record of n intervals is divided.
#[derive(Clone, Copy)]
pub(crate) struct Job {
    n: usize,
    i: usize,
}

// A division: the cuts, the number of the entry, and the first free number that is taken.
#[derive(Clone, Copy)]
pub(crate) struct Division {
    cuts: Cuts,
    number: usize,
    taken: usize,
}

// The separator of a cut, as part of some bytes.
#[derive(Clone, Copy)]
pub struct Cut {
    pub from: usize,
    pub to: usize,
}

// One cut, or two.
#[derive(Clone, Copy)]
pub struct Cuts {
    pub first: Cut,
    pub second: Option<Cut>,
}

// The last cut, and how many cuts there are.
#[derive(Clone, Copy)]
pub(crate) struct LastCut {
    cut: Cut,
    count: usize,
}

pub(crate) fn last_cut(cuts: Cuts) -> LastCut
    ensures { result ≡ last_of cuts }
{
    match cuts.second {
        Some(cut) => LastCut { cut, count: 2 },
        None => LastCut {
            cut: cuts.first,
            count: 1,
        },
    }
}

// How many first bytes of the left key make the separator of a cut between two keys: all up to the first one in which they
// differ, and that one.
pub fn cut_length(left: &[u8], right: &[u8]) -> usize
    ensures { CutAt left.now right.now result }
{
    let f = fields::common_front(left, right);
    if f < left.len() { f + 1 } else { f }
}

// A free number of w bytes, the k-th from the right end: with k = 0 the one that a division takes first.
pub fn taken(ib: &[u8], w: usize, k: usize) -> usize
    requires { (1 ≤ w) × (w ≤ 4) × (k < free_count w ib.now) × FreeLie w ib.now }
    ensures { (result ≡ get_or (numbers_at w ib.now 24 (free_count w ib.now)) (free_count w ib.now - (k + 1)) 0) × (result < 256 ^ w) }
{
    let u = fields::read::<2>(ib, 18);
    fields::read_pointer(ib, u - w * (k + 1), w)
}

// ---- one entry

// The longest F of an old entry that is no section's highest: its own, and as many of its characters as the separator before goes on with.
fn longest(buf: &[u8], len: usize, ib: &[u8], s: Step) -> usize
    requires { (s.front ≤ len) × (len ≤ length buf.now) × (s.at + s.len ≤ length ib.now) × (s.front < 256) }
    ensures is { result ≡ common (take len buf.now) (joined_of s.front buf.now ib.now s.at s.len) }
    ensures inside { (s.front ≤ result) × (result ≤ s.front + s.len) }
{
    let f = s.front;
    let at = s.at;
    let z = at + s.len;
    f + fields::common_front(&buf[f..len], &ib[at..z])
}

// Puts an old entry's separator into the buffers, as index_step::renew does; gives how many first bytes it has in common with the one before, the first `len` bytes of buf.
fn renew(buf: &mut [u8], len: usize, high: &mut [u8], ib: &[u8], s: Step) -> usize
    requires len_in_bounds { (s.front + s.len + 8 ≤ length high.old) × (s.front + s.len + 8 ≤ length buf.old) × (s.at + reach s.len ≤ length ib.now) }
    requires before { (len ≤ length buf.old) × (s.front ≤ 255) × (s.closes ≡ false → s.front ≤ len) }
    ensures is { result ≡ common (take len buf.old) (renewed_by ib.now s buf.old high.old) }
    ensures renewed { Renewed ib.now s buf.old high.old buf.new high.new }
{
    if !s.closes {
        let f = longest(buf, len, ib, s);
        index_step::extend(buf, s.front, ib, s.at, s.len);
        return f;
    }
    index_step::extend(high, s.front, ib, s.at, s.len);
    let z = s.front + s.len;
    let f = fields::common_front(&buf[..len], &high[..z]);
    index_step::extend(buf, 0, high, 0, z);
    f
}

// Puts an entry with this separator after one with the separator `prev`.
fn put_after(b: &mut [u8], pen: Pen, top: &mut [u8], prev: &[u8], sep: &[u8], number: usize) -> Pen
    requires puts { Puts b.old pen sep.now (part_at pen top.old (common prev.now sep.now) sep.now number) }
    requires room { (1 ≤ pen.left) × (pen.high ≤ length top.old) × (length sep.now ≤ length top.old) }
    ensures is { result ≡ pen_on (length b.old - 7) pen (part_at pen top.old (common prev.now sep.now) sep.now number) }
    ensures top { top.new ≡ top_on pen sep.now top.old }
    ensures bytes { b.new ≡ bytes_on b.old pen (part_at pen top.old (common prev.now sep.now) sep.now number) }
{
    let f = fields::common_front(prev, sep);
    index_pen::put(b, pen, top, f, sep, number)
}

// ---- the passes

// Puts the next old entries as they are.
fn run(
    b: &mut [u8],
    ib: &[u8],
    c: Cursor,
    buf: &mut [u8],
    high: &mut [u8],
    top: &mut [u8],
) -> Cursor
    requires { CursorStands ib.now c b.old buf.old high.old top.old }
    ensures { Ran ib.now c b.old buf.old high.old top.old result b.new buf.new high.new top.new }
{
    let mut p = c.place;
    let mut pen = c.pen;
    let w = pen.width;
    let count = c.count;
    for _ in 0..count {
        let s = index_step::entry_at(ib, w, p);
        let f = renew(buf, p.len, high, ib, s);
        let z = s.front + s.len;
        pen = index_pen::put(b, pen, top, f, &buf[..z], s.number);
        p = index_step::past(ib, s, p);
    }
    Cursor {
        place: p,
        pen,
        count: 0,
    }
}

// Puts the parts of an entry but for the last, after one with the separator `prev`: the first stays under the entry's number, a second one gets the first number taken.
fn put_cuts(b: &mut [u8], pen: Pen, top: &mut [u8], prev: &[u8], bytes: &[u8], d: Division) -> Pen
    requires { Cuttable b.old pen top.old prev.now bytes.now d }
    ensures { Drawn (draft_all (draft_of b.old pen top.old prev.now) (cut_entries d bytes.now)) b.new result top.new }
{
    let Cut { from, to } = d.cuts.first;
    let first = &bytes[from..to];
    let one = put_after(b, pen, top, prev, first, d.number);
    let Some(second) = d.cuts.second else {
        return one;
    };
    let Cut { from, to } = second;
    put_after(b, one, top, first, &bytes[from..to], d.taken)
}

// Puts all entries as they are once entry i is divided; lent no record, it only counts them. The divided entry's own separator comes last among its parts, under the last number taken.
fn put_all(b: &mut [u8], ib: &[u8], job: Job, bytes: &[u8], cuts: Cuts) -> Pen
    requires { Divisible job.n job.i (cuts_in cuts bytes.now) ib.now × CutsLie cuts bytes.now × AllFit job ib.now cuts bytes.now b.old }
    ensures { AllPut job ib.now cuts bytes.now b.old result b.new }
{
    let w = measures::width_for(job.n);
    let old = job.n - index_step::free_count(ib, w);
    let last = last_cut(cuts);
    let mut buf = [0u8; BUFFER];
    let mut high = [0u8; BUFFER];
    let mut top = [0u8; BUFFER];
    let a = Cursor {
        place: index_step::start(ib),
        pen: index_pen::begin(w, old + last.count),
        count: job.i,
    };
    let c = run(b, ib, a, &mut buf, &mut high, &mut top);
    let p = c.place;
    let len = p.len;
    let s = index_step::entry_at(ib, w, p);
    let d = Division {
        cuts,
        number: s.number,
        taken: taken(ib, w, 0),
    };
    let cut = put_cuts(b, c.pen, &mut top, &buf[..len], bytes, d);
    index_step::renew(&mut buf, &mut high, ib, s);
    let q = index_step::past(ib, s, p);
    let end = q.len;
    let Cut { from, to } = last.cut;
    let own = taken(ib, w, last.count - 1);
    let parted = put_after(b, cut, &mut top, &bytes[from..to], &buf[..end], own);
    let e = Cursor {
        place: q,
        pen: parted,
        count: old - (job.i + 1),
    };
    let z = run(b, ib, e, &mut buf, &mut high, &mut top);
    z.pen
}

// How many bytes header, free numbers and entries take once entry i of a sound record of n intervals is divided.
pub fn size_divided(ib: &[u8], n: usize, i: usize, bytes: &[u8], cuts: Cuts) -> usize
    requires { Divisible n i (cuts_in cuts bytes.now) ib.now × CutsLie cuts bytes.now }
    ensures { result ≡ index_size (width_for n) (new_record n ib.now i cuts bytes.now) }
{
    let w = measures::width_for(n);
    let last = last_cut(cuts);
    let mut none = [0u8; 1];
    let job = Job { n, i };
    let pen = put_all(&mut none, ib, job, bytes, cuts);
    24 + w * (index_step::free_count(ib, w) - last.count) + pen.size
}

// Writes the record anew over the old one, from a copy of it in a buffer that is long enough. Header, kept bytes and the free numbers that are left
// stay where they lie; all between them and the entries becomes zero.
pub(crate) fn divide_by(ib: &mut [u8], n: usize, i: usize, bytes: &[u8], cuts: Cuts, old: &mut [u8])
    requires divisible { Divisible n i (cuts_in cuts bytes.now) ib.old × CutsLie cuts bytes.now }
    requires room { index_size (width_for n) (new_record n ib.old i cuts bytes.now) ≤ length ib.old - 7 }
    requires long { length ib.old ≤ length old.old }
    ensures record { ib.new ≡ index_bytes (width_for n) (length ib.old) (new_record n ib.old i cuts bytes.now) }
    ensures copied { old.new ≡ splice old.old 0 ib.old }
{
    let size = ib.len();
    let w = measures::width_for(n);
    let last = last_cut(cuts);
    let u = 24 + w * (index_step::free_count(ib, w) - last.count);
    fields::copy(old, 0, ib);
    let job = Job { n, i };
    let pen = put_all(ib, &old[..size], job, bytes, cuts);
    let e = size - 7 - pen.size;
    fields::fill(ib, u, e, 0);
    fields::write(ib, 18, 2, u);
    fields::write(ib, 20, 2, pen.last);
    fields::write(ib, 22, 2, pen.first);
}

// Out of line, so that a caller's frame has no room for the copies that other sizes ask for.
#[inline(never)]
fn divide_sized<const N: usize>(ib: &mut [u8], n: usize, i: usize, bytes: &[u8], cuts: Cuts)
    requires divisible { Divisible n i (cuts_in cuts bytes.now) ib.old × CutsLie cuts bytes.now }
    requires room { index_size (width_for n) (new_record n ib.old i cuts bytes.now) ≤ length ib.old - 7 }
    requires short { (length ib.old ≤ N) × (N ≤ 32768) }
    ensures { ib.new ≡ index_bytes (width_for n) (length ib.old) (new_record n ib.old i cuts bytes.now) }
{
    let mut old = [0u8; N];
    divide_by(ib, n, i, bytes, cuts, &mut old)
}

// Writes the record anew; the buffer for the old one is as long as its size asks for.
pub fn divide(ib: &mut [u8], n: usize, i: usize, bytes: &[u8], cuts: Cuts)
    requires divisible { Divisible n i (cuts_in cuts bytes.now) ib.old × CutsLie cuts bytes.now }
    requires room { index_size (width_for n) (new_record n ib.old i cuts bytes.now) ≤ length ib.old - 7 }
    ensures { ib.new ≡ index_bytes (width_for n) (length ib.old) (new_record n ib.old i cuts bytes.now) }
{
    if ib.len() <= 512 {
        divide_sized::<512>(ib, n, i, bytes, cuts);
        return;
    }
    if ib.len() <= 4096 {
        divide_sized::<4096>(ib, n, i, bytes, cuts);
        return;
    }
    divide_sized::<32768>(ib, n, i, bytes, cuts);
}
