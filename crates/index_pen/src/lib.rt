// The pen that writes the entries of an index record one after another, in the writer's sections. Lent no record, no more than the seven bytes behind one, it only counts
// the bytes that they take.
#![tactic(auto)]

ghost use Rattle.std.specs.Prelude.{◌+◌, ◌-◌, ◌≤◌, ◌<◌, ◌≡◌, true, false, length};
ghost use Rattle.fields.specs.Bytes.{splice};
ghost use Rattle.sections.specs.Form.{section_for};
ghost use Rattle.index_pen.specs.AidPen.{pen_begun, piece_stored, Linkable, pen_linked, bytes_linked, Puts, part_at, pen_on, top_on, bytes_on, part_after};

// The bytes of a pointer; how many entries a section has, how many are to come in the open one, and in all; the
// length of the highest of the section before, with which a buffer begins; the bytes that the entries take. Where some section is closed: the places of the
// first one's highest, of the last one's field, and of the last one's highest, each of these by its control information.
#[derive(Clone, Copy)]
pub struct Pen {
    pub width: usize,
    pub most: usize,
    pub left: usize,
    pub rest: usize,
    pub high: usize,
    pub size: usize,
    pub first: usize,
    pub field: usize,
    pub last: usize,
}

// How many entries a section has where there are so many: the least number whose square is no less.
pub fn section_for(count: usize) -> usize
    requires { count ≤ 65536 }
    ensures { (result ≡ section_for count) × (result ≤ 65536) }
{
    for c in 1..256 {
        if count <= c * c {
            return c;
        }
    }
    256
}

// Before the first of so many entries.
pub fn begin(width: usize, count: usize) -> Pen
    requires { count ≤ 65536 }
    ensures { result ≡ pen_begun width count }
{
    let most = section_for(count);
    Pen {
        width,
        most,
        left: most.min(count),
        rest: count,
        high: 0,
        size: 0,
        first: 0,
        field: 0,
        last: 0,
    }
}

// Stores an entry with this F and these characters so that it ends at place r.
pub(crate) fn put_piece(
    b: &mut [u8],
    r: usize,
    front: usize,
    chars: &[u8],
    number: usize,
    width: usize,
)
    requires { (width ≤ 4) × (width + 2 + length chars.now ≤ r) × (r ≤ length b.old) × (front < 256) × (length chars.now < 256) }
    ensures { b.new ≡ piece_stored width b.old r front chars.now number }
{
    let l = chars.len();
    let at = r - (width + 2 + l);
    let z = at + l;
    fields::copy(b, at, chars);
    b[z] = front as u8;
    b[z + 1] = l as u8;
    fields::write(b, z + 2, width, number);
}

// A section's highest was stored, with its control information at `at`, and begins two bytes right of all that is stored: its own field stays zero until the next
// section's highest is known. The one before it is told where it lies.
pub(crate) fn link(b: &mut [u8], pen: Pen, at: usize) -> Pen
    requires { Linkable b.old pen at }
    ensures is { result ≡ pen_linked (length b.old - 7) pen at }
    ensures bytes { b.new ≡ bytes_linked b.old pen at }
{
    let edge = b.len() - 7 - pen.size;
    fields::write(b, edge, 2, 0);
    let mut p = pen;
    p.field = edge;
    p.last = at;
    if pen.first == 0 {
        p.first = at;
        return p;
    }
    fields::write(b, pen.field, 2, pen.last - at);
    p
}

// An entry that is no section's highest, with this F.
pub(crate) fn put_inner(b: &mut [u8], pen: Pen, front: usize, sep: &[u8], number: usize) -> Pen
    requires { Puts b.old pen sep.now (part_after false front sep.now number) × (front ≤ length sep.now) × (1 ≤ pen.left) }
    ensures is { result ≡ pen_on (length b.old - 7) pen (part_after false front sep.now number) }
    ensures bytes { b.new ≡ bytes_on b.old pen (part_after false front sep.now number) }
{
    let w = pen.width;
    let n = sep.len();
    if 7 < b.len() {
        let r = b.len() - 7 - pen.size;
        put_piece(b, r, front, &sep[front..n], number, w);
    }
    let mut p = pen;
    p.size = pen.size + (w + 2 + (n - front));
    p.left = pen.left - 1;
    p.rest = pen.rest - 1;
    p
}

// A section's highest, with this F. Two bytes more are its field.
pub(crate) fn put_top(b: &mut [u8], pen: Pen, front: usize, sep: &[u8], number: usize) -> Pen
    requires { Puts b.old pen sep.now (part_after true front sep.now number) × (front ≤ length sep.now) }
    ensures is { result ≡ pen_on (length b.old - 7) pen (part_after true front sep.now number) }
    ensures bytes { b.new ≡ bytes_on b.old pen (part_after true front sep.now number) }
{
    let w = pen.width;
    let n = sep.len();
    let mut p = pen;
    p.size = pen.size + (w + 2 + (n - front) + 2);
    p.rest = pen.rest - 1;
    p.left = pen.most.min(pen.rest - 1);
    p.high = n;
    if b.len() <= 7 {
        return p;
    }
    let r = b.len() - 7 - pen.size;
    put_piece(b, r, front, &sep[front..n], number, w);
    link(b, p, r - (w + 2))
}

// The next entry: its separator, how many first bytes that has in common with the one before, and its number. Where it is the highest of its section it is compressed
// against the highest of the section before, with which `top` begins, and then with it.
pub fn put(b: &mut [u8], pen: Pen, top: &mut [u8], front: usize, sep: &[u8], number: usize) -> Pen
    requires puts { Puts b.old pen sep.now (part_at pen top.old front sep.now number) × (front ≤ length sep.now) }
    requires room { (1 ≤ pen.left) × (pen.high ≤ length top.old) × (length sep.now ≤ length top.old) }
    ensures is { result ≡ pen_on (length b.old - 7) pen (part_at pen top.old front sep.now number) }
    ensures top { top.new ≡ top_on pen sep.now top.old }
    ensures bytes { b.new ≡ bytes_on b.old pen (part_at pen top.old front sep.now number) }
{
    if pen.left != 1 {
        return put_inner(b, pen, front, sep, number);
    }
    let tall = pen.high;
    let f = fields::common_front(&top[..tall], sep);
    fields::copy(top, 0, sep);
    put_top(b, pen, f, sep, number)
}
