// What every pass over an index record goes by: how many numbers are free, one entry taken apart, the separators that run along.
#![tactic(auto)]

ghost use Rattle.std.specs.Prelude.{◌+◌, ◌-◌, ◌≤◌, ◌<◌, ◌≡◌, length};
ghost use Rattle.fields.specs.Choice.{pick};
ghost use Rattle.fields.specs.Bytes.{part, splice};
ghost use Rattle.index.specs.Reading.{unused_at, free_count};
ghost use Rattle.index_step.specs.AidStep.{place_start, step_at, place_past, EntryEnds, reach, Renewed};

// How many numbers of w bytes stand free, by the displacement to the unused space.
pub fn free_count(ib: &[u8], w: usize) -> usize
    requires { (20 ≤ length ib.now) × (1 ≤ w) × (24 ≤ unused_at ib.now) }
    ensures { result ≡ free_count w ib.now }
{
    (fields::read::<2>(ib, 18) - 24) / w
}

// A buffer for a separator: it has at most 255 bytes, and a copy may reach eight bytes further.
pub const BUFFER: usize = 263;

// Where a pass stands: the next entry ends at `right`; the control information of its section's highest lies at `end`. The separator before it
// are the first `len` bytes of one buffer, the highest of the section before the first `high` bytes of another.
#[derive(Clone, Copy)]
pub struct PassPlace {
    pub right: usize,
    pub end: usize,
    pub len: usize,
    pub high: usize,
}

// An entry: F, how many characters it has and where they begin, its number, and whether it is the highest of its section.
#[derive(Clone, Copy)]
pub struct Step {
    pub front: usize,
    pub len: usize,
    pub at: usize,
    pub number: usize,
    pub closes: bool,
}

// Before the first entry: it ends seven bytes before the record's end, and no separator is before it.
pub fn start(ib: &[u8]) -> PassPlace
    requires { 24 ≤ length ib.now }
    ensures { result ≡ place_start ib.now }
{
    PassPlace {
        right: ib.len() - 7,
        end: fields::read::<2>(ib, 22),
        len: 0,
        high: 0,
    }
}

// The next entry, with a pointer of w bytes. F, L and the characters are told by the place c of the control information, so that the compiler
// makes one address of it.
pub fn entry_at(ib: &[u8], w: usize, p: PassPlace) -> Step
    requires { EntryEnds w ib.now p.right }
    ensures is { result ≡ step_at w ib.now p.right p.end }
    ensures small { (result.front < 256) × (result.len < 256) }
{
    let r = p.right;
    let c = r - (w + 2);
    let f = usize::from(ib[c]);
    let l = usize::from(ib[c + 1]);
    let number = fields::read_pointer(ib, r - w, w);
    Step {
        front: f,
        len: l,
        at: c - l,
        number,
        closes: c == p.end,
    }
}

// Where the pass stands past an entry. Before a section's highest stands the field that leads to the next one's; a field that leads out of the record leads to
// its first byte, where no entry is.
pub fn past(ib: &[u8], s: Step, p: PassPlace) -> PassPlace
    requires { (s.front + s.len ≤ 510) × (s.at ≤ length ib.now) × (pick s.closes 2 0 ≤ s.at) }
    ensures { result ≡ place_past ib.now s p }
{
    let len = s.front + s.len;
    if !s.closes {
        return PassPlace {
            right: s.at,
            end: p.end,
            len,
            high: p.high,
        };
    }
    let right = s.at - 2;
    PassPlace {
        right,
        end: p.end.saturating_sub(fields::read::<2>(ib, right)),
        len,
        high: len,
    }
}

// Puts an entry's separator into buf, which begins with the one that F refers to: F bytes stay, its L characters are copied over what
// follows them. Of eight characters or fewer eight bytes are copied at once: behind the separator may stand anything, and a loop over a
// few would cost more than all else here.
pub fn extend(buf: &mut [u8], front: usize, ib: &[u8], at: usize, len: usize)
    requires { (front + reach len ≤ length buf.old) × (at + reach len ≤ length ib.now) }
    ensures { buf.new ≡ splice buf.old front (part ib.now at (reach len)) }
{
    if 8 < len {
        let z = at + len;
        fields::copy(buf, front, &ib[at..z]);
        return;
    }
    fields::copy_eight(buf, front, ib, at);
}

// Puts an entry's separator into buf, which begins with the one before. F of a section's highest refers to the highest of the section before, with which
// `high` begins; that buffer then begins with it too.
pub fn renew(buf: &mut [u8], high: &mut [u8], ib: &[u8], s: Step)
    requires { (s.front + s.len + 8 ≤ length high.old) × (s.front + s.len + 8 ≤ length buf.old) × (s.at + reach s.len ≤ length ib.now) }
    ensures { Renewed ib.now s buf.old high.old buf.new high.new }
{
    if !s.closes {
        extend(buf, s.front, ib, s.at, s.len);
        return;
    }
    extend(high, s.front, ib, s.at, s.len);
    extend(buf, 0, high, 0, s.front + s.len);
}
