// RDFs: the control byte and the busy flag, taken apart and put together by masks and shifts; and the groups that RDFs make.
#![tactic(auto)]

ghost use Rattle.std.specs.Prelude.{◌+◌, ◌-◌, ◌*◌, ◌/◌, ◌%◌, ◌≤◌, ◌<◌, ◌≡◌, length, eqb};
ghost use Rattle.interval.specs.Reading.{rdfs, rdfs_at, rdfs_many};
ghost use Rattle.rdf.specs.Control.{control_of, byte_of};
ghost use Rattle.rdf.specs.AidFront.{front_of, pair_of, Small};

// The kinds of control byte that are sound: one record's length, a run's length, a run's count.
#[derive(Clone, Copy)]
pub enum Control {
    Single,
    Paired,
    Count,
}

// Source document 001, chapter 7: X'40' paired, X'08' count; every other bit must be off.
pub fn take_apart(control: u8) -> Option<Control>
    ensures { result ≡ control_of control }
{
    if control & 0xB7 != 0 {
        return None;
    }
    if control & 0x40 != 0 {
        if control & 0x08 != 0 {
            return None;
        }
        return Some(Control::Paired);
    }
    if control & 0x08 != 0 {
        Some(Control::Count)
    } else {
        Some(Control::Single)
    }
}

// The control byte with its paired bit and its count bit.
pub fn put_together(paired: u8, count: u8) -> u8
    requires { (paired < 2) × (count < 2) }
    ensures { result ≡ paired * 64 + count * 8 }
{
    (paired << 6) | (count << 3)
}

// The control byte of a kind.
pub fn control_byte(kind: Control) -> u8
    ensures { result ≡ byte_of kind }
{
    match kind {
        Control::Single => put_together(0, 0),
        Control::Paired => put_together(1, 0),
        Control::Count => put_together(0, 1),
    }
}

// The busy flag: the top bit of the field that holds the unused space's length.
pub fn is_busy(field: usize) -> bool
    requires { field < 65536 }
    ensures { result ≡ eqb (field / 32768 % 2) 1 }
{
    field & 0x8000 != 0
}

// The length of the unused space: the field below its flag.
pub fn below_flag(field: usize) -> usize
    requires { field < 65536 }
    ensures { result ≡ field % 32768 }
{
    field & 0x7FFF
}

// The field with its flag.
pub fn with_flag(busy: usize, unused: usize) -> usize
    requires { (busy < 2) × (unused < 32768) }
    ensures { result ≡ busy * 32768 + unused }
{
    (busy << 15) | unused
}

// Where an interval's RDFs begin, and how many there are.
#[derive(Clone, Copy)]
pub struct RdfsIn {
    pub at: usize,
    pub many: usize,
}

// Where the CIDF says that an interval's RDFs begin, whether they do or not. Source document 001, chapter 7: the CIDF is the last four bytes.
pub fn rdfs_begin(ci: &[u8]) -> usize
    requires { 4 ≤ length ci.now }
    ensures is { result ≡ rdfs_at ci.now }
    ensures small { result < 98304 }
{
    let n = ci.len();
    fields::read::<2>(ci, n - 4) + below_flag(fields::read::<2>(ci, n - 2))
}

// The RDFs lie right before the CIDF.
pub fn rdfs_of(ci: &[u8]) -> RdfsIn
    requires { (4 ≤ length ci.now) × (rdfs_at ci.now + 4 ≤ length ci.now) }
    ensures { (result.at ≡ rdfs_at ci.now) × (result.many ≡ rdfs_many ci.now) }
{
    let at = rdfs_begin(ci);
    RdfsIn {
        at,
        many: (ci.len() - 4 - at) / 3,
    }
}

// The first group of some RDFs: its record length, how many records, how many RDFs it takes.
#[derive(Clone, Copy)]
pub struct Front {
    pub len: usize,
    pub count: usize,
    pub used: usize,
}

// The first group of the n RDFs that end at place q, if they begin with one; its length must be from least to most. Where they begin need not be
// known for it: the first stands rightmost.
pub fn group_before(b: &[u8], q: usize, n: usize, least: usize, most: usize) -> Option<Front>
    requires { (0 < n) × (3 * n ≤ q) × (q ≤ length b.now) }
    ensures is { result ≡ front_of least most (rdfs b.now (q - 3 * n) n) }
    ensures small { Small n result }
{
    let at = q - 3;
    let len = fields::read::<2>(b, at + 1);
    if len < least || most < len {
        return None;
    }
    match take_apart(b[at])? {
        Control::Single => Some(Front {
            len,
            count: 1,
            used: 1,
        }),
        Control::Paired => pair_before(b, at, n - 1, len),
        Control::Count => None,
    }
}

// The run whose length was read, if the n RDFs that are left begin with its count. The unused space left of them is no RDF.
pub(crate) fn pair_before(b: &[u8], q: usize, n: usize, len: usize) -> Option<Front>
    requires { (3 * n ≤ q) × (q ≤ length b.now) × (len < 65536) }
    ensures is { result ≡ pair_of len (rdfs b.now (q - 3 * n) n) }
    ensures small { Small (n + 1) result }
{
    if n == 0 {
        return None;
    }
    let at = q - 3;
    let Control::Count = take_apart(b[at])? else {
        return None;
    };
    let count = fields::read::<2>(b, at + 1);
    if count < 2 {
        return None;
    }
    Some(Front {
        len,
        count,
        used: 2,
    })
}

// The first group of the n RDFs that lie from place p on.
pub fn group_at(b: &[u8], p: usize, n: usize, least: usize, most: usize) -> Option<Front>
    requires { (0 < n) × (p + 3 * n ≤ length b.now) }
    ensures is { result ≡ front_of least most (rdfs b.now p n) }
    ensures small { Small n result }
{
    group_before(b, p + 3 * n, n, least, most)
}
