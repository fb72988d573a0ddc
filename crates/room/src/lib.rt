// Room that records of given lengths take in an interval.
#![tactic(auto)]

ghost use Rattle.std.specs.Prelude.{ℕ, ◌+◌, ◌*◌, ◌≤◌, ◌<◌, ◌≡◌, List, length, get_or, take, drop};
ghost use Rattle.fields.specs.Lists.{sum};
ghost use Rattle.room.specs.Room.{need};
ghost use Rattle.room.specs.AidSteps.{ahead, room_of, also, also_run, RunAt};

// What records take so far, as much as is needed to add one more: their bytes; their RDFs; the last length; and 0, 1 or 2
// where no record, a single one or a run stands at the end.
#[derive(Clone, Copy)]
pub struct Room {
    pub bytes: usize,
    pub rdfs: usize,
    pub last: u16,
    pub run: usize,
}

// The room with one record more at the end.
pub fn add(r: Room, len: u16) -> Room
    requires { (r.bytes < 4294967296) × (r.rdfs < 4294967296) }
    ensures { result ≡ also r len }
{
    let bytes = r.bytes + len as usize;
    let more = r.rdfs + 1;
    // After no record, or after one of another length, it begins a group, with one RDF.
    if r.run == 0 || r.last != len {
        return Room {
            bytes,
            rdfs: more,
            last: len,
            run: 1,
        };
    }
    // The second of one length makes a run, which has a second RDF for its count. Later ones only raise that count.
    if r.run == 1 {
        return Room {
            bytes,
            rdfs: more,
            last: len,
            run: 2,
        };
    }
    Room {
        bytes,
        rdfs: r.rdfs,
        last: len,
        run: 2,
    }
}

// How many records, from record i on, are as long as it: the first group of the lengths from there.
pub fn run_at(lens: &[u16], i: usize) -> usize
    requires { i < length lens.now }
    ensures run { RunAt lens.now i result }
    ensures inside { (1 ≤ result) × (i + result ≤ length lens.now) }
{
    for j in i + 1..lens.len() {
        if lens[j] != lens[i] {
            return j - i;
        }
    }
    lens.len() - i
}

// The room with a run more at the end: count records of one length.
pub(crate) fn add_run(r: Room, len: u16, count: usize) -> Room
    requires { (1 ≤ count) × (count ≤ 32768) × (r.bytes < 2147483648) × (r.rdfs < 2147483648) }
    ensures { result ≡ also_run r len count }
{
    let one = add(r, len);
    if count == 1 {
        return one;
    }
    let two = add(one, len);
    Room {
        bytes: r.bytes + count * len as usize,
        rdfs: two.rdfs,
        last: len,
        run: 2,
    }
}

// The room that records of these lengths take, a run at a time.
pub fn room_of(lens: &[u16]) -> Room
    requires { length lens.now ≤ 32768 }
    ensures is { result ≡ room_of lens.now }
    ensures small { (result.bytes ≤ 65535 * length lens.now) × (result.rdfs ≤ length lens.now) }
{
    let mut r = Room {
        bytes: 0,
        rdfs: 0,
        last: 0,
        run: 0,
    };
    let mut i = 0;
    while i < lens.len() {
        let count = run_at(lens, i);
        r = add_run(r, lens[i], count);
        i += count;
    }
    r
}

// The bytes of RDF that record i adds to those of the records after it: none where the next two are as long as it, else three.
pub fn ahead_at(lens: &[u16], i: usize) -> usize
    requires { i < length lens.now }
    ensures { result ≡ ahead (get_or lens.now i 0) (drop (i + 1) lens.now) }
{
    if lens.len() - i <= 2 {
        return 3;
    }
    if lens[i] != lens[i + 1] {
        return 3;
    }
    if lens[i] != lens[i + 2] {
        return 3;
    }
    // The next two are a run without it, and it only raises their count.
    0
}

// How many bytes the first k records have: where record k begins.
pub fn bytes_to(lens: &[u16], k: usize) -> usize
    requires { (k ≤ length lens.now) × (length lens.now ≤ 32768) }
    ensures is { result ≡ sum (take k lens.now) }
    ensures small { result ≤ 65535 * k }
{
    let mut sum = 0;
    for i in 0..k {
        sum += usize::from(lens[i]);
    }
    sum
}

// How many bytes of an interval the records take: their own, three for each RDF, four for the CIDF.
pub fn need_of(r: Room) -> usize
    requires { (r.bytes < 4294967296) × (r.rdfs < 4294967296) }
    ensures is { result ≡ r.bytes + 3 * r.rdfs + 4 }
    ensures means { (ls : List ℕ) → r ≡ room_of ls → result ≡ need ls }
{
    r.bytes + 3 * r.rdfs + 4
}
