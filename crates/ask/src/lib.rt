// One door for every request: which one, its numbers, an area, a second one, what is given, an output, values. The
// answer is a number. `belquita_read` serves the requests that only read, and is lent its areas to read;
// `belquita_ask` serves every request. Neither asks anything of its caller: whatever is lent, each answers, and every
// byte of the lent buffers and every value is said by crates/ask/specs.
#![tactic(auto)]

ghost use Rattle.std.specs.Prelude.{◌≤◌, ◌≡◌, length, get_or, ltb};
ghost use Rattle.fields.specs.Choice.{pick};
ghost use Rattle.fields.specs.Bytes.{splice};
ghost use Rattle.requests.specs.Reading.{Gives};
ghost use Rattle.ask.specs.Told.{eight, told_of, place_told, begun_told, listed};
ghost use Rattle.ask.specs.Kinds.{row, row_of, asked_of};
ghost use Rattle.ask.specs.Asking.{question, numbers_in, place_from, record_given, made, read_made, change_made};
ghost use Rattle.ask.specs.Asking.{left, read_of, ask_of};

use measures::Numbers;
use requests::{Answer, Done, Refusal};
use walk::{Begun, Place};

// The requests that only read. A new one stands last.
#[derive(Clone, Copy)]
pub enum ReadKind {
    Check,
    Get,
    GetAt,
    WalkFrom,
    WalkEnd,
    Step,
    Record,
}

// The requests that change an area. A new one stands last.
#[derive(Clone, Copy)]
pub enum ChangeKind {
    Insert,
    Update,
    Erase,
}

// What is asked for.
#[derive(Clone, Copy)]
pub enum Asked {
    Reads(ReadKind),
    Changes(ChangeKind),
}

// What is said of a kind: which request it is, if any, how many numbers it must have, and whether the fifth is a direction.
#[derive(Clone, Copy)]
pub struct Row {
    pub asks: Option<Asked>,
    pub numbers: usize,
    pub directed: bool,
}

// The number and the eight values, 0 where there are fewer.
#[derive(Clone, Copy)]
pub struct Told {
    pub number: usize,
    pub first: usize,
    pub second: usize,
    pub third: usize,
    pub fourth: usize,
    pub fifth: usize,
    pub sixth: usize,
    pub seventh: usize,
    pub eighth: usize,
}

// An answer with at most two values.
pub(crate) fn two(number: usize, first: usize, second: usize) -> Told
    ensures { result ≡ eight number first second 0 0 0 0 0 0 }
{
    Told {
        number,
        first,
        second,
        third: 0,
        fourth: 0,
        fifth: 0,
        sixth: 0,
        seventh: 0,
        eighth: 0,
    }
}

// The number of an interval written, at its place from 0 among so many; 0 past them.
pub(crate) fn counted(count: usize, place: usize, number: usize) -> usize
    ensures { result ≡ pick (ltb place count) number 0 }
{
    if place < count {
        return number;
    }
    0
}

// An answer: its number, and its values in their order. The refusals that have none are the rest.
pub(crate) fn tell(answer: Answer) -> Told
    ensures { result ≡ told_of answer }
{
    let number = requests::number(answer);
    match answer {
        Ok(Done::Changed(written)) => {
            let count = written.count;
            let second = counted(count, 0, written.first);
            let third = counted(count, 1, written.second);
            let fourth = counted(count, 2, written.third);
            let fifth = counted(count, 3, written.fourth);
            Told {
                number,
                first: count,
                second,
                third,
                fourth,
                fifth,
                sixth: 0,
                seventh: 0,
                eighth: 0,
            }
        }
        Ok(Done::Intact { records, free }) => two(number, records, free),
        Ok(Done::Found(length)) => two(number, length, 0),
        Err(Refusal::Damaged(place)) => two(number, place, 0),
        Err(Refusal::Short(needed)) => two(number, needed, 0),
        Err(_) => two(number, 0, 0),
    }
}

// The place of a walk.
pub(crate) fn standing(p: Place) -> Told
    ensures { result ≡ place_told p }
{
    Told {
        number: 0,
        first: p.entry,
        second: p.start,
        third: p.length,
        fourth: p.left,
        fifth: p.at,
        sixth: p.right,
        seventh: p.end,
        eighth: 0,
    }
}

// A walk that was begun: its place, or the refusal.
pub(crate) fn begun(b: Begun) -> Told
    ensures { result ≡ begun_told b }
{
    match b {
        Ok(place) => standing(place),
        Err(refusal) => tell(Err(refusal)),
    }
}

// The number at a place, 0 past the last: so that no request has to ask how many there are.
pub(crate) fn at(numbers: &[u64], i: usize) -> usize
    ensures { result ≡ get_or numbers.now i 0 }
{
    if i < numbers.len() {
        return numbers[i] as usize;
    }
    0
}

// The four that every kind begins with.
pub(crate) fn numbers_in(numbers: &[u64]) -> Numbers
    ensures { result ≡ numbers_in numbers.now }
{
    Numbers {
        size: at(numbers, 0),
        offset: at(numbers, 1),
        key: at(numbers, 2),
        most: at(numbers, 3),
    }
}

// A walk's place: seven numbers from one on.
pub(crate) fn place_in(numbers: &[u64], from: usize) -> Place
    requires { from ≤ 8 }
    ensures { result ≡ place_from numbers.now from }
{
    Place {
        entry: at(numbers, from),
        start: at(numbers, from + 1),
        length: at(numbers, from + 2),
        left: at(numbers, from + 3),
        at: at(numbers, from + 4),
        right: at(numbers, from + 5),
        end: at(numbers, from + 6),
    }
}

// A row of the table.
pub(crate) fn kind_row(asks: Option<Asked>, numbers: usize, directed: bool) -> Row
    ensures { result ≡ row asks numbers directed }
{
    Row {
        asks,
        numbers,
        directed,
    }
}

// The kinds by their numbers. A new one has the number after the last.
pub(crate) fn row_of(kind: u64) -> Row
    ensures { result ≡ row_of kind }
{
    match kind {
        1 => kind_row(Some(Asked::Reads(ReadKind::Check)), 4, false),
        2 => kind_row(Some(Asked::Reads(ReadKind::Get)), 4, false),
        3 => kind_row(Some(Asked::Reads(ReadKind::GetAt)), 5, false),
        4 => kind_row(Some(Asked::Changes(ChangeKind::Insert)), 4, false),
        5 => kind_row(Some(Asked::Changes(ChangeKind::Update)), 4, false),
        6 => kind_row(Some(Asked::Changes(ChangeKind::Erase)), 4, false),
        7 => kind_row(Some(Asked::Reads(ReadKind::WalkFrom)), 5, true),
        8 => kind_row(Some(Asked::Reads(ReadKind::WalkEnd)), 5, true),
        9 => kind_row(Some(Asked::Reads(ReadKind::Step)), 12, true),
        10 => kind_row(Some(Asked::Reads(ReadKind::Record)), 11, false),
        _ => kind_row(None, 0, false),
    }
}

// What is asked for; nothing where there are too few values or numbers, or a direction is neither 0 nor 1.
pub(crate) fn asked_of(kind: u64, numbers: &[u64], values: usize) -> Option<Asked>
    ensures { result ≡ asked_of kind numbers.now values }
{
    if values < 8 {
        return None;
    }
    let row = row_of(kind);
    if numbers.len() < row.numbers {
        return None;
    }
    if !row.directed {
        return row.asks;
    }
    if 1 < at(numbers, 4) {
        return None;
    }
    row.asks
}

// The record at a place of a walk, at the front of the output; 8 where the output is too short for it.
pub(crate) fn show(area: &[u8], p: Place, out: &mut [u8]) -> Answer
    ensures { Gives (record_given area.now p out.old) result out.new }
{
    let r = walk::walk_record(area, p);
    let long = r.len();
    if out.len() < long {
        return Err(Refusal::Short(long));
    }
    fields::copy(out, 0, r);
    Ok(Done::Found(long))
}

// A request that only reads, on its numbers, and its answer told. One arm for each kind: so it grows with the kinds. None
// of them reads the second area yet.
pub(crate) fn read(
    kind: ReadKind,
    numbers: &[u64],
    area: &[u8],
    second: &[u8],
    given: &[u8],
    out: &mut [u8],
) -> Told
    ensures { made result area.now second.now out.new
        ≡ read_made kind (question numbers.now area.now second.now
        given.now out.old) }
{
    let n = numbers_in(numbers);
    match kind {
        ReadKind::Check => tell(register::check(area, n.size, n.offset, n.key, n.most)),
        ReadKind::Get => tell(register::get(area, n.size, n.offset, n.key, n.most, given, out)),
        ReadKind::GetAt => {
            let address = at(numbers, 4) as u64;
            tell(register::get_at(area, n.size, n.offset, n.key, n.most, address, out))
        }
        ReadKind::WalkFrom => begun(walk::walk_from(area, n, at(numbers, 4) == 1, given)),
        ReadKind::WalkEnd => begun(walk::walk_end(area, n, at(numbers, 4) == 1)),
        ReadKind::Step => {
            let p = place_in(numbers, 5);
            standing(walk::walk_next(area, n.size, at(numbers, 4) == 1, p))
        }
        ReadKind::Record => tell(show(area, place_in(numbers, 4), out)),
    }
}

// A request that changes, on its numbers, and its answer told. One arm for each kind: so it grows with the kinds. None of
// them changes the second area or the output yet.
pub(crate) fn change(
    kind: ChangeKind,
    numbers: &[u64],
    area: &mut [u8],
    second: &mut [u8],
    given: &[u8],
    out: &mut [u8],
) -> Told
    ensures { made result area.new second.new out.new
        ≡ change_made kind (question numbers.now area.old second.old
        given.now out.old) }
{
    let n = numbers_in(numbers);
    match kind {
        ChangeKind::Insert => tell(register::insert(area, n.size, n.offset, n.key, n.most, given)),
        ChangeKind::Update => tell(register::update(area, n.size, n.offset, n.key, n.most, given)),
        ChangeKind::Erase => tell(register::erase(area, n.size, n.offset, n.key, n.most, given)),
    }
}

// The values, at the front.
pub(crate) fn put(values: &mut [u64], t: Told)
    requires { 8 ≤ length values.old }
    ensures { values.new ≡ splice values.old 0 (listed t) }
{
    values[0] = t.first as u64;
    values[1] = t.second as u64;
    values[2] = t.third as u64;
    values[3] = t.fourth as u64;
    values[4] = t.fifth as u64;
    values[5] = t.sixth as u64;
    values[6] = t.seventh as u64;
    values[7] = t.eighth as u64;
}

// The door for requests that only read. 255 where what is asked for is not there or changes an area: then nothing is
// changed.
#[unsafe(no_mangle)]
pub extern "C" fn belquita_read(
    kind: u64,
    numbers: &[u64],
    area: &[u8],
    second: &[u8],
    given: &[u8],
    out: &mut [u8],
    values: &mut [u64],
) -> u64
    ensures { left result area.now second.now out.new values.new
        ≡ read_of kind (question numbers.now area.now second.now
        given.now out.old) values.old }
{
    let Some(Asked::Reads(k)) = asked_of(kind, numbers, values.len()) else {
        return 255;
    };
    let t = read(k, numbers, area, second, given, out);
    put(values, t);
    t.number as u64
}

// The door for every request. What does not change an area is handed on: 255 where it is not there.
#[unsafe(no_mangle)]
pub extern "C" fn belquita_ask(
    kind: u64,
    numbers: &[u64],
    area: &mut [u8],
    second: &mut [u8],
    given: &[u8],
    out: &mut [u8],
    values: &mut [u64],
) -> u64
    ensures { left result area.new second.new out.new values.new
        ≡ ask_of kind (question numbers.now area.old second.old
        given.now out.old) values.old }
{
    let Some(Asked::Changes(k)) = asked_of(kind, numbers, values.len()) else {
        return belquita_read(kind, numbers, area, second, given, out, values);
    };
    let t = change(k, numbers, area, second, given, out);
    put(values, t);
    t.number as u64
}
