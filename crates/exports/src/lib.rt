// The register for programs in C: every request on numbers and byte buffers, for tests and measurements. Below the requests stand
// three functions of lower floors that are worth timing alone; each asks what the function that it calls asks.
#![tactic(auto)]

pub mod walks;

ghost use Rattle.std.specs.Prelude.{◌≡◌, ◌≤◌, length, nat_lt};
ghost use Rattle.fields.specs.Choice.{pick};
ghost use Rattle.measures.specs.Judgement.{limit, measures};
ghost use Rattle.interval.specs.Reading.{Readable};
ghost use Rattle.index_read.specs.Check.{index_of};
ghost use Rattle.index_find.specs.AidLocate.{Searchable, Leads};
ghost use Rattle.requests.specs.Reading.{check_of, get_of, get_at_of};
ghost use Rattle.requests.specs.Changing.{insert_of, update_of, erase_of};
ghost use Rattle.exports.specs.Values.{values, values_told, index_told, Told, Given, Made, place_in};

use interval::Found;
use measures::Measures;
use requests::{Answer, Done, Refusal};

// An answer as C reads it: its number, and the values that come with it, 0 where there are fewer.
#[derive(Clone, Copy)]
pub struct Values {
    pub number: usize,
    pub first: usize,
    pub second: usize,
    pub third: usize,
    pub fourth: usize,
    pub fifth: usize,
}

pub(crate) fn told(answer: Answer) -> Values
    ensures { result ≡ values_told answer }
{
    let number = requests::number(answer);
    match answer {
        Ok(Done::Changed(written)) => {
            let count = written.count;
            let second = counted(count, 0, written.first);
            let third = counted(count, 1, written.second);
            let fourth = counted(count, 2, written.third);
            let fifth = counted(count, 3, written.fourth);
            Values {
                number,
                first: count,
                second,
                third,
                fourth,
                fifth,
            }
        }
        Ok(Done::Found(length)) => one(number, length),
        Ok(Done::Intact { records, free }) => Values {
            number,
            first: records,
            second: free,
            third: 0,
            fourth: 0,
            fifth: 0,
        },
        Err(Refusal::Damaged(place)) => one(number, place),
        Err(Refusal::Short(needed)) => one(number, needed),
        Err(_) => one(number, 0),
    }
}

// An answer with at most one value.
pub(crate) fn one(number: usize, value: usize) -> Values
    ensures { result ≡ values number value 0 }
{
    Values {
        number,
        first: value,
        second: 0,
        third: 0,
        fourth: 0,
        fifth: 0,
    }
}

// The number of an interval written, at its place from 0 among so many; 0 past them.
pub(crate) fn counted(count: usize, place: usize, number: usize) -> usize
    ensures { result ≡ pick (nat_lt place count) number 0 }
{
    if place < count {
        return number;
    }
    0
}

// Whether the area is sound, with its records and free intervals.
#[unsafe(no_mangle)]
pub extern "C" fn belquita_check(
    area: &[u8],
    size: usize,
    offset: usize,
    key: usize,
    most: usize,
    first: &mut usize,
    second: &mut usize,
) -> usize
    ensures { Told (check_of (measures size offset key most) area.now)
        result first.new second.new }
{
    let v = told(register::check(area, size, offset, key, most));
    *first = v.first;
    *second = v.second;
    v.number
}

// The record with a key, at the front of the output.
#[unsafe(no_mangle)]
pub extern "C" fn belquita_get(
    area: &[u8],
    size: usize,
    offset: usize,
    key: usize,
    most: usize,
    wanted: &[u8],
    out: &mut [u8],
    value: &mut usize,
) -> usize
    ensures { Given (get_of (measures size offset key most) area.now
        wanted.now out.old) result value.new out.new }
{
    let v = told(register::get(area, size, offset, key, most, wanted, out));
    *value = v.first;
    v.number
}

// The record at an address, at the front of the output.
#[unsafe(no_mangle)]
pub extern "C" fn belquita_get_at(
    area: &[u8],
    size: usize,
    offset: usize,
    key: usize,
    most: usize,
    address: u64,
    out: &mut [u8],
    value: &mut usize,
) -> usize
    ensures { Given (get_at_of (measures size offset key most) area.now
        address out.old) result value.new out.new }
{
    let v = told(register::get_at(area, size, offset, key, most, address, out));
    *value = v.first;
    v.number
}

// A new record. The values of a change: how many intervals were written, then their buffer numbers.
#[unsafe(no_mangle)]
pub extern "C" fn belquita_insert(
    area: &mut [u8],
    size: usize,
    offset: usize,
    key: usize,
    most: usize,
    new: &[u8],
    value: &mut usize,
    first: &mut usize,
    second: &mut usize,
    third: &mut usize,
    fourth: &mut usize,
) -> usize
    ensures { Made (insert_of (measures size offset key most) area.old new.now)
        result value.new first.new second.new third.new fourth.new
        area.new }
{
    let v = told(register::insert(area, size, offset, key, most, new));
    *value = v.first;
    *first = v.second;
    *second = v.third;
    *third = v.fourth;
    *fourth = v.fifth;
    v.number
}

// Another record in place of the one with its key.
#[unsafe(no_mangle)]
pub extern "C" fn belquita_update(
    area: &mut [u8],
    size: usize,
    offset: usize,
    key: usize,
    most: usize,
    new: &[u8],
    value: &mut usize,
    first: &mut usize,
    second: &mut usize,
    third: &mut usize,
    fourth: &mut usize,
) -> usize
    ensures { Made (update_of (measures size offset key most) area.old new.now)
        result value.new first.new second.new third.new fourth.new
        area.new }
{
    let v = told(register::update(area, size, offset, key, most, new));
    *value = v.first;
    *first = v.second;
    *second = v.third;
    *third = v.fourth;
    *fourth = v.fifth;
    v.number
}

// The record with a key taken out.
#[unsafe(no_mangle)]
pub extern "C" fn belquita_erase(
    area: &mut [u8],
    size: usize,
    offset: usize,
    key: usize,
    most: usize,
    wanted: &[u8],
    value: &mut usize,
    first: &mut usize,
    second: &mut usize,
    third: &mut usize,
    fourth: &mut usize,
) -> usize
    ensures { Made (erase_of (measures size offset key most) area.old wanted.now)
        result value.new first.new second.new third.new fourth.new
        area.new }
{
    let v = told(register::erase(area, size, offset, key, most, wanted));
    *value = v.first;
    *first = v.second;
    *second = v.third;
    *third = v.fourth;
    *fourth = v.fifth;
    v.number
}

// The place of a key among the records of one sound interval: 1 and the record's ordinal and start, or 0 and those of the gap.
#[unsafe(no_mangle)]
pub extern "C" fn belquita_find(
    ci: &[u8],
    offset: usize,
    key: usize,
    most: usize,
    wanted: &[u8],
    ordinal: &mut usize,
    start: &mut usize,
) -> usize
    requires sound { Readable (measures (length ci.now) offset key most) ci.now }
    requires keyed { length wanted.now ≡ key }
    requires small { offset ≤ 32768 }
    ensures { values result ordinal.new start.new ≡ place_in ci.now offset key most wanted.now }
{
    let m = Measures {
        size: ci.len(),
        offset,
        key,
        least: offset + key,
        most,
    };
    match interval_find::find(ci, m, wanted) {
        Found::At {
            ordinal: i,
            start: at,
            length: _,
        } => {
            *ordinal = i;
            *start = at;
            1
        }
        Found::Gap {
            ordinal: i,
            start: at,
        } => {
            *ordinal = i;
            *start = at;
            0
        }
    }
}

// Whether an index record is sound: 1 and how many free numbers and entries it has, or 0.
#[unsafe(no_mangle)]
pub extern "C" fn belquita_index(
    ib: &[u8],
    key: usize,
    n: usize,
    free: &mut usize,
    entries: &mut usize,
) -> usize
    requires { (31 ≤ length ib.now) × (length ib.now ≤ 32768) × (1 ≤ key) × (key ≤ 255) × (n ≤ limit) }
    ensures { values result free.new entries.new ≡ index_told (index_of key n ib.now) }
{
    let Some(index) = index_read::check(ib, key, n) else {
        *free = 0;
        *entries = 0;
        return 0;
    };
    *free = index.free;
    *entries = index.entries;
    1
}

// The entry of a sound index record that a key leads to: its ordinal, and the number of its interval.
#[unsafe(no_mangle)]
pub extern "C" fn belquita_locate(ib: &[u8], n: usize, wanted: &[u8], number: &mut usize) -> usize
    requires { Searchable ib.now n wanted.now }
    ensures { Leads ib.now n wanted.now record { ordinal = result; number = number.new } }
{
    let located = index_find::locate(ib, n, wanted);
    *number = located.number;
    located.ordinal
}
