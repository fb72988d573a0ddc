// Crate exports for programs in C: its functions under their own names. Each export calls the
// library's function and states its clauses again; tests/uniques.py holds it to that, word for word.
#![tactic(auto)]

mod walks;

ghost use Rattle.std.specs.Prelude.{◌≡◌, ◌≤◌, length};
ghost use Rattle.measures.specs.Judgement.{limit, measures};
ghost use Rattle.interval.specs.Reading.{Readable};
ghost use Rattle.index_read.specs.Check.{index_of};
ghost use Rattle.index_find.specs.AidLocate.{Searchable, Leads};
ghost use Rattle.requests.specs.Reading.{check_of, get_of, get_at_of};
ghost use Rattle.requests.specs.Changing.{insert_of, update_of, erase_of};
ghost use Rattle.exports.specs.Values.{values, index_told, Told, Given, Made, place_in};

// Whether the area is sound, with its records and free intervals.
#[unsafe(no_mangle)]
pub extern "C" fn belquita_check(
    area: &[u8],
    size: usize,
    offset: usize,
    key: usize,
    most: usize,
    first: &mut usize,
    second: &mut usize,
) -> usize
    ensures { Told (check_of (measures size offset key most) area.now)
        result first.new second.new }
{
    exports::belquita_check(area, size, offset, key, most, first, second)
}

// The record with a key, at the front of the output.
#[unsafe(no_mangle)]
pub extern "C" fn belquita_get(
    area: &[u8],
    size: usize,
    offset: usize,
    key: usize,
    most: usize,
    wanted: &[u8],
    out: &mut [u8],
    value: &mut usize,
) -> usize
    ensures { Given (get_of (measures size offset key most) area.now
        wanted.now out.old) result value.new out.new }
{
    exports::belquita_get(area, size, offset, key, most, wanted, out, value)
}

// The record at an address, at the front of the output.
#[unsafe(no_mangle)]
pub extern "C" fn belquita_get_at(
    area: &[u8],
    size: usize,
    offset: usize,
    key: usize,
    most: usize,
    address: u64,
    out: &mut [u8],
    value: &mut usize,
) -> usize
    ensures { Given (get_at_of (measures size offset key most) area.now
        address out.old) result value.new out.new }
{
    exports::belquita_get_at(area, size, offset, key, most, address, out, value)
}

// A new record. The values of a change: how many intervals were written, then their buffer numbers.
#[unsafe(no_mangle)]
pub extern "C" fn belquita_insert(
    area: &mut [u8],
    size: usize,
    offset: usize,
    key: usize,
    most: usize,
    new: &[u8],
    value: &mut usize,
    first: &mut usize,
    second: &mut usize,
    third: &mut usize,
    fourth: &mut usize,
) -> usize
    ensures { Made (insert_of (measures size offset key most) area.old new.now)
        result value.new first.new second.new third.new fourth.new
        area.new }
{
    exports::belquita_insert(
        area, size, offset, key, most, new, value, first, second, third, fourth,
    )
}

// Another record in place of the one with its key.
#[unsafe(no_mangle)]
pub extern "C" fn belquita_update(
    area: &mut [u8],
    size: usize,
    offset: usize,
    key: usize,
    most: usize,
    new: &[u8],
    value: &mut usize,
    first: &mut usize,
    second: &mut usize,
    third: &mut usize,
    fourth: &mut usize,
) -> usize
    ensures { Made (update_of (measures size offset key most) area.old new.now)
        result value.new first.new second.new third.new fourth.new
        area.new }
{
    exports::belquita_update(
        area, size, offset, key, most, new, value, first, second, third, fourth,
    )
}

// The record with a key taken out.
#[unsafe(no_mangle)]
pub extern "C" fn belquita_erase(
    area: &mut [u8],
    size: usize,
    offset: usize,
    key: usize,
    most: usize,
    wanted: &[u8],
    value: &mut usize,
    first: &mut usize,
    second: &mut usize,
    third: &mut usize,
    fourth: &mut usize,
) -> usize
    ensures { Made (erase_of (measures size offset key most) area.old wanted.now)
        result value.new first.new second.new third.new fourth.new
        area.new }
{
    exports::belquita_erase(
        area, size, offset, key, most, wanted, value, first, second, third, fourth,
    )
}

// The place of a key among the records of one sound interval: 1 and the record's ordinal and start, or 0 and those of the gap.
#[unsafe(no_mangle)]
pub extern "C" fn belquita_find(
    ci: &[u8],
    offset: usize,
    key: usize,
    most: usize,
    wanted: &[u8],
    ordinal: &mut usize,
    start: &mut usize,
) -> usize
    requires sound { Readable (measures (length ci.now) offset key most) ci.now }
    requires keyed { length wanted.now ≡ key }
    requires small { offset ≤ 32768 }
    ensures { values result ordinal.new start.new ≡ place_in ci.now offset key most wanted.now }
{
    exports::belquita_find(ci, offset, key, most, wanted, ordinal, start)
}

// Whether an index record is sound: 1 and how many free numbers and entries it has, or 0.
#[unsafe(no_mangle)]
pub extern "C" fn belquita_index(
    ib: &[u8],
    key: usize,
    n: usize,
    free: &mut usize,
    entries: &mut usize,
) -> usize
    requires { (31 ≤ length ib.now) × (length ib.now ≤ 32768) × (1 ≤ key) × (key ≤ 255) × (n ≤ limit) }
    ensures { values result free.new entries.new ≡ index_told (index_of key n ib.now) }
{
    exports::belquita_index(ib, key, n, free, entries)
}

// The entry of a sound index record that a key leads to: its ordinal, and the number of its interval.
#[unsafe(no_mangle)]
pub extern "C" fn belquita_locate(ib: &[u8], n: usize, wanted: &[u8], number: &mut usize) -> usize
    requires { Searchable ib.now n wanted.now }
    ensures { Leads ib.now n wanted.now record { ordinal = result; number = number.new } }
{
    exports::belquita_locate(ib, n, wanted, number)
}
