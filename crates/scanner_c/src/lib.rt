// Crate scanner for the scanners' program in C: its functions under their own names, as
// include/belquita.h has them. Each export calls the library's function and states its clauses
// again; tests/uniques.py holds it to that, word for word.
#![tactic(auto)]

ghost use Rattle.std.specs.Prelude.{◌≡◌};
ghost use Rattle.measures.specs.Judgement.{measures};
ghost use Rattle.requests.specs.Reading.{check_of, get_of};
ghost use Rattle.requests.specs.Words.{word_of};
ghost use Rattle.scanner.specs.Told.{GivesWord};

// The record with a key, at the front of the output; of the area only the index record and the interval that the key leads to are judged.
#[unsafe(no_mangle)]
pub extern "C" fn belquita_get(
    size: usize,
    offset: usize,
    key: usize,
    most: usize,
    area: &[u8],
    wanted: &[u8],
    out: &mut [u8],
) -> u64
    ensures { GivesWord (get_of (measures size offset key most) area.now
        wanted.now out.old) result out.new }
{
    scanner::belquita_get(size, offset, key, most, area, wanted, out)
}

// Whether the whole area is sound, with its records and free intervals.
#[unsafe(no_mangle)]
pub extern "C" fn belquita_check(
    size: usize,
    offset: usize,
    key: usize,
    most: usize,
    area: &[u8],
) -> u64
    ensures { result ≡ word_of (check_of (measures size offset key most) area.now) }
{
    scanner::belquita_check(size, offset, key, most, area)
}
