// The register for the scanners' program in C: check and get by key, on numbers and byte buffers. include/belquita.h is what that program sees of it.
#![tactic(auto)]

ghost use Rattle.std.specs.Prelude.{◌+◌, ◌*◌, ◌≤◌, ◌<◌, ◌≡◌};
ghost use Rattle.measures.specs.Judgement.{limit, measures};
ghost use Rattle.requests.specs.Reading.{check_of, get_of};
ghost use Rattle.requests.specs.Words.{word_of, Small};
ghost use Rattle.scanner.specs.Told.{GivesWord};

use requests::{Answer, Done, Refusal};

// A number and two values as one number: the lowest byte, the next two, and what lies above them.
pub(crate) fn joined(number: usize, small: usize, large: usize) -> u64
    requires { (number < 256) × (small ≤ limit) × (large < 134217728) }
    ensures { result ≡ number + 256 * small + 16777216 * large }
{
    number as u64 + 256 * small as u64 + 16777216 * large as u64
}

// An answer as one number.
#[tactic(auto, unfolding(requests::specs::Words::word_of))]
pub(crate) fn word(answer: Answer) -> u64
    requires { Small answer }
    ensures { result ≡ word_of answer }
{
    let number = requests::number(answer);
    match answer {
        Ok(Done::Found(length)) => joined(number, 0, length),
        Ok(Done::Intact { records, free }) => joined(number, free, records),
        Err(Refusal::Damaged(place)) => joined(number, place, 0),
        Err(Refusal::Short(needed)) => joined(number, 0, needed),
        _ => joined(number, 0, 0),
    }
}

// The record with a key, at the front of the output; of the area only the index record and the interval that the key leads to are judged.
#[unsafe(no_mangle)]
pub extern "C" fn belquita_get(
    size: usize,
    offset: usize,
    key: usize,
    most: usize,
    area: &[u8],
    wanted: &[u8],
    out: &mut [u8],
) -> u64
    ensures { GivesWord (get_of (measures size offset key most) area.now
        wanted.now out.old) result out.new }
{
    word(register::get(area, size, offset, key, most, wanted, out))
}

// Whether the whole area is sound, with its records and free intervals.
#[unsafe(no_mangle)]
pub extern "C" fn belquita_check(
    size: usize,
    offset: usize,
    key: usize,
    most: usize,
    area: &[u8],
) -> u64
    ensures { result ≡ word_of (check_of (measures size offset key most) area.now) }
{
    word(register::check(area, size, offset, key, most))
}
