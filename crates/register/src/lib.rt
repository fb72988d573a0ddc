// The register: the requests that a depot may make of a control area. None of them asks anything of its caller; whatever is lent,
// each answers, and a refusal leaves area and output byte for byte as they were.
#![tactic(auto)]

ghost use Rattle.std.specs.Prelude.{◌+◌, ◌≤◌, ◌≡◌, [], ◌∷◌, Err, length};
ghost use Rattle.fields.specs.Choice.{pick};
ghost use Rattle.fields.specs.Bytes.{part};
ghost use Rattle.measures.specs.Judgement.{Fits, measures, asked};
ghost use Rattle.area.specs.Leads.{index_sound};
ghost use Rattle.area_find.specs.AidSought.{Whole};
ghost use Rattle.requests.specs.Reading.{check_of, get_in, get_of, get_at_in, get_at_of, hand_out, Gives};
ghost use Rattle.requests.specs.Changing.{change_in, change_of, insert_of, update_of, erase_of, Makes};
ghost use Rattle.requests.specs.declared.Refusal.TheVariants.{Absent, WrongLength, Damaged};
ghost use Rattle.register.specs.AidTold.{answer_for, GivesIn, MakesIn};
ghost use Rattle.register.specs.AidChange.{change_for, change_at, MakesKeyed, aim_of, Asked};

use area_find::KeyPlace;
use change::{Full, Written};
use interval::Found;
use interval_edit::Site;
use measures::{Measures, Numbers};
use requests::{Answer, Done, Refusal};

// Whether the area is sound, with how many records and free intervals it has: refusals 1 and 2.
pub fn check(area: &[u8], size: usize, offset: usize, key: usize, most: usize) -> Answer
    ensures { result ≡ check_of (measures size offset key most) area.now }
{
    let numbers = Numbers {
        size,
        offset,
        key,
        most,
    };
    let whole = opening::open(area, numbers)?;
    Ok(Done::Intact {
        records: whole.records,
        free: whole.free,
    })
}

// A record of the area at the front of the output, or refusal 8 with the length that it needs.
pub(crate) fn hand_out(area: &[u8], from: usize, bytes: usize, out: &mut [u8]) -> Answer
    requires { from + bytes ≤ length area.now }
    ensures { Gives (hand_out (Err Absent) (part area.now from bytes ∷ []) out.old) result out.new }
{
    if out.len() < bytes {
        return Err(Refusal::Short(bytes));
    }
    let to = from + bytes;
    fields::copy(out, 0, &area[from..to]);
    Ok(Done::Found(bytes))
}

// A key of a wrong length: 3, if the index record is sound. Where the key would lead is then not known, so that no data interval is looked at.
pub(crate) fn wrong_length(area: &[u8], m: Measures, n: usize) -> Answer
    requires { Fits m n (length area.now) }
    ensures { result ≡ pick (index_sound m n area.now) (Err WrongLength) (Err (Damaged 0)) }
{
    let size = m.size;
    let Some(_) = index_read::check(&area[..size], m.key, n) else {
        return Err(Refusal::Damaged(0));
    };
    Err(Refusal::WrongLength)
}

// The record with a key, of an area whose measures were found right. Only the index record and the interval that the key leads to are judged.
pub(crate) fn get_in(area: &[u8], m: Measures, n: usize, wanted: &[u8], out: &mut [u8]) -> Answer
    requires { Fits m n (length area.now) }
    ensures { Gives (get_in m n area.now wanted.now out.old) result out.new }
{
    if wanted.len() != m.key {
        return wrong_length(area, m, n);
    }
    let Some(lying) = area_seek::look_up(area, m, n, wanted)? else {
        return Err(Refusal::Absent);
    };
    hand_out(area, lying.from, lying.length, out)
}

// The record with a key: refusals 1, 2 at the index record, 3, 2 at the interval that the key leads to, 5, 8. It vouches for these two places only: a caller
// who wants to know of the whole area asks for the check. Done writes the record at the front of the output; later bytes of the output stay.
pub fn get(
    area: &[u8],
    size: usize,
    offset: usize,
    key: usize,
    most: usize,
    wanted: &[u8],
    out: &mut [u8],
) -> Answer
    ensures { Gives (get_of (measures size offset key most) area.now
        wanted.now out.old) result out.new }
{
    let numbers = Numbers {
        size,
        offset,
        key,
        most,
    };
    let Some(fine) = measures::judge(numbers, area.len()) else {
        return Err(Refusal::Outside);
    };
    get_in(area, fine.measures, fine.count, wanted, out)
}

// In a sound area, the record at an address.
pub(crate) fn get_at_in(area: &[u8], m: Measures, n: usize, address: u64, out: &mut [u8]) -> Answer
    requires { Fits m n (length area.now) × Whole m n area.now }
    ensures { GivesIn m n area.now (λ c. get_at_in m c address out.old) result out.new }
{
    let Some(lying) = area_find::record_at(area, m, n, address) else {
        return Err(Refusal::NoRecord);
    };
    hand_out(area, lying.from, lying.length, out)
}

// The record at an address: refusals 1, 2, 9, 8.
pub fn get_at(
    area: &[u8],
    size: usize,
    offset: usize,
    key: usize,
    most: usize,
    address: u64,
    out: &mut [u8],
) -> Answer
    ensures { Gives (get_at_of (measures size offset key most) area.now
        address out.old) result out.new }
{
    let numbers = Numbers {
        size,
        offset,
        key,
        most,
    };
    let whole = opening::open(area, numbers)?;
    get_at_in(area, whole.measures, whole.count, address, out)
}

// Which change is asked for.
#[derive(Clone, Copy)]
pub(crate) enum Kind {
    Insert,
    Update,
    Erase,
}

// Where a change is made: 4 where a record has the key of one that is to come, 5 where none has the key of one that is to make way or to go.
pub(crate) fn take_aim(kind: Kind, spot: KeyPlace) -> Result<Site, Refusal>
    ensures { result ≡ aim_of kind spot }
{
    let entry = spot.entry;
    let number = spot.number;
    let found = spot.found;
    match found {
        Found::Gap { ordinal, start } => {
            let Kind::Insert = kind else {
                return Err(Refusal::Absent);
            };
            Ok(Site {
                entry,
                number,
                ordinal,
                start,
                gone: 0,
                span: 0,
            })
        }
        Found::At {
            ordinal,
            start,
            length,
        } => {
            if let Kind::Insert = kind {
                return Err(Refusal::Present);
            }
            Ok(Site {
                entry,
                number,
                ordinal,
                start,
                gone: 1,
                span: length,
            })
        }
    }
}

// What a change that was carried out is answered with.
pub(crate) fn told(made: Result<Written, Full>) -> Answer
    ensures { result ≡ answer_for made }
{
    match made {
        Ok(written) => Ok(Done::Changed(written)),
        Err(Full::NoInterval) => Err(Refusal::NoInterval),
        Err(Full::NoRoom) => Err(Refusal::NoRoom),
    }
}

// In a sound area, a change of the record with a key; bytes of a length that was found right.
pub(crate) fn change_at(
    area: &mut [u8],
    m: Measures,
    n: usize,
    kind: Kind,
    key: &[u8],
    new: &[u8],
) -> Answer
    requires fits { Fits m n (length area.old) × Whole m n area.old }
    requires asked { Asked m kind key.now new.now }
    ensures { MakesKeyed m n area.old (change_at kind key.now new.now) result area.new }
{
    let site = take_aim(kind, area_find::find(area, m, n, key))?;
    told(change_write::change(area, m, n, site, new))
}

// In a sound area, a change with the bytes that are handed over: a record, or the key of the one that is to go.
pub(crate) fn change_in(area: &mut [u8], m: Measures, n: usize, kind: Kind, given: &[u8]) -> Answer
    requires { Fits m n (length area.old) × Whole m n area.old }
    ensures { MakesIn m n area.old (λ c. change_in m c area.old (change_for kind given.now)) result area.new }
{
    if let Kind::Erase = kind {
        if given.len() != m.key {
            return Err(Refusal::WrongLength);
        }
        return change_at(area, m, n, kind, given, &given[..0]);
    }
    if given.len() < m.least || m.most < given.len() {
        return Err(Refusal::WrongLength);
    }
    let a = m.offset;
    let e = a + m.key;
    change_at(area, m, n, kind, &given[a..e], given)
}

// A change, of whichever kind.
pub(crate) fn change(area: &mut [u8], numbers: Numbers, kind: Kind, given: &[u8]) -> Answer
    ensures { Makes (change_of (asked numbers) area.old (change_for kind given.now))
        result area.new }
{
    let whole = opening::open(area, numbers)?;
    change_in(area, whole.measures, whole.count, kind, given)
}

// A new record: refusals 1, 2, 3, 4, 6, 7.
pub fn insert(
    area: &mut [u8],
    size: usize,
    offset: usize,
    key: usize,
    most: usize,
    new: &[u8],
) -> Answer
    ensures { Makes (insert_of (measures size offset key most) area.old new.now)
        result area.new }
{
    let numbers = Numbers {
        size,
        offset,
        key,
        most,
    };
    change(area, numbers, Kind::Insert, new)
}

// Another record in place of the one with its key: refusals 1, 2, 3, 5, 6, 7.
pub fn update(
    area: &mut [u8],
    size: usize,
    offset: usize,
    key: usize,
    most: usize,
    new: &[u8],
) -> Answer
    ensures { Makes (update_of (measures size offset key most) area.old new.now)
        result area.new }
{
    let numbers = Numbers {
        size,
        offset,
        key,
        most,
    };
    change(area, numbers, Kind::Update, new)
}

// The record with a key taken out: refusals 1, 2, 3, 5. It never divides and never touches the index record.
pub fn erase(
    area: &mut [u8],
    size: usize,
    offset: usize,
    key: usize,
    most: usize,
    wanted: &[u8],
) -> Answer
    ensures { Makes (erase_of (measures size offset key most) area.old wanted.now)
        result area.new }
{
    let numbers = Numbers {
        size,
        offset,
        key,
        most,
    };
    change(area, numbers, Kind::Erase, wanted)
}
