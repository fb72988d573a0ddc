// A record of a sound area, sought by its key or by its address.
#![tactic(auto)]

ghost use Rattle.std.specs.Prelude.{◌+◌, ◌≡◌, length};
ghost use Rattle.measures.specs.Judgement.{Fits};
ghost use Rattle.area_find.specs.AidSought.{Whole, Sought, sought_at, Inside};

use area::Lying;
use interval::Found;
use measures::Measures;

// Where a key belongs: the entry that it leads to, that entry's interval, and the key's place among the records there.
#[derive(Clone, Copy)]
pub struct KeyPlace {
    pub entry: usize,
    pub number: usize,
    pub found: Found,
}

// The place of a key: the index record leads to one interval, and only that one is searched.
pub fn find(area: &[u8], m: Measures, n: usize, key: &[u8]) -> KeyPlace
    requires { Fits m n (length area.now) × Whole m n area.now × (length key.now ≡ m.key) }
    ensures { Sought m n area.now key.now result }
{
    let size = m.size;
    let located = index_find::locate(&area[..size], n, key);
    let number = located.number;
    let a = (number + 1) * size;
    let e = a + size;
    let found = interval_find::find(&area[a..e], m, key);
    KeyPlace {
        entry: located.ordinal,
        number,
        found,
    }
}

// The record at an address, if one begins there. An address is the base, then the interval's number times its size, then the place in it;
// it is compared in full, so that no large number is taken for a smaller one.
pub fn record_at(area: &[u8], m: Measures, n: usize, address: u64) -> Option<Lying>
    requires { Fits m n (length area.now) × Whole m n area.now }
    ensures is { result ≡ sought_at m n area.now address }
    ensures inside { Inside (length area.now) result }
{
    let size = m.size;
    let base = index_read::base_of(&area[..size]);
    let wanted = address as usize;
    if wanted < base {
        return None;
    }
    let number = (wanted - base) / size;
    let place = (wanted - base) % size;
    if n <= number {
        return None;
    }
    let a = (number + 1) * size;
    let e = a + size;
    let Some(length) = interval_find::record_at(&area[a..e], m, place) else {
        return None;
    };
    Some(Lying {
        from: a + place,
        length,
    })
}
