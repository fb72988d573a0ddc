// Where a key leads in a sound index record.
#![tactic(auto)]

ghost use Rattle.std.specs.Prelude.{◌+◌, ◌≤◌, ◌<◌, ◌≡◌, length, take};
ghost use Rattle.fields.specs.Order.{less};
ghost use Rattle.index_find.specs.AidLocate.{Searchable, Leads};

use index_step::BUFFER;
use std::cmp::Ordering;

// The entry that a key leads to: its place among the entries, from 0, and the number of its interval.
#[derive(Clone, Copy)]
pub struct Located {
    pub ordinal: usize,
    pub number: usize,
}

// Whether the first len bytes of buf are below those of key.
pub(crate) fn is_below(buf: &[u8], key: &[u8], len: usize) -> bool
    requires { (len ≤ length buf.now) × (len ≤ length key.now) }
    ensures { result ≡ less (take len buf.now) (take len key.now) }
{
    let Ordering::Less = fields::compare_bytes(&buf[..len], &key[..len]) else {
        return false;
    };
    true
}

// The first entry whose separator is not below as many bytes of the key, in a sound index record of n intervals. Such a
// record's entries all lie where the step looks, and the empty separator of the last stops every key, so the loop never runs out.
pub fn locate(ib: &[u8], n: usize, key: &[u8]) -> Located
    requires { Searchable ib.now n key.now }
    ensures { Leads ib.now n key.now result }
{
    let w = measures::width_for(n);
    let mut buf = [0u8; BUFFER];
    let mut high = [0u8; BUFFER];
    let mut p = index_step::start(ib);
    for i in 0..n {
        let s = index_step::entry_at(ib, w, p);
        index_step::renew(&mut buf, &mut high, ib, s);
        if !is_below(&buf, key, s.front + s.len) {
            return Located {
                ordinal: i,
                number: s.number,
            };
        }
        p = index_step::past(ib, s, p);
    }
    Located {
        ordinal: 0,
        number: 0,
    }
}
