// Where an interval's records are edited, and their lengths once they are.
#![tactic(auto)]

ghost use Rattle.std.specs.Prelude.{◌≡◌, length};
ghost use Rattle.fields.specs.Bytes.{splice};
ghost use Rattle.interval_edit.specs.AidChanged.{Tellable, old_lengths, new_lengths};

use measures::Measures;

// Where an edit is made: an entry and the number of its interval; the `gone` records from `ordinal` on, whose `span` bytes begin at `start`.
#[derive(Clone, Copy)]
pub struct Site {
    pub entry: usize,
    pub number: usize,
    pub ordinal: usize,
    pub start: usize,
    pub gone: usize,
    pub span: usize,
}

// The lengths of an interval's records with an edit made, at the front of a buffer; the answer is how many. A record of `comes` bytes comes,
// none if that is 0. The old lengths are told there first, and edited in place: where one has gone, the last stays behind.
pub fn lengths(ci: &[u8], m: Measures, site: Site, comes: usize, lens: &mut [u16]) -> usize
    requires { Tellable m ci.now site comes lens.old }
    ensures count { result ≡ length (new_lengths ci.now site comes) }
    ensures list { lens.new ≡ splice (splice lens.old 0 (old_lengths ci.now)) 0 (new_lengths ci.now site comes) }
{
    let at = site.ordinal;
    let many = interval_find::lengths_out(ci, m, lens);
    if comes == 0 {
        if site.gone == 0 {
            return many;
        }
        lens.copy_within(at + 1..many, at);
        return many - 1;
    }
    if site.gone == 1 {
        lens[at] = comes as u16;
        return many;
    }
    lens.copy_within(at..many, at + 1);
    lens[at] = comes as u16;
    many + 1
}
