// The writer of a data interval: document 01, 'Data interval'. Every byte of the interval is written.
#![tactic(auto)]

ghost use Rattle.std.specs.Prelude.{◌+◌, ◌-◌, ◌≤◌, ◌<◌, ◌≡◌, length, take};
ghost use Rattle.fields.specs.Bytes.{splice};
ghost use Rattle.fields.specs.Lists.{sum};
ghost use Rattle.room.specs.Room.{groups, need};
ghost use Rattle.interval.specs.Layout.{rdf_bytes, group_bytes, groups_bytes, cidf, form};
ghost use Rattle.interval.specs.Reading.{cut};
ghost use Rattle.rdf.specs.Control.{byte_of};

use rdf::Control;

// Stores an RDF: its kind and its number.
pub(crate) fn put_rdf(ci: &mut [u8], at: usize, kind: Control, num: usize)
    requires { (at + 3 ≤ length ci.old) × (num < 65536) }
    ensures { ci.new ≡ splice ci.old at (rdf_bytes (byte_of kind) num) }
{
    fields::write(ci, at + 1, 2, num);
    ci[at] = rdf::control_byte(kind);
}

// Stores a group's RDFs so that they end at a place, and gives the place where they begin.
pub(crate) fn put_group(ci: &mut [u8], end: usize, len: usize, count: usize) -> usize
    requires { (length (group_bytes record { len = len; count = count }) ≤ end) × (end ≤ length ci.old) × (len < 65536) × (count < 65536) }
    ensures place { result + length (group_bytes record { len = len; count = count }) ≡ end }
    ensures bytes { ci.new ≡ splice ci.old result (group_bytes record { len = len; count = count }) }
{
    if count <= 1 {
        put_rdf(ci, end - 3, Control::Single, len);
        return end - 3;
    }
    // RDFs run right to left: the count of a run stands left of its length.
    put_rdf(ci, end - 3, Control::Paired, len);
    put_rdf(ci, end - 6, Control::Count, count);
    end - 6
}

// Stores the RDFs of records of these lengths so that they end at a place, and gives the place where they begin.
pub(crate) fn write_rdfs(ci: &mut [u8], end: usize, lens: &[u16]) -> usize
    requires { (length (groups_bytes (groups lens.now)) ≤ end) × (end ≤ length ci.old) × (length lens.now < 65536) }
    ensures place { result + length (groups_bytes (groups lens.now)) ≡ end }
    ensures bytes { ci.new ≡ splice ci.old result (groups_bytes (groups lens.now)) }
{
    let mut at = end;
    let mut i = 0;
    while i < lens.len() {
        let count = room::run_at(lens, i);
        at = put_group(ci, at, lens[i] as usize, count);
        i += count;
    }
    at
}

// Stores the CIDF: the displacement to the unused space, and its length with the busy flag off.
pub(crate) fn put_cidf(ci: &mut [u8], at: usize, displacement: usize, unused: usize)
    requires { (at + 4 ≤ length ci.old) × (displacement < 65536) × (unused < 32768) }
    ensures { ci.new ≡ splice ci.old at (cidf displacement unused) }
{
    fields::write(ci, at, 2, displacement);
    fields::write(ci, at + 2, 2, rdf::with_flag(0, unused));
}

// Writes what follows the records of an interval, whose bytes lie at its front: zeros in the unused space, the RDFs of their lengths grouped
// as far as possible, the CIDF. The stores go from the RDFs to the left and then to the end, each beside what is stored.
pub fn close(ci: &mut [u8], displacement: usize, lens: &[u16])
    requires { (need lens.now ≤ length ci.old) × (length ci.old ≤ 32768) × (sum lens.now ≡ displacement) × (length lens.now < 65536) }
    ensures { ci.new ≡ form (length ci.old) (cut (take displacement ci.old) lens.now) }
{
    let end = ci.len() - 4;
    let left = write_rdfs(ci, end, lens);
    fields::fill(ci, displacement, left, 0);
    put_cidf(ci, end, displacement, left - displacement);
}
