// One request, its answer, and what came to its output or became of the area.
ghost use Rattle.std.specs.Prelude.{◌<◌, ◌≤◌, length};

use crate::script::Ask;
use crate::{print, walks};
use change::Written;
use measures::Numbers;
use requests::{Answer, Done, Refusal};
use std::cmp::Ordering;

pub(crate) fn value(n: usize) {
    print::words(b" ");
    print::number(n);
}

// How many intervals were written, and their buffer numbers.
fn numbers(written: Written) {
    let count = written.count;
    value(count);
    if 0 < count {
        value(written.first);
    }
    if 1 < count {
        value(written.second);
    }
    if 2 < count {
        value(written.third);
    }
    if 3 < count {
        value(written.fourth);
    }
}

// The request's word, the answer's number and its values.
fn told(word: &[u8], answer: Answer) {
    print::words(word);
    value(requests::number(answer));
    match answer {
        Ok(Done::Changed(written)) => numbers(written),
        Ok(Done::Found(length)) => value(length),
        Ok(Done::Intact { records, free }) => {
            value(records);
            value(free);
        }
        Err(Refusal::Short(length)) => value(length),
        Err(Refusal::Damaged(place)) => value(place),
        Err(_) => {}
    }
    print::words(b"\n");
}

// What ends a line that was begun: a colon and bytes.
fn listed(bytes: &[u8]) {
    print::words(b":");
    print::bytes(bytes);
    print::words(b"\n");
}

// A unit of the area, the index or a data interval by its number, where it is another than before.
fn compared(unit: &[u8], old: &[u8], place: usize) {
    if let Ordering::Equal = fields::compare(unit, old) {
        return;
    }
    print::words(b"    ");
    if place == 0 {
        print::words(b"index");
    } else {
        print::number(place - 1);
    }
    listed(unit);
}

// What the area is compared by: intervals; where the size cannot be theirs, units of 512.
fn unit_of(size: usize) -> usize
    ensures { 0 < result }
{
    if size == 0 || 32768 < size {
        return 512;
    }
    size
}

fn altered(area: &[u8], old: &[u8], size: usize)
    requires { length area.now ≤ length old.now }
{
    let unit = unit_of(size);
    let mut place = 0;
    let mut at = 0;
    while unit <= area.len() - at {
        let end = at + unit;
        compared(&area[at..end], &old[at..end], place);
        place += 1;
        at = end;
    }
}

fn change(area: &mut [u8], letter: u8, n: Numbers, given: &[u8]) {
    match letter {
        b'I' => told(
            b"  insert:",
            register::insert(area, n.size, n.offset, n.key, n.most, given),
        ),
        b'U' => told(
            b"  update:",
            register::update(area, n.size, n.offset, n.key, n.most, given),
        ),
        _ => told(
            b"  erase:",
            register::erase(area, n.size, n.offset, n.key, n.most, given),
        ),
    }
}

// A change, and what it altered: for that the area is kept as it was before. The buffer for it is never too short, as long as both are
// made with one length.
fn changed(area: &mut [u8], old: &mut [u8], ask: Ask, given: &[u8]) {
    if old.len() < area.len() {
        return;
    }
    fields::copy(old, 0, area);
    let n = ask.numbers;
    change(area, ask.letter, n, given);
    altered(area, old, n.size);
}

// The whole output: what was found at its front, and the bytes behind that.
fn output(out: &[u8]) {
    if 0 < out.len() {
        print::words(b"    out");
        listed(out);
    }
}

fn read(area: &[u8], ask: Ask, given: &[u8], out: &mut [u8]) {
    let n = ask.numbers;
    let letter = ask.letter;
    match letter {
        b'C' => told(
            b"  check:",
            register::check(area, n.size, n.offset, n.key, n.most),
        ),
        b'G' => {
            told(
                b"  get:",
                register::get(area, n.size, n.offset, n.key, n.most, given, out),
            );
            output(out);
        }
        _ => {
            told(
                b"  get at:",
                register::get_at(area, n.size, n.offset, n.key, n.most, ask.address, out),
            );
            output(out);
        }
    }
}

// Serves a request of the area that it is lent, and gives whether there is one of its letter and output's length. An output has
// bytes that are no zeros, so that it shows which of them the request left alone.
pub(crate) fn serve(area: &mut [u8], old: &mut [u8], ask: Ask, given: &[u8]) -> bool {
    let mut space = io::large_buffer();
    let out = ask.out;
    if 65536 < out {
        return false;
    }
    fields::fill(&mut space, 0, out, 238);
    let letter = ask.letter;
    match letter {
        b'C' | b'G' | b'R' => read(area, ask, given, &mut space[..out]),
        b'I' | b'U' | b'E' => changed(area, old, ask, given),
        b'F' | b'B' | b'L' | b'H' | b'N' | b'P' => return walks::serve(area, ask, given),
        _ => return false,
    }
    true
}
