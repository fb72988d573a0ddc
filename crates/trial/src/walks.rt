// Walks over the area, and steps from places that the script made up.
ghost use Rattle.std.specs.Prelude.{◌+◌, ◌≤◌, ◌<◌, length};

use crate::script::Ask;
use crate::{print, request};
use requests::Refusal;
use walk::{Begun, Place};

// The record at a place, by where it begins and its length; or that it is the end.
fn record(area: &[u8], p: Place) {
    let r = walk::walk_record(area, p);
    if p.length == 0 && r.len() == 0 {
        print::words(b" end");
        return;
    }
    request::value(p.start);
    print::words(b"+");
    print::number(r.len());
}

// Bytes that came before, told by the remainder of the number that they are, and then these.
fn mixed(rest: usize, bytes: &[u8]) -> usize
    requires { rest < 65521 }
    ensures { result < 65521 }
{
    let mut r = rest;
    for byte in bytes {
        r = (r * 256 + usize::from(*byte)) % 65521;
    }
    r
}

// The records of a walk, the first `shown` of them one by one; then how many they are and what their bytes come to, and the end, twice. No area has more
// records than bytes: so many steps are made at most.
fn all(area: &[u8], size: usize, forward: bool, begun: Place, shown: usize) {
    let mut p = begun;
    let mut rest = 0;
    let mut n = 0;
    while n < area.len() {
        if p.length == 0 {
            break;
        }
        if n < shown {
            record(area, p);
        }
        rest = mixed(rest, walk::walk_record(area, p));
        p = walk::walk_next(area, size, forward, p);
        n += 1;
    }
    print::words(b" =");
    request::value(n);
    request::value(rest);
    record(area, p);
    record(area, walk::walk_next(area, size, forward, p));
}

fn refused(refusal: Refusal) {
    request::value(requests::number(Err(refusal)));
    if let Refusal::Damaged(place) = refusal {
        request::value(place);
    }
}

// A walk that has begun, or was refused.
fn told(area: &[u8], ask: Ask, forward: bool, begun: Begun) {
    match begun {
        Err(refusal) => refused(refusal),
        Ok(p) => {
            let n = ask.numbers;
            request::value(0);
            all(area, n.size, forward, p, ask.out);
        }
    }
}

// A place, eight bytes to each of its numbers.
fn parse(given: &[u8]) -> Place
    requires { 56 ≤ length given.now }
{
    Place {
        entry: fields::read_eight(given, 0),
        start: fields::read_eight(given, 8),
        length: fields::read_eight(given, 16),
        left: fields::read_eight(given, 24),
        at: fields::read_eight(given, 32),
        right: fields::read_eight(given, 40),
        end: fields::read_eight(given, 48),
    }
}

// A place by its start, its length and the length of its record.
fn place(area: &[u8], p: Place) {
    request::value(p.start);
    print::words(b"+");
    print::number(p.length);
    print::words(b"/");
    print::number(walk::walk_record(area, p).len());
}

// A place, and so many steps from there.
fn steps(area: &[u8], size: usize, forward: bool, from: Place, count: usize) {
    let mut p = from;
    place(area, p);
    for _ in 0..count {
        p = walk::walk_next(area, size, forward, p);
        place(area, p);
    }
}

fn stepped(area: &[u8], ask: Ask, forward: bool, given: &[u8]) -> bool {
    if given.len() != 56 {
        return false;
    }
    let n = ask.numbers;
    steps(area, n.size, forward, parse(given), ask.out);
    true
}

// Serves a walk or steps, and gives whether the script has a place where one is wanted.
pub(crate) fn serve(area: &[u8], ask: Ask, given: &[u8]) -> bool {
    let n = ask.numbers;
    let letter = ask.letter;
    let mut fine = true;
    match letter {
        b'F' => {
            print::words(b"  forward:");
            told(area, ask, true, walk::walk_from(area, n, true, given));
        }
        b'B' => {
            print::words(b"  backward:");
            told(area, ask, false, walk::walk_from(area, n, false, given));
        }
        b'L' => {
            print::words(b"  from the lowest:");
            told(area, ask, true, walk::walk_end(area, n, true));
        }
        b'H' => {
            print::words(b"  from the highest:");
            told(area, ask, false, walk::walk_end(area, n, false));
        }
        b'N' => {
            print::words(b"  next:");
            fine = stepped(area, ask, true, given);
        }
        _ => {
            print::words(b"  previous:");
            fine = stepped(area, ask, false, given);
        }
    }
    print::words(b"\n");
    fine
}
