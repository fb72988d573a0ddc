// The printed list. It takes the area of the file area.ci and prints a line for each record in the order of their keys: its place from 1, its key and the whole record
// in hexadecimal digits, and with the word --text the record as text; then how many there are. At the end it tells whether all of that was printed.
#![tactic(auto)]

mod print;

ghost use Rattle.list.specs.Listed.{Lists};

use depot_io::End;
use measures::Numbers;
use std::cmp::Ordering;
use std::env::FillError;
use std::io::Result;
use std::rt::{Env, Files};
use walk::Place;

// How the depot's areas are measured: intervals of 512 bytes, keys of 8 bytes at the front of records of at most 60.
const MEASURES: Numbers = Numbers {
    size: 512,
    offset: 0,
    key: 8,
    most: 60,
};

// The lines for the records from a place on, and the closing line. The walk goes by a walker.
fn records(rt: &impl Print, area: &[u8], begun: Place, with_text: bool) -> Result<()>
    requires { Lists area.now begun }
{
    let mut p = begun;
    let mut n = 0;
    while p.length != 0 {
        n += 1;
        print::line(rt, area, n, walker::seen_at(area, 512, true, p), with_text)?;
        p = walker::next_place(area, 512, true, p);
    }
    print::closing(rt, area, n)
}

fn ended(printed: Result<()>) -> End {
    if let Err(error) = printed {
        return depot_io::failed(b"standard output", error);
    }
    End::Whole
}

// The list, or the line for an area that is refused.
fn listed(rt: &impl Print, area: &[u8], with_text: bool) -> End {
    match walk::walk_end(area, MEASURES, true) {
        Ok(p) => ended(records(rt, area, p, with_text)),
        Err(refusal) => depot_io::refused(rt, Err(refusal)),
    }
}

// What the program's words ask for.
#[derive(Clone, Copy)]
enum Kind {
    Plain,
    Text,
    Unknown,
}

// Whether the program was started with this word or with more.
fn given(rt: &impl Env, place: usize) -> bool {
    let mut word = [0u8; 8];
    !matches!(rt.arg(place, &mut word), Err(FillError::NotPresent))
}

fn wanted(rt: &impl Env) -> Kind {
    if !given(rt, 1) {
        return Kind::Plain;
    }
    if given(rt, 2) {
        return Kind::Unknown;
    }
    let mut word = [0u8; 8];
    let Ok(n) = rt.arg(1, &mut word) else {
        return Kind::Unknown;
    };
    let Ordering::Equal = fields::compare(&word[..n], b"--text") else {
        return Kind::Unknown;
    };
    Kind::Text
}

// One byte more than the largest area, so that a longer file shows: no area has that length.
fn list(rt: &(impl Print + Files), with_text: bool) -> End {
    let mut space = [0u8; 65537];
    let n = depot_io::load(rt, &mut space);
    listed(rt, &space[..n], with_text)
}

fn usage() -> End {
    io::write_all(2, b"usage: list [--text]\n");
    End::Failed
}

fn main(rt: HostRuntime) {
    let end = match wanted(&rt) {
        Kind::Plain => list(&rt, false),
        Kind::Text => list(&rt, true),
        Kind::Unknown => usage(),
    };
    depot_io::tell(end);
}
