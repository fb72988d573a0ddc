// Carries out the steps of the file `script` with the register, one after another, and prints what comes out.
#![tactic(auto)]

mod print;
mod request;
mod script;
mod walks;

use std::fs;
use std::fs::File;
use std::os::fd::AsRawFd;
use std::rt::Files;

// What became of a step: so many bytes are the area from now on, the script was at its end, or this is no step.
#[derive(Clone, Copy)]
enum Turn {
    Held(usize),
    Ended,
    Bad,
}

// Prints a text and a newline.
fn text(fd: i32, held: usize) -> Turn {
    let mut buf = io::large_buffer();
    let got = script::counted(fd, 2, &mut buf);
    let n = got.bytes;
    if !got.whole {
        return Turn::Bad;
    }
    print::words(&buf[..n]);
    print::words(b"\n");
    Turn::Held(held)
}

// Takes another area.
fn renewed(fd: i32, area: &mut [u8]) -> Turn {
    let got = script::counted(fd, 4, area);
    if !got.whole {
        return Turn::Bad;
    }
    Turn::Held(got.bytes)
}

// A request is lent bytes of the area alone, never those that a longer area before it left behind its end.
fn asked(fd: i32, letter: u8, area: &mut [u8], old: &mut [u8], held: usize) -> Turn {
    let Some(ask) = script::read_ask(fd, letter) else {
        return Turn::Bad;
    };
    let mut given = io::large_buffer();
    let got = script::counted(fd, 2, &mut given);
    let n = got.bytes;
    let lent = ask.lent;
    if !got.whole || held < lent || area.len() < lent {
        return Turn::Bad;
    }
    if !request::serve(&mut area[..lent], old, ask, &given[..n]) {
        return Turn::Bad;
    }
    Turn::Held(held)
}

// One step, by its letter. A script may end before a step, and nowhere else.
fn step(fd: i32, area: &mut [u8], old: &mut [u8], held: usize) -> Turn {
    let mut first = [0u8; 1];
    if io::read_full(fd, &mut first) == 0 {
        return Turn::Ended;
    }
    let letter = first[0];
    match letter {
        b'T' => text(fd, held),
        b'A' => renewed(fd, area),
        _ => asked(fd, letter, area, old, held),
    }
}

fn bad() {
    print::words(b"bad script\n");
}

// Nothing says that a file ends, and a proved loop does: so steps are counted up to a number that no script reaches.
fn steps(rt: &impl Files<File = File>, area: &mut [u8], old: &mut [u8]) {
    let Ok(script) = fs::open(rt, "script") else {
        bad();
        return;
    };
    let fd = script.as_raw_fd();
    let mut held = 0;
    for _ in 0..u64::MAX {
        match step(fd, area, old, held) {
            Turn::Held(length) => held = length,
            Turn::Ended => return,
            Turn::Bad => {
                bad();
                return;
            }
        }
    }
}

// The area, and what it was before a change.
fn main(rt: HostRuntime) {
    let mut area = [0u8; 1048576];
    let mut old = [0u8; 1048576];
    steps(&rt, &mut area, &mut old);
}
