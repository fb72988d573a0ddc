// The depot's program. It takes the area of the file area.ci, serves the requests of requests.rec in their order, prints
// what each of them is answered and how the area stands at the end, leaves the area in area.out, and tells how it ended.
#![tactic(auto)]

mod files;
mod print;
mod serve;

ghost use Rattle.lines_history.specs.Day.{Leads};

use depot_io::End;
use requests::{Answer, Done};
use std::rt::Files;

// How the depot's areas are measured: intervals of 512 bytes, keys of 8 bytes at the front of records of at most 60.
fn check(area: &[u8]) -> Answer {
    register::check(area, 512, 0, 8, 60)
}

// The closing line, and the area in its file; or, for an area that is not sound, the line that says so and no file. An
// area whose lines could not all be printed is not stored: nobody would know what was accepted.
fn close(rt: &(impl Print + Files), area: &[u8], served: End) -> End {
    match check(area) {
        Ok(Done::Intact { records, free }) => {
            if let Err(error) = print::closing(rt, records, free) {
                return depot_io::failed(b"standard output", error);
            }
            if !files::store(rt, area) {
                return End::Failed;
            }
            served
        }
        other => depot_io::refused(rt, other),
    }
}

// The requests, and then the end, unless one of them could not be read or its line not be printed.
fn day(rt: &(impl Print + Files), area: &mut [u8]) -> End
    ensures { Leads area.old area.new }
{
    match serve::file(rt, area) {
        End::Failed => End::Failed,
        served => close(rt, area, served),
    }
}

// An area that is refused is told in one line, and then nothing else is read or written.
fn open(rt: &(impl Print + Files), area: &mut [u8]) -> End
    ensures { Leads area.old area.new }
{
    match check(area) {
        Ok(
            Done::Intact {
                records: _,
                free: _,
            },
        ) => day(rt, area),
        other => depot_io::refused(rt, other),
    }
}

// One byte more than the largest area, so that a longer file shows: no area has that length.
fn main(rt: HostRuntime) {
    let mut space = [0u8; 65537];
    let n = depot_io::load(&rt, &mut space);
    depot_io::tell(open(&rt, &mut space[..n]));
}
