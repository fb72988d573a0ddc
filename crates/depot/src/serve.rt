// The requests, 64 bytes each, read and served one after another.
ghost use Rattle.lines_history.specs.Day.{Leads};

use crate::print;
use depot_io::End;
use requests::Answer;
use std::fs;
use std::io::{ErrorKind, Read};
use std::rt::Files;

// What became of one turn: a request was done, or was refused; the file was at its end; or it could not be read or its line
// not be printed.
#[derive(Clone, Copy)]
enum Turn {
    Done,
    Refused,
    Ended,
    Failed,
}

// Which lines a file holds cannot be said here; that the area went from each to the next by lines served is all that is.
fn served(area: &mut [u8], request: &[u8], out: &mut [u8]) -> Option<Answer>
    ensures { Leads area.old area.new }
{
    lines::step(area, request, out)
}

// Reads one request, serves it and prints its line. What is left of a file that ends inside a request goes to `step` too.
fn one(rt: &impl Print, file: &mut impl Read, area: &mut [u8], place: u64) -> Turn
    ensures { Leads area.old area.new }
{
    let mut request = [0u8; 64];
    let got = depot_io::fill(file, &mut request);
    let n = got.bytes;
    if let Some(error) = got.failed {
        depot_io::failed(b"requests.rec", error);
        return Turn::Failed;
    }
    if n == 0 {
        return Turn::Ended;
    }
    let mut out = [0u8; 64];
    let told = served(area, &request[..n], &mut out);
    if let Err(error) = print::line(rt, place, told, &out) {
        depot_io::failed(b"standard output", error);
        return Turn::Failed;
    }
    if lines::number(told) != 0 {
        return Turn::Refused;
    }
    Turn::Done
}

// Nothing says that a file ends, and a proved loop does. So places are counted up to a number that no file of requests
// reaches.
fn all(rt: &impl Print, file: &mut impl Read, area: &mut [u8]) -> End
    ensures { Leads area.old area.new }
{
    let mut end = End::Whole;
    for place in 1..u64::MAX {
        match one(rt, file, area, place) {
            Turn::Done => {}
            Turn::Refused => end = End::Partly,
            Turn::Ended => return end,
            Turn::Failed => return End::Failed,
        }
    }
    End::Failed
}

// Serves the requests of the file, and gives whether all were done or some refused; or that it was not read to its end or
// not every line printed. Where there is no such file, none is served, and standard error says so.
pub(crate) fn file(rt: &(impl Print + Files), area: &mut [u8]) -> End
    ensures { Leads area.old area.new }
{
    match fs::open(rt, "requests.rec") {
        Ok(mut file) => all(rt, &mut file, area),
        Err(error) => {
            depot_io::failed(b"requests.rec", error);
            if error.kind() == ErrorKind::NotFound {
                return End::Whole;
            }
            End::Failed
        }
    }
}
