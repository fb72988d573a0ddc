// The lines that the depot reads. Each function gives the error where not all of it was written.
use depot_io::{number, words};
use requests::{Answer, Done};
use std::io::{Error, Result};

pub(crate) fn closing(rt: &impl Print, records: usize, free: usize) -> Result<()> {
    words(rt, b"records ")?;
    number(rt, records as u64)?;
    words(rt, b" free ")?;
    number(rt, free as u64)?;
    words(rt, b"\n")
}

// Where a get found its record, a blank and the record's bytes in hexadecimal; nothing for any other answer.
fn found(rt: &impl Print, answer: Answer, out: &[u8]) -> Result<()> {
    let Ok(Done::Found(length)) = answer else {
        return Ok(());
    };
    if out.len() < length {
        return Err(Error::from_raw_os_error(0));
    }
    words(rt, b" ")?;
    depot_io::hex(rt, &out[..length])
}

fn after(rt: &impl Print, told: Option<Answer>, out: &[u8]) -> Result<()> {
    let Some(answer) = told else {
        return Ok(());
    };
    found(rt, answer, out)
}

// The line for one request: its place, its number, and the record that it found.
pub(crate) fn line(rt: &impl Print, place: u64, told: Option<Answer>, out: &[u8]) -> Result<()> {
    number(rt, place)?;
    words(rt, b" ")?;
    number(rt, lines::number(told) as u64)?;
    after(rt, told, out)?;
    words(rt, b"\n")
}
