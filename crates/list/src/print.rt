// The lines of the list. Each function gives the error where not all of it was written.
ghost use Rattle.list.specs.Listed.{Line, Closing};

use depot_io::{number, words};
use std::io::{Error, Result};

// A byte as it stands in text: printable ASCII as it is, a dot for any other.
fn shown(byte: u8) -> u8 {
    if 32 <= byte && byte < 127 {
        return byte;
    }
    b'.'
}

// A blank, and at most 64 bytes as text.
fn text(rt: &impl Print, bytes: &[u8]) -> Result<()> {
    let mut line = [0u8; 64];
    if line.len() < bytes.len() {
        return Err(Error::from_raw_os_error(0));
    }
    let n = bytes.len();
    for i in 0..n {
        line[i] = shown(bytes[i]);
    }
    words(rt, b" ")?;
    words(rt, &line[..n])
}

// The line for one record: its place, its key, all of it; and as text, if that is asked for. The area is there for the contract: it is the record with that place that
// is printed.
pub(crate) fn line(
    rt: &impl Print,
    area: &[u8],
    place: usize,
    record: &[u8],
    with_text: bool,
) -> Result<()>
    requires { Line area.now place «record».now }
{
    if record.len() < 8 {
        return Err(Error::from_raw_os_error(0));
    }
    number(rt, place as u64)?;
    words(rt, b" ")?;
    depot_io::hex(rt, &record[..8])?;
    words(rt, b" ")?;
    depot_io::hex(rt, record)?;
    if with_text {
        text(rt, record)?;
    }
    words(rt, b"\n")
}

// How many records there are in the area.
pub(crate) fn closing(rt: &impl Print, area: &[u8], records: usize) -> Result<()>
    requires { Closing area.now records }
{
    words(rt, b"records ")?;
    number(rt, records as u64)?;
    words(rt, b"\n")
}
