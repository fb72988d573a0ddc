// What the programs of a depot have in common: the area's file read; words, numbers, bytes and refusals printed; and how a
// run ended, told to the script that started it.
#![tactic(auto)]

ghost use Rattle.io.specs.Counts.{IsPrefixLen};

use requests::{Answer, Refusal};
use std::fs;
use std::io::{Cursor, Error, Read, Result, Write};
use std::rt::Files;

const STDERR: i32 = 2;

// How many bytes a read brought to the front of a buffer, and why it failed if it did before the buffer was full or the file
// ended.
#[derive(Clone, Copy)]
pub struct Got {
    pub bytes: usize,
    pub failed: Option<Error>,
}

// Reads until the buffer is full, the file ends or a read fails; a read that brings less than it was asked is gone on with.
pub fn fill(file: &mut impl Read, buf: &mut [u8]) -> Got
    ensures { IsPrefixLen result.bytes buf.new }
{
    let mut n = 0;
    while n < buf.len() {
        match file.read(&mut buf[n..]) {
            Ok(0) => break,
            Ok(more) => n += more,
            Err(error) => {
                return Got {
                    bytes: n,
                    failed: Some(error),
                };
            }
        }
    }
    Got {
        bytes: n,
        failed: None,
    }
}

// The area's file, at the front of the buffer, and its length: 0, which no area has, where it cannot be read.
pub fn load(rt: &impl Files, buf: &mut [u8]) -> usize
    ensures { IsPrefixLen result buf.new }
{
    let Ok(mut file) = fs::open(rt, "area.ci") else {
        return 0;
    };
    let got = fill(&mut file, buf);
    if got.failed.is_some() {
        return 0;
    }
    got.bytes
}

// Prints, and gives the error where not all of it was written; so do the others.
pub fn words(rt: &impl Print, text: &[u8]) -> Result<()> {
    rt.write_all(text)
}

pub fn number(rt: &impl Print, n: u64) -> Result<()> {
    let mut text = [0u8; 20];
    let k = io::decimal(n, &mut text);
    words(rt, &text[..k])
}

// At most 64 bytes in capital hexadecimal digits. No line has more: for more the error's text is "Success".
pub fn hex(rt: &impl Print, bytes: &[u8]) -> Result<()> {
    let mut text = [0u8; 128];
    let n = lines::hex(bytes, &mut text);
    if 128 < n || 64 < bytes.len() {
        return Err(Error::from_raw_os_error(0));
    }
    words(rt, &text[..n])
}

// How a run ended: all was done; some request was refused, and all the others are stored; or nothing is stored, or not all of
// a list printed.
#[derive(Clone, Copy)]
pub enum End {
    Whole,
    Partly,
    Failed,
}

fn digit(end: End) -> u8 {
    match end {
        End::Whole => b'0',
        End::Partly => b'1',
        End::Failed => b'2',
    }
}

// The last that a program does: one digit on descriptor 3, where the script listens. Where nobody does, nothing is told.
pub fn tell(end: End) {
    io::write_all(3, &[digit(end)]);
}

// Says on standard error what failed and why.
pub fn failed(what: &[u8], error: Error) -> End {
    let mut text = Cursor::new([0u8; 128]);
    let _ = write!(text, "{error}");
    let n = (text.position() as usize).min(128);
    let whole = text.into_inner();
    io::write_all(STDERR, what);
    io::write_all(STDERR, b": ");
    io::write_all(STDERR, reason(&whole[..n]));
    io::write_all(STDERR, b"\n");
    End::Failed
}

// The C library's words for an error, of which `Display` prints the number too, behind them.
fn reason(text: &[u8]) -> &[u8] {
    let Ok(whole) = str::from_utf8(text) else {
        return text;
    };
    match whole.split_once(" (os error ") {
        Some((words, _)) => words.as_bytes(),
        None => text,
    }
}

// The one line for an area that is not taken. Nothing comes after it.
pub fn refused(rt: &impl Print, answer: Answer) -> End {
    if let Err(error) = refusal(rt, answer) {
        return failed(b"standard output", error);
    }
    End::Failed
}

// Its number, and for damage its place.
fn refusal(rt: &impl Print, answer: Answer) -> Result<()> {
    words(rt, b"area ")?;
    number(rt, requests::number(answer) as u64)?;
    place(rt, answer)?;
    words(rt, b"\n")
}

fn place(rt: &impl Print, answer: Answer) -> Result<()> {
    let Err(Refusal::Damaged(place)) = answer else {
        return Ok(());
    };
    words(rt, b" ")?;
    number(rt, place as u64)
}
