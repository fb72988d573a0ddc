// One request line of a depot, served at the depot's measures: S 512, keys of 8 bytes at offset 0, records of at most 60 bytes.
#![tactic(auto)]

ghost use Rattle.std.specs.Prelude.{◌<◌, ◌≡◌};
ghost use Rattle.lines.specs.Lines.{served_of, Serves, line_number};
ghost use Rattle.lines.specs.Hex.{hex_text_of, HexWritten, digit_of};

use requests::Answer;

// One line, and what the register answers where it is a request: a letter G, I, U or E, a length byte, and the key (G, E) or the record
// (I, U), whatever lies past the length. Only a line
// that is 64 bytes long can hold all 62 bytes that a length may promise.
pub fn step(area: &mut [u8], request: &[u8], out: &mut [u8]) -> Option<Answer>
    ensures { Serves (served_of area.old request.now out.old) result area.new out.new }
{
    if request.len() != 64 {
        return None;
    }
    let letter = request[0];
    let len = request[1] as usize;
    if 62 < len {
        return None;
    }
    let e = 2 + len;
    if letter == b'G' {
        return Some(register::get(area, 512, 0, 8, 60, &request[2..e], out));
    }
    if letter == b'I' {
        return Some(register::insert(area, 512, 0, 8, 60, &request[2..e]));
    }
    if letter == b'U' {
        return Some(register::update(area, 512, 0, 8, 60, &request[2..e]));
    }
    if letter == b'E' {
        return Some(register::erase(area, 512, 0, 8, 60, &request[2..e]));
    }
    None
}

// The number that a depot reads: 10 for a bad line, else the register's own.
pub fn number(line: Option<Answer>) -> usize
    ensures { result ≡ line_number line }
{
    match line {
        None => 10,
        Some(answer) => requests::number(answer),
    }
}

// One digit of four bits: 0 to 9, A to F.
pub(crate) fn digit(nibble: u8) -> u8
    requires { nibble < 16 }
    ensures { result ≡ digit_of nibble }
{
    if nibble < 10 {
        return b'0' + nibble;
    }
    b'A' + (nibble - 10)
}

// Bytes as text, two digits each, from the last byte to the first. The room is compared halved, so that no length overflows.
pub fn hex(bytes: &[u8], text: &mut [u8]) -> usize
    ensures { HexWritten (hex_text_of bytes.now text.old) result text.new }
{
    if text.len() / 2 < bytes.len() {
        return 0;
    }
    let mut i = bytes.len();
    while 0 < i {
        i -= 1;
        let byte = bytes[i];
        let at = 2 * i;
        text[at + 1] = digit(byte % 16);
        text[at] = digit(byte / 16);
    }
    2 * bytes.len()
}
