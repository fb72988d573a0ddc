// The script's steps, each a letter and what belongs to it; every number has its highest byte first.
//   T  a text: 2 bytes of length, the text
//   A  an area: 4 bytes of length, the bytes
//   C, G, R, I, U, E  check, get, get at an address, insert, update, erase: size, offset, key and most, 8 bytes each; the lengths of
//      the area that is lent and of the output, 4 each; the address, 8; 2 bytes of length, the key or record
//   F, B, L, H  walks forward and backward from bytes, from the lowest and from the highest record: the same, with how many records are
//      shown in place of the output
//   N, P  steps forward and backward from a place: the same, with the number of steps, and with the seven numbers of the place, 8 bytes each
ghost use Rattle.io.specs.Counts.{IsPrefixLen};

use measures::Numbers;

// How many bytes came to the front of a buffer, and whether all of them did.
#[derive(Clone, Copy)]
pub(crate) struct Got {
    pub bytes: usize,
    pub whole: bool,
}

// A request as the script has it, but for its key or record. `lent` and `out` are lengths, of its area and of its output.
#[derive(Clone, Copy)]
pub(crate) struct Ask {
    pub letter: u8,
    pub numbers: Numbers,
    pub lent: usize,
    pub out: usize,
    pub address: u64,
}

const NONE: Got = Got {
    bytes: 0,
    whole: false,
};

// A number in `width` bytes, 4 at most, and that many bytes after it, where the buffer has room for them.
pub(crate) fn counted(fd: i32, width: usize, buf: &mut [u8]) -> Got
    ensures { IsPrefixLen result.bytes buf.new }
{
    let mut head = [0u8; 4];
    if 4 < width || io::read_full(fd, &mut head[..width]) < width {
        return NONE;
    }
    let n = fields::read_pointer(&head, 0, width);
    if buf.len() < n {
        return NONE;
    }
    let whole = io::read_full(fd, &mut buf[..n]) == n;
    Got { bytes: n, whole }
}

// The numbers between a request's letter and the length of its bytes.
fn parse(letter: u8, head: &[u8; 48]) -> Ask {
    let numbers = Numbers {
        size: fields::read_eight(head, 0),
        offset: fields::read_eight(head, 8),
        key: fields::read_eight(head, 16),
        most: fields::read_eight(head, 24),
    };
    Ask {
        letter,
        numbers,
        lent: fields::read::<4>(head, 32),
        out: fields::read::<4>(head, 36),
        address: fields::read_eight(head, 40) as u64,
    }
}

pub(crate) fn read_ask(fd: i32, letter: u8) -> Option<Ask> {
    let mut head = [0u8; 48];
    if io::read_full(fd, &mut head) < 48 {
        return None;
    }
    Some(parse(letter, &head))
}
