// Numbers and parts of byte lists: what every layout is read and written by.
#![tactic(auto)]

ghost use Rattle.std.specs.Prelude.{◌+◌, ◌-◌, ◌*◌, ◌^◌, ◌≤◌, ◌<◌, ◌≡◌, ◌⊎◌, length, replicate};
ghost use Rattle.fields.specs.Bytes.{part, number, digits, splice};
ghost use Rattle.fields.specs.Order.{order_of, common};

use std::cmp::Ordering;

// The number in N bytes from a place on.
pub fn read<const N: usize>(b: &[u8], at: usize) -> usize
    requires { (N ≤ 8) × (at + N ≤ length b.now) }
    ensures { (result ≡ number N b.now at) × (result < 256 ^ N) }
{
    let mut x = 0;
    for i in 0..N {
        x = x * 256 + usize::from(b[at + i]);
    }
    x
}

// The same of eight bytes, half by half: the compiler makes one load of these, where it makes eight of a chain of eight bytes.
pub fn read_eight(b: &[u8], at: usize) -> usize
    requires { at + 8 ≤ length b.now }
    ensures { result ≡ number 8 b.now at }
{
    read::<4>(b, at) * 4294967296 + read::<4>(b, at + 4)
}

// The number in `width` bytes: a pointer, which mostly has one, or two.
pub fn read_pointer(b: &[u8], at: usize, width: usize) -> usize
    requires { (width ≤ 4) × (at + width ≤ length b.now) }
    ensures { (result ≡ number width b.now at) × (result < 256 ^ width) }
{
    if width == 1 {
        return usize::from(b[at]);
    }
    if width == 2 {
        return read::<2>(b, at);
    }
    let mut x = 0;
    for byte in &b[at..at + width] {
        x = x * 256 + usize::from(*byte);
    }
    x
}

// Stores a number in `width` bytes, the last byte first.
pub fn write(b: &mut [u8], at: usize, width: usize, x: usize)
    requires { (width ≤ 4) × (at + width ≤ length b.old) }
    ensures { b.new ≡ splice b.old at (digits width x) }
{
    let mut left = x;
    for i in (0..width).rev() {
        b[at + i] = (left % 256) as u8;
        left /= 256;
    }
}

// How many first bytes two parts have in common.
pub fn common_front(a: &[u8], b: &[u8]) -> usize
    ensures { (result ≡ common a.now b.now) × (result ≤ length a.now) × (result ≤ length b.now) }
{
    let n = a.len().min(b.len());
    for i in 0..n {
        if a[i] != b[i] {
            return i;
        }
    }
    n
}

// How the part a stands to the part b, byte by byte: the first byte in which they differ decides. For parts of a few bytes: so small
// that the compiler puts it into its callers, where the library's order of two slices is a call.
pub fn compare_bytes(a: &[u8], b: &[u8]) -> Ordering
    ensures { result ≡ order_of a.now b.now }
{
    let i = common_front(a, b);
    if a.len() <= i {
        if b.len() <= i {
            return Ordering::Equal;
        }
        return Ordering::Less;
    }
    if b.len() <= i {
        return Ordering::Greater;
    }
    if a[i] < b[i] {
        return Ordering::Less;
    }
    Ordering::Greater
}

// The same for parts of any length. While both have eight bytes these are one number each, the
// highest byte first, and the first numbers that differ decide; so keys of some words are told apart in fewer steps than the library takes.
pub fn compare(a: &[u8], b: &[u8]) -> Ordering
    ensures { result ≡ order_of a.now b.now }
{
    let words = a.len().min(b.len()) / 8;
    for word in 0..words {
        let x = read_eight(a, 8 * word);
        let y = read_eight(b, 8 * word);
        if x != y {
            return x.cmp(&y);
        }
    }
    compare_bytes(&a[8 * words..], &b[8 * words..])
}

// Stores a run of bytes from a place on.
pub fn copy(b: &mut [u8], at: usize, new: &[u8])
    requires { at + length new.now ≤ length b.old }
    ensures { b.new ≡ splice b.old at new.now }
{
    for i in 0..new.len() {
        b[at + i] = new[i];
    }
}

// Stores eight bytes that stand at a place of another part, from a place on: at once, where a loop would cost more than a few bytes do.
// They are read as one value first, so that the compiler makes one load and one store of them wherever it puts this. Of eight stores one
// after another, or of a loop, it makes more in some loops; a copy straight out of `new` compares the two places first.
pub fn copy_eight(b: &mut [u8], at: usize, new: &[u8], place: usize)
    requires { (at + 8 ≤ length b.old) × (place + 8 ≤ length new.now) }
    ensures { b.new ≡ splice b.old at (part new.now place 8) }
{
    let Ok(eight) = <[u8; 8]>::try_from(&new[place..place + 8]) else {
        unreachable!();
    };
    b[at..at + 8].copy_from_slice(&eight);
}

// Stores one byte from one place to another.
pub fn fill(b: &mut [u8], from: usize, to: usize, byte: u8)
    requires { (from ≤ to) × (to ≤ length b.old) }
    ensures { b.new ≡ splice b.old from (replicate (to - from) byte) }
{
    b[from..to].fill(byte);
}

// The most bytes that are moved at once.
pub(crate) const BLOCK: usize = 1024;

// Moves bytes to a place left of theirs, blocks at a time and the first block first, so that none is overwritten before it is read.
pub(crate) fn move_left(b: &mut [u8], to: usize, from: usize, len: usize)
    requires { (to ≤ from) × (from + len ≤ length b.old) }
    ensures { b.new ≡ splice b.old to (part b.old from len) }
{
    let mut block = [0u8; BLOCK];
    let mut i = 0;
    while i < len {
        let k = (len - i).min(BLOCK);
        let s = from + i;
        let e = s + k;
        copy(&mut block, 0, &b[s..e]);
        copy(b, to + i, &block[..k]);
        i += k;
    }
}

// Moves bytes to a place right of theirs, the last block first.
pub(crate) fn move_right(b: &mut [u8], to: usize, from: usize, len: usize)
    requires { (from ≤ to) × (to + len ≤ length b.old) }
    ensures { b.new ≡ splice b.old to (part b.old from len) }
{
    let mut block = [0u8; BLOCK];
    let mut i = len;
    while 0 < i {
        let k = i.min(BLOCK);
        i -= k;
        let s = from + i;
        let e = s + k;
        copy(&mut block, 0, &b[s..e]);
        copy(b, to + i, &block[..k]);
    }
}

// Moves bytes within a buffer; the two places may overlap.
pub fn carry(b: &mut [u8], to: usize, from: usize, len: usize)
    requires { (to + len ≤ length b.old) × (from + len ≤ length b.old) }
    ensures { b.new ≡ splice b.old to (part b.old from len) }
{
    if to < from {
        move_left(b, to, from, len);
        return;
    }
    if from < to {
        move_right(b, to, from, len);
    }
}
