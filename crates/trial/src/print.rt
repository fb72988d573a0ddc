// What the cases print: words, numbers, bytes.
const STDOUT: i32 = 1;

pub(crate) fn words(text: &[u8]) {
    io::write_all(STDOUT, text);
}

pub(crate) fn number(n: usize) {
    io::print_decimal(STDOUT, n as u64);
}

// A byte as two small hexadecimal digits; where it stands more than once in a row, a star and how often.
fn item(byte: u8, count: usize) {
    words(b" ");
    io::print_hex(STDOUT, byte as u64, 2);
    if 1 < count {
        words(b"*");
        number(count);
    }
}

// All bytes, neighbours that are equal as one item.
pub(crate) fn bytes(b: &[u8]) {
    let mut count = 0;
    for i in 0..b.len() {
        count += 1;
        let next = i + 1;
        if next == b.len() || b[next] != b[i] {
            item(b[i], count);
            count = 0;
        }
    }
}
