// Fields as they are printed: two numbers each, and the bytes that these name.
use run::{cases, saying};

// The bytes of a file from a place on, so many of them as there are.
fn named(file: &[u8], start: i64, len: i64) -> &[u8] {
    let rest = file.get(start.unsigned_abs() as usize..).unwrap_or(&[]);
    cases::front(rest, len.unsigned_abs() as usize)
}

// Prints fields, a line each: start, length, and the bytes that these name.
pub(crate) fn say(file: &[u8], numbers: &[i64]) {
    for field in numbers.chunks_exact(2) {
        let [start, len] = *field else {
            continue;
        };
        saying::say(b"  ");
        saying::signed(start);
        saying::say(b" ");
        saying::signed(len);
        saying::say(b" ");
        saying::say(named(file, start, len));
        saying::end_line();
    }
}
