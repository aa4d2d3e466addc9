// What is printed to standard output: by the crate `io` and not by `print!`, which may fail, as no function here may, and which
// trusts more functions of C than write.
use law::{Reply, Verdict};

// Prints bytes as they are.
pub fn say(words: &[u8]) {
    io::write_all(1, words);
}

// Prints a number in decimal.
pub fn number(n: u64) {
    io::print_decimal(1, n);
}

// Prints a signed number in decimal.
pub fn signed(z: i64) {
    if number::is_below(z) {
        say(b"-");
    }
    number(number::magnitude(z));
}

// Prints a number with a space before it.
pub fn next(n: u64) {
    say(b" ");
    number(n);
}

// Ends a line.
pub fn end_line() {
    say(b"\n");
}

// Prints bytes and ends the line.
pub fn line(words: &[u8]) {
    say(words);
    end_line();
}

// The numbers of a reply, as they are compared and printed; C reads replies, and `law` gives them no equality.
fn of_reply(r: Reply) -> [u64; 3] {
    [r.number, r.line, r.count]
}

// The same of a verdict.
fn of_verdict(v: Verdict) -> [u64; 4] {
    [v.number, v.line, v.count, v.which]
}

// Prints numbers with a space between two of them.
fn spaced<const N: usize>(numbers: &[u64; N]) {
    for (i, n) in numbers.iter().enumerate() {
        if i > 0 {
            say(b" ");
        }
        number(*n);
    }
}

// Prints a reply: number, line and count.
pub fn reply(r: Reply) {
    spaced(&of_reply(r));
}

// Whether two replies are the same.
pub fn agree(a: Reply, b: Reply) -> bool {
    of_reply(a) == of_reply(b)
}

// Flags what came unless it is the same as what is expected.
pub fn flag(same: bool) {
    if !same {
        say(b" DIFFERS");
    }
}

// Prints the numbers that came beside those expected, on a line, and answers whether they are the same.
fn compared<const N: usize>(came: [u64; N], expected: [u64; N]) -> bool {
    let same = came == expected;
    say(b"came ");
    spaced(&came);
    say(b", expected ");
    spaced(&expected);
    flag(same);
    end_line();
    same
}

// Prints the reply that came beside the one expected, on a line, and answers whether they are the same.
pub fn replies(came: Reply, expected: Reply) -> bool {
    compared(of_reply(came), of_reply(expected))
}

// The same of verdicts: number, line, count and which.
pub fn verdicts(came: Verdict, expected: Verdict) -> bool {
    compared(of_verdict(came), of_verdict(expected))
}

// Prints, on a line, whether what was lent and not handed out is as it was.
pub fn kept(yes: bool) {
    if yes {
        line(b"untouched");
    } else {
        line(b"TOUCHED");
    }
}
