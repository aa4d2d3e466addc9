// Numbers in decimal, as the columns of a case hold them: digits, with spaces before them.
ghost use Rattle.std.specs.Prelude.{◌<◌};

use law::Reply;
use std::ops::Range;

// The largest count.
const LARGEST: usize = 9_999_999;

// The value of a digit; any other byte counts as 0.
fn digit(b: u8) -> u64
    ensures { result < 10 }
{
    match b {
        b'0'..=b'9' => u64::from(b - b'0'),
        _ => 0,
    }
}

// A number with one digit more, or the largest there is at an m. No column has so many digits that one is left off.
fn longer(n: u64, b: u8) -> u64 {
    if n >= 1_000_000_000_000_000_000 {
        return n;
    }
    if b == b'm' {
        return u64::MAX;
    }
    n * 10 + digit(b)
}

// The bytes of a column, so many of them as there are.
fn bytes_of(bytes: &[u8], column: Range<usize>) -> &[u8] {
    let rest = bytes.get(column.start..).unwrap_or(&[]);
    rest.get(..column.end.saturating_sub(column.start))
        .unwrap_or(rest)
}

// The number that a column holds; an m stands for the largest there is.
pub fn number(bytes: &[u8], column: Range<usize>) -> u64 {
    bytes_of(bytes, column).iter().fold(0, |n, b| longer(n, *b))
}

// The same as a count. No case has one above the largest.
pub fn count(bytes: &[u8], column: Range<usize>) -> usize
    ensures { result < 10000000 }
{
    (number(bytes, column) as usize).min(LARGEST)
}

// The signed number that a column holds; the nearest there is where it is beyond.
pub fn signed(bytes: &[u8], column: Range<usize>) -> i64 {
    let column = bytes_of(bytes, column);
    let n = number(column, 0..column.len());
    if column.contains(&b'-') {
        return 0i64.saturating_sub_unsigned(n);
    }
    0i64.saturating_add_unsigned(n)
}

// The reply whose number, line and count stand in three columns.
pub fn reply(
    bytes: &[u8],
    number_at: Range<usize>,
    line_at: Range<usize>,
    count_at: Range<usize>,
) -> Reply {
    Reply {
        number: number(bytes, number_at),
        line: number(bytes, line_at),
        count: number(bytes, count_at),
    }
}
