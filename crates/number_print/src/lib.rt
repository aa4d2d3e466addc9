// A count and an integer as bytes, written into a lent slice from a place on, and the number of bytes that this takes.
#![tactic(auto)]

ghost use Rattle.std.specs.Prelude.{◌≡◌, [], ◌∷◌, ◌+◌, ◌/◌, ◌%◌, ◌≤◌, ◌<◌, nat_abs, length};
ghost use Rattle.law.specs.Limits.{below, largest_length};
ghost use Rattle.number_print.specs.Printing.{Wrote, top};
ghost use Rattle.law.specs.Printing.{sign_of, numeral_of, decimals_of, magnitude_of, printed_count, printed_integer};

// One byte at a place. The slice and the place stay two parameters: `tight_number_print_put_byte` and `tight_write_texts_put_bytes` speak of
// them as such, so a writer that holds both would only wrap each of these functions.
pub fn put_byte(out: &mut [u8], at: usize, b: u8) -> usize
    requires { at < length out.old }
    ensures { Wrote out.old out.new at result (b ∷ []) }
{
    out[at] = b;
    at + 1
}

// The byte of a digit.
fn digit(n: u64) -> u8
    requires { n < 10 }
    ensures { result ≡ 48 + n }
{
    b'0' + n as u8
}

// The numeral of n, which has at most k + 1 digits.
fn put_numeral(out: &mut [u8], at: usize, k: usize, n: u64) -> usize
    requires room { at + length (numeral_of k n) ≤ length out.old }
    requires digits { n < top k }
    ensures { Wrote out.old out.new at result (numeral_of k n) }
{
    if k == 0 || n < 10 {
        return put_byte(out, at, digit(n));
    }
    let m = put_numeral(out, at, k - 1, n / 10);
    put_byte(out, m, digit(n % 10))
}

// Five decimals.
fn put_decimals(out: &mut [u8], at: usize, f: u64) -> usize
    requires room { at + 4 < length out.old }
    requires decimals { f < 100000 }
    ensures { Wrote out.old out.new at result (decimals_of f) }
{
    let a = put_byte(out, at, digit(f / 10 / 10 / 10 / 10));
    let b = put_byte(out, a, digit(f / 10 / 10 / 10 % 10));
    let c = put_byte(out, b, digit(f / 10 / 10 % 10));
    let d = put_byte(out, c, digit(f / 10 % 10));
    put_byte(out, d, digit(f % 10))
}

// A count without its sign.
fn put_magnitude(out: &mut [u8], at: usize, c: u64) -> usize
    requires room { at + length (magnitude_of c) ≤ length out.old }
    requires small { c ≤ largest_length }
    ensures { Wrote out.old out.new at result (magnitude_of c) }
{
    let a = put_numeral(out, at, 10, c / 100_000);
    let b = put_byte(out, a, b'.');
    put_decimals(out, b, c % 100_000)
}

// A minus, only below zero. By `number::is_below`, here and in `sign_len`: its statement is on what the writer does.
fn put_sign(out: &mut [u8], at: usize, z: i64) -> usize
    requires { at + length (sign_of (below z) []) ≤ length out.old }
    ensures { Wrote out.old out.new at result (sign_of (below z) []) }
{
    if number::is_below(z) {
        put_byte(out, at, b'-')
    } else {
        at
    }
}

// A count with five decimals, - only below zero.
pub fn put_count(out: &mut [u8], at: usize, z: i64) -> usize
    requires room { at + length (printed_count z) ≤ length out.old }
    requires small { nat_abs z ≤ largest_length }
    ensures { Wrote out.old out.new at result (printed_count z) }
{
    let a = put_sign(out, at, z);
    put_magnitude(out, a, number::magnitude(z))
}

// An integer without leading zeros, - only below zero.
pub fn put_integer(out: &mut [u8], at: usize, z: i64) -> usize
    requires room { at + length (printed_integer z) ≤ length out.old }
    requires small { nat_abs z ≤ largest_length }
    ensures { Wrote out.old out.new at result (printed_integer z) }
{
    let a = put_sign(out, at, z);
    put_numeral(out, a, 10, number::magnitude(z))
}

// The number of digits of a numeral.
fn numeral_len(n: u64) -> usize
    requires { n ≤ largest_length }
    ensures { result ≡ length (numeral_of 10 n) }
{
    n.checked_ilog10().unwrap_or(0) as usize + 1
}

// The number of digits of a count's magnitude, with its point.
fn magnitude_len(n: u64) -> usize
    requires { n ≤ largest_length }
    ensures { result ≡ length (magnitude_of n) }
{
    numeral_len(n / 100_000) + 6
}

// How many bytes a sign takes.
fn sign_len(z: i64) -> usize
    ensures { result ≡ length (sign_of (below z) []) }
{
    usize::from(number::is_below(z))
}

// How many bytes a count takes.
pub fn count_len(z: i64) -> usize
    requires { nat_abs z ≤ largest_length }
    ensures { result ≡ length (printed_count z) }
{
    sign_len(z) + magnitude_len(number::magnitude(z))
}

// How many bytes an integer takes.
pub fn integer_len(z: i64) -> usize
    requires { nat_abs z ≤ largest_length }
    ensures { result ≡ length (printed_integer z) }
{
    sign_len(z) + numeral_len(number::magnitude(z))
}
