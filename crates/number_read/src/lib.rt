// A number, an integer and a date from the bytes of a field. A numeral may have any length; its value decides.
#![tactic(auto)]

ghost use Rattle.std.specs.Prelude.{◌≡◌, false, ◌/◌, ◌+◌, ◌*◌, ◌^◌, ◌≤◌, ◌<◌, length, get_or};
ghost use Rattle.number.specs.Signs.{signed};
ghost use Rattle.law.specs.Limits.{largest_length, most_decimals};
ghost use Rattle.law.specs.Numbers.{is_digit};
ghost use Rattle.number.specs.Numbers.{digit_here, to_count, decimals, whole, body, read_number};
ghost use Rattle.number.specs.Integers.{unsigned, read_integer};
ghost use Rattle.number_read.specs.Signs.{is_minus, without_sign};
ghost use Rattle.law.specs.Dates.{is_two, is_date};

use number::{Integer, NumberError};

// A sign and a magnitude as a signed number.
fn value(neg: bool, n: u64) -> i64
    requires { n < 2 ^ 63 }
    ensures { result ≡ signed neg n }
{
    let v = n as i64;
    if neg { -v } else { v }
}

// Whether a byte is a digit.
fn is_digit(b: u8) -> bool
    ensures { result ≡ is_digit b }
{
    b.is_ascii_digit()
}

// Whether bytes begin with a digit.
#[tactic(auto, using(crate::proofs::NumberLaws::first_laws))]
fn starts_with_digit(s: &[u8]) -> bool
    ensures { result ≡ digit_here s.now }
{
    match s {
        [b, ..] => is_digit(*b),
        [] => false,
    }
}

// Whether bytes begin with a minus, and what follows their sign, or all of them where they have none.
fn split_sign(s: &[u8]) -> (bool, &[u8])
    ensures minus { result.0 ≡ is_minus s.now }
    ensures rest { result.1.now ≡ without_sign s.now }
{
    match s {
        [b'-', rest @ ..] => (true, rest),
        [b'+', rest @ ..] => (false, rest),
        _ => (false, s),
    }
}

// How many counts make a whole, where so many decimals are kept.
fn counts(kept: usize) -> u64
    requires { kept ≤ most_decimals }
    ensures { result ≡ 10 ^ kept }
{
    match kept {
        0 => 1,
        1 => 10,
        2 => 100,
        3 => 1_000,
        4 => 10_000,
        _ => 100_000,
    }
}

// What a magnitude is read by: the most counts that it may have, whether it is below zero, how many counts make a whole.
#[derive(Clone, Copy)]
struct Reader {
    largest: u64,
    neg: bool,
    unit: u64,
    ghost small: { largest ≤ largest_length },
    ghost some: { 0 < unit },
    ghost bound: { unit ≤ 100000 },
}

impl Reader {
    // The answer for a count; `fine` says that a decimal past those kept was not 0.
    #[tactic(auto, unfolding(number::specs::Numbers::to_count))]
    fn to_count(self, fine: bool, count: u64) -> Result<i64, NumberError>
        ensures { result ≡ to_count self.largest self.neg fine count }
    {
        if self.largest < count {
            return Err(NumberError::NotNumber);
        }
        if fine {
            return Err(NumberError::TooFine);
        }
        Ok(value(self.neg, count))
    }

    // The decimals after a whole part of so many counts: the first weighs a tenth of a whole, each next a tenth of the one before it.
    #[tactic(auto, using(crate::proofs::NumberLaws::decimal_laws))]
    fn decimals(self, s: &[u8], whole: u64) -> Result<i64, NumberError>
        requires { whole + self.unit ≤ 10000000000000000 }
        ensures { result ≡ decimals self.largest self.neg false (self.unit / 10) whole s.now }
    {
        let mut fine = false;
        let mut weight = self.unit / 10;
        let mut count = whole;
        for &b in s {
            if !is_digit(b) {
                return Err(NumberError::NotNumber);
            }
            fine |= (weight == 0) & (b != b'0');
            count += u64::from(b - b'0') * weight;
            weight /= 10;
        }
        self.to_count(fine, count)
    }

    // The digits before a point, and what follows them.
    #[tactic(auto, using(crate::proofs::NumberLaws::whole_laws))]
    fn whole(self, s: &[u8]) -> Result<i64, NumberError>
        ensures { result ≡ whole self.largest self.unit self.neg 0 s.now }
    {
        let mut n = 0;
        for (at, &b) in s.iter().enumerate() {
            if !is_digit(b) {
                let after = &s[at + 1..];
                if b == b'.' && starts_with_digit(after) {
                    return self.decimals(after, n * self.unit);
                }
                return Err(NumberError::NotNumber);
            }
            n = n * 10 + u64::from(b - b'0');
            if self.largest < n {
                return Err(NumberError::NotNumber);
            }
        }
        self.to_count(false, n * self.unit)
    }

    // A number without its sign: at least one digit stands before the point.
    #[tactic(auto, unfolding(number::specs::Numbers::body))]
    fn body(self, s: &[u8]) -> Result<i64, NumberError>
        ensures { result ≡ body self.largest self.unit self.neg s.now }
    {
        if !starts_with_digit(s) {
            return Err(NumberError::NotNumber);
        }
        self.whole(s)
    }
}

// A number of which so many decimals are kept, at most `largest` counts either way.
#[tactic(auto, using(crate::proofs::NumberLaws::sign_laws))]
pub fn number(s: &[u8], kept: usize, largest: u64) -> Result<i64, NumberError>
    requires { (kept ≤ most_decimals) × (largest ≤ largest_length) }
    ensures { result ≡ read_number kept largest s.now }
{
    let (neg, magnitude) = split_sign(s);
    let unit = counts(kept);
    Reader { largest, neg, unit }.body(magnitude)
}

// Digits, at least one, and nothing else.
#[tactic(auto, using(crate::proofs::IntegerLaws::unsigned_laws))]
fn unsigned(s: &[u8], neg: bool) -> Option<Integer>
    ensures { result ≡ unsigned neg s.now }
{
    if s.is_empty() {
        return None;
    }
    let mut n = 0;
    for &b in s {
        if !is_digit(b) {
            return None;
        }
        n = n * 10 + u64::from(b - b'0');
        if Integer::LARGEST < n {
            return None;
        }
    }
    Integer::new(value(neg, n))
}

// An integer: an optional sign and digits.
#[tactic(auto, using(crate::proofs::IntegerLaws::read_signed))]
pub fn integer(s: &[u8]) -> Option<Integer>
    ensures { result ≡ read_integer s.now }
{
    let (neg, digits) = split_sign(s);
    unsigned(digits, neg)
}

// Whether two digits at a place have a value from `lo` to `hi`.
#[tactic(auto, unfolding(law::specs::Dates::is_two))]
fn two(s: &[u8], at: usize, lo: u8, hi: u8) -> bool
    requires { at + 2 ≤ length s.now }
    ensures { result ≡ is_two lo hi (get_or s.now at 0) (get_or s.now (at + 1) 0) }
{
    let a = s[at];
    let b = s[at + 1];
    if !is_digit(a) {
        return false;
    }
    if !is_digit(b) {
        return false;
    }
    let v = (a - 48) * 10 + (b - 48);
    (lo <= v) & (v <= hi)
}

// Whether bytes are a date, yyyy/mm/dd.hh:mm:ss.
pub fn is_date(s: &[u8]) -> bool
    ensures { result ≡ is_date s.now }
{
    if s.len() != 19 {
        return false;
    }
    two(s, 0, 0, 99)
        & (two(s, 2, 0, 99)
            & ((s[4] == 47)
                & (two(s, 5, 1, 12)
                    & ((s[7] == 47)
                        & (two(s, 8, 1, 31)
                            & ((s[10] == 46)
                                & (two(s, 11, 0, 23)
                                    & ((s[13] == 58)
                                        & (two(s, 14, 0, 59)
                                            & ((s[16] == 58) & two(s, 17, 0, 59)))))))))))
}
