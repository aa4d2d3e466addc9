// Numbers, integers and dates on edge cases.
use number::NumberError;
use run::saying;
use run::saying::{end_line, say};

// Prints what a length reads as.
fn number(name: &[u8], s: &[u8]) {
    say(b"number ");
    say(name);
    match number_read::number(s, 5, number::Length::LARGEST) {
        Ok(z) => {
            say(b": ");
            saying::signed(z);
        }
        Err(NumberError::NotNumber) => say(b": no number"),
        Err(NumberError::TooFine) => say(b": too fine"),
    }
    end_line();
}

// Prints what an integer reads as.
fn integer(name: &[u8], s: &[u8]) {
    say(b"integer ");
    say(name);
    match number_read::integer(s) {
        Some(z) => {
            say(b": ");
            saying::signed(z.value());
        }
        None => say(b": no integer"),
    }
    end_line();
}

// Prints whether bytes are a date.
fn date(s: &[u8]) {
    say(b"date ");
    say(s);
    if number_read::is_date(s) {
        say(b": yes");
    } else {
        say(b": no");
    }
    end_line();
}

// Bytes that are no number, and numbers on either side of a limit.
const NUMBERS: [(&[u8], &[u8]); 15] = [
    (b"nothing", b""),
    (b"+", b"+"),
    (b"-", b"-"),
    (b".5", b".5"),
    (b"5.", b"5."),
    (b"1e3", b"1e3"),
    (b"+-1", b"+-1"),
    (b"byte 255", b"\xff"),
    (b"-0", b"-0"),
    (b"-0.00001", b"-0.00001"),
    (b"999999.99999", b"999999.99999"),
    (b"-1000000", b"-1000000"),
    (b"1.000001", b"1.000001"),
    (b"1000000.000001", b"1000000.000001"),
    (b"99999999999999999999999999", b"99999999999999999999999999"),
];

// A number of a million decimals; a function of its own, since an array's length is known where it is a parameter's type.
fn million(name: &[u8], long: &[u8; 1_000_002]) {
    number(name, long);
}

// Numbers of many bytes: a digit behind 10,000 zeros, a million decimals that are all 0, and a million of which the last is 1.
fn long_numbers() {
    let mut digits = [b'0'; 10_001];
    digits[10_000] = b'7';
    number(b"10,000 zeros and 7", &digits);
    let mut decimals = [b'0'; 1_000_002];
    decimals[1] = b'.';
    million(b"0. and a million zeros", &decimals);
    decimals[1_000_001] = b'1';
    million(b"0. and a million decimals, the last 1", &decimals);
}

// Integers, and bytes that are none.
const INTEGERS: [(&[u8], &[u8]); 6] = [
    (b"nothing", b""),
    (b"-", b"-"),
    (b"+000999999999", b"+000999999999"),
    (b"1000000000", b"1000000000"),
    (b"1.0", b"1.0"),
    (b"-0", b"-0"),
];

// An integer of many bytes.
fn long_integer() {
    let mut zeros = [b'0'; 10_001];
    zeros[0] = b'-';
    zeros[10_000] = b'7';
    integer(b"- and 9,999 zeros and 7", &zeros);
}

// Dates, and bytes that are none.
const DATES: [&[u8]; 8] = [
    b"",
    b"0000/02/31.23:59:59",
    b"2024/13/01.00:00:00",
    b"2024/00/01.00:00:00",
    b"2024/01/01.24:00:00",
    b"2024/01/01.00:00:60",
    b"2024-01-01.00:00:00",
    b"10/22/96.16:20:19",
];

// Prints what the numbers read as.
fn say_numbers() {
    for (name, s) in NUMBERS {
        number(name, s);
    }
    long_numbers();
}

// Prints what the integers read as.
fn say_integers() {
    for (name, s) in INTEGERS {
        integer(name, s);
    }
    long_integer();
}

// Prints what all of them read as.
pub(crate) fn say_all() {
    say_numbers();
    say_integers();
    for s in DATES {
        date(s);
    }
}
