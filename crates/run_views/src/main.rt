// Runs the line reader on the cases of standard input: each call's reply, the place after it, and the fields that it handed out.
//
// A case is a header of 64 bytes, the bytes of a file, byte 10, and a line of 28 bytes for each call. The header's columns, by their
// first and last byte from 0:
//
//      0 to 31   the case's name, with spaces behind it
//     32 to 37   how many numbers are lent to each call
//     38 to 43   how many bytes the file has
//     44 to 49   the place where the reader stands, and
//     50 to 55   the number of the line there: 0 and 1 in a reader that was just opened
//     56 to 62   how many calls are made
//     63         byte 10
//
// A call's line has what is expected of it:
//
//      0 to 2    the reply's number,
//      3 to 8    its line,
//      9 to 14   its count,
//     15 to 20   the place after it, and
//     21 to 26   the number of the line there
//     27         byte 10
//
// A column of a number holds decimal digits, with spaces before them, or `m` and spaces for the largest number that there is. Each
// call goes on from the place where the one before it came. A reply of 0 is followed by a line for each field: start, length, bytes.
// What is no case ends the run.
#![tactic(auto)]

mod fields;
mod steps;

use run::cases::{Fault, HEADER};
use run::{cases, columns, lent};
use viewer::Step;

// How many bytes a call's line has, with the byte 10 that ends it.
const CALL: usize = 28;

// The place and the line where the reader stands, and whether each call up to there went as expected.
#[derive(Clone, Copy)]
struct Stand {
    at: usize,
    line: u64,
    well: bool,
}

// What is expected of a call.
fn expected(want: &[u8; CALL]) -> Step {
    Step {
        reply: columns::reply(want, 0..3, 3..9, 9..15),
        at: columns::number(want, 15..21) as usize,
        line: columns::number(want, 21..27),
    }
}

// Makes a call on some numbers; it goes well if all is as expected and nothing but its fields' numbers was touched.
fn call(file: &[u8], from: Stand, expected: Step, numbers: &mut [i64]) -> Stand {
    let came = viewer::step_at(file, from.at, from.line, numbers);
    let (fields, rest) = numbers.split_at(lent::handed_out(came.reply, numbers.len() / 2) * 2);
    let well = steps::say(came, expected, lent::is_untouched(rest));
    fields::say(file, fields);
    Stand {
        at: came.at,
        line: came.line,
        well: from.well & well,
    }
}

// Makes a call on as many numbers as the header says, or all there are.
fn call_lent(head: &[u8; HEADER], file: &[u8], from: Stand, want: &[u8; CALL]) -> Stand {
    cases::say_name(head, 32);
    let mut numbers: [i64; lent::NUMBERS] = lent::unused();
    let many = columns::count(head, 32..38).min(lent::NUMBERS);
    call(file, from, expected(want), &mut numbers[..many])
}

// Makes the calls of a case on its file, each from the place where the one before it came; answers whether all went as expected.
fn run_calls(head: &[u8; HEADER], file: &[u8]) -> Result<bool, Fault> {
    let mut stand = Stand {
        at: columns::number(head, 44..50) as usize,
        line: columns::number(head, 50..56),
        well: true,
    };
    for _ in 0..columns::number(head, 56..63) {
        let mut want = [0u8; CALL];
        cases::read_whole(&mut want)?;
        stand = call_lent(head, file, stand, &want);
    }
    Ok(stand.well)
}

// Runs a case, given by its header: reads its file, and answers whether it went as expected.
fn run_case(head: &[u8; HEADER]) -> Result<bool, Fault> {
    let n = columns::count(head, 38..44);
    let mut room = cases::room();
    cases::read_part(&mut room, n + 1)?;
    run_calls(head, cases::part(&room, n))
}

fn main() {
    cases::run(run_case).say();
}
