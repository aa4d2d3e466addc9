// Runs the cases of standard input: what `check` or `read` answers on a file, beside what is expected, a line each.
//
// A case is a header of 64 bytes, the bytes of a file, and byte 10. The header's columns, by their first and last byte from 0:
//
//      0 to 31   the case's name, with spaces behind it
//     32 to 36   `check`, or `read`, which lends numbers and shows the rows that came
//     37 to 42   how many numbers are lent
//     43 to 48   how many bytes the file has
//     49 to 51   the reply expected: its number,
//     52 to 57   its line,
//     58 to 62   its count
//     63         byte 10
//
// A column of a number holds decimal digits, with spaces before them. A reply of 0 to `read` is followed by its rows, any reply
// to `read` by `untouched` if every lent number that no row took is as it was. What is no case ends the run.
#![tactic(auto)]

mod printed;

use law::Reply;
use rows::{STRIDE, capacity};
use run::cases::{Fault, HEADER};
use run::{cases, columns, lent, saying};

// Reads into some numbers; answers whether the reply is as expected and nothing but its rows was touched.
fn read(file: &[u8], expected: Reply, numbers: &mut [i64]) -> bool {
    let came = read::whole::read(file, numbers);
    let agree = saying::replies(came, expected);
    let (rows, rest) = numbers.split_at(lent::handed_out(came, capacity(numbers.len())) * STRIDE);
    printed::say(rows);
    let kept = lent::is_untouched(rest);
    saying::kept(kept);
    agree & kept
}

// Reads into as many numbers as are asked for, or all there are.
fn read_lent(file: &[u8], expected: Reply, many: usize) -> bool {
    let mut numbers: [i64; lent::NUMBERS] = lent::unused();
    read(file, expected, &mut numbers[..many.min(lent::NUMBERS)])
}

// Runs a case on its file; answers whether it went as expected.
fn run_on(head: &[u8; HEADER], file: &[u8]) -> bool {
    cases::say_name(head, 32);
    let expected = columns::reply(head, 49..52, 52..58, 58..63);
    if head[32] == b'r' {
        return read_lent(file, expected, columns::count(head, 37..43));
    }
    saying::replies(read::whole::check(file), expected)
}

// Runs a case, given by its header: reads its file, and answers whether it went as expected.
fn run_case(head: &[u8; HEADER]) -> Result<bool, Fault> {
    let n = columns::count(head, 43..49);
    let mut room = cases::room();
    cases::read_part(&mut room, n + 1)?;
    Ok(run_on(head, cases::part(&room, n)))
}

fn main() {
    cases::run(run_case).say();
}
