// Runs the cases of standard input: what `same` or `judge` answers on two files, beside what is expected, a line each.
//
// A case is a header of 64 bytes, the bytes of the first file, byte 10, the bytes of the second file, and byte 10. The header's
// columns, by their first and last byte from 0:
//
//      0 to 31   the case's name, with spaces behind it
//     32 to 36   `same`, with a space behind it, or `judge`
//     37 to 42   how many bytes the first file has
//     43 to 48   how many bytes the second file has
//     49 to 51   the verdict expected: its number,
//     52 to 56   its line,
//     57 to 60   its count,
//     61 to 62   which file it is about
//     63         byte 10
//
// A column of a number holds decimal digits, with spaces before them. A line has the case's name, the verdict that came and the
// one expected, each as number, line, count and which, and ` DIFFERS` unless they are the same. What is no case ends the run.
#![tactic(auto)]

use law::Verdict;
use run::cases::{Fault, HEADER};
use run::{cases, columns, saying};

// The verdict that is expected.
fn expected(head: &[u8; HEADER]) -> Verdict {
    Verdict {
        number: columns::number(head, 49..52),
        line: columns::number(head, 52..57),
        count: columns::number(head, 57..61),
        which: columns::number(head, 61..63),
    }
}

// What the operation that the header names answers on two files.
fn answer(head: &[u8; HEADER], first: &[u8], second: &[u8]) -> Verdict {
    if head[32] == b'j' {
        return judge::whole::judge(first, second);
    }
    same::same(first, second)
}

// Runs a case, given by its header: reads its files, and answers whether it went as expected.
fn run_case(head: &[u8; HEADER]) -> Result<bool, Fault> {
    let n = columns::count(head, 37..43);
    let m = columns::count(head, 43..49);
    let mut first = cases::room();
    let mut second = cases::room();
    cases::read_part(&mut first, n + 1)?;
    cases::read_part(&mut second, m + 1)?;
    cases::say_name(head, 32);
    let came = answer(head, cases::part(&first, n), cases::part(&second, m));
    Ok(saying::verdicts(came, expected(head)))
}

fn main() {
    cases::run(run_case).say();
}
