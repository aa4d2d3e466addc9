// Runs the cases of standard input: what `write` answers on the rows of a file, beside what is expected, and the text.
//
// A case is a header of 64 bytes, edits of 32 bytes each, the bytes of a file, and byte 10. The file is read into rows, the
// edits are made in them, and they are written over the file's own bytes. The header's columns, by their first and last byte
// from 0:
//
//      0 to 29   the case's name, with spaces behind it
//     30 to 34   how many numbers are lent as rows: those that the file gave, and zeros behind them
//     35 to 37   how many edits there are
//     38 to 42   how many bytes are lent for the text
//     43 to 48   how many bytes the file has
//     49 to 51   the reply expected: its number,
//     52 to 53   its line,
//     54 to 62   its count
//     63         byte 10
//
// and those of an edit, with rows and columns counted from 1, where column 1 is the kind:
//
//      0 to 3    the first row that is edited
//      4 to 7    the last
//      8 to 10   the column
//     11 to 30   the number that it gets in each, with a minus sign if it is below zero
//     31         byte 10
//
// A column of a number holds decimal digits, with spaces before them. A reply of 0 is followed by its text, any reply by
// `untouched` if every lent byte that no text took is as it was. What is no case ends the run.
#![tactic(auto)]

mod edits;

use law::Reply;
use run::cases::{Fault, HEADER};
use run::{cases, columns, lent, saying};

// Writes into some bytes; answers whether the reply is as expected and nothing but its text was touched.
fn write(rows: &[i64], file: &[u8], expected: Reply, bytes: &mut [u8]) -> bool {
    let came = write::whole::write(rows, file, bytes);
    let agree = saying::replies(came, expected);
    let (text, rest) = bytes.split_at(lent::handed_out(came, bytes.len()));
    saying::say(text);
    let kept = lent::is_untouched(rest);
    saying::kept(kept);
    agree & kept
}

// Runs a case on rows with its edits made: lends as many bytes as the header says, or all there are.
fn run_rows(head: &[u8; HEADER], rows: &[i64], file: &[u8]) -> bool {
    cases::say_name(head, 30);
    let expected = columns::reply(head, 49..52, 52..54, 54..63);
    let mut bytes: [u8; lent::BYTES] = lent::unused();
    let many = columns::count(head, 38..43).min(lent::BYTES);
    write(rows, file, expected, &mut bytes[..many])
}

// Runs a case on its edits and its file: the file is read, and as many numbers as the header says are lent, or all there are.
fn run_edited(head: &[u8; HEADER], edits: &[u8], file: &[u8]) -> Result<bool, Fault> {
    let mut numbers = [0i64; lent::NUMBERS];
    if read::whole::read(file, &mut numbers).number != 0 {
        return Err(Fault::FileRefused);
    }
    edits::make(&mut numbers, edits);
    let many = columns::count(head, 30..35).min(lent::NUMBERS);
    Ok(run_rows(head, &numbers[..many], file))
}

// Runs a case, given by its header: reads its edits and its file, and answers whether it went as expected.
fn run_case(head: &[u8; HEADER]) -> Result<bool, Fault> {
    let k = columns::count(head, 35..38) * edits::SIZE;
    let n = columns::count(head, 43..49);
    let mut edits = cases::room();
    let mut file = cases::room();
    cases::read_part(&mut edits, k)?;
    cases::read_part(&mut file, n + 1)?;
    run_edited(head, cases::part(&edits, k), cases::part(&file, n))
}

fn main() {
    cases::run(run_case).say();
}
