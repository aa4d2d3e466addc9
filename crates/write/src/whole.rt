// Rows into canonical text.
ghost use Rattle.std.specs.Prelude.{◌≡◌, length};
ghost use Rattle.law.specs.Answers.{reply};
ghost use Rattle.write.specs.Outcomes.{may_write, write_reply, write_text};

use crate::{carried, numbers, repeats, texts};
use law::refusals::Refusal;
use law::{Reply, Rules};
use order::LIMIT;

// A reply without a line.
fn answer(number: u64, count: u64) -> Reply
    ensures { result ≡ reply number 0 count }
{
    Reply {
        number,
        line: 0,
        count,
    }
}

// Whether rows are a list that a file may say, and their lines rise.
fn is_writable(v: Rules, rows: &[i64], bytes: &[u8]) -> bool
    ensures { result ≡ may_write v bytes.now rows.now }
{
    if !numbers::rise(rows) {
        return false;
    }
    if carried::carry(v, rows, bytes) {
        return !repeats::some_twice(rows, bytes);
    }
    false
}

// The canonical text of rows from the front of the slice on, where it fits; `text` holds the bytes that the rows name.
// The slice stays as it is on every refusal.
pub fn write(rows: &[i64], text: &[u8], out: &mut [u8]) -> Reply
    ensures value { result ≡ write_reply rows.now text.now (length out.old) }
    ensures out_after { out.new ≡ write_text rows.now text.now out.old }
{
    if !is_writable(Rules::Idf3, rows, text) {
        return answer(Refusal::NoList.number(), 0);
    }
    let n = texts::text_len(Rules::Idf3, rows, text);
    if LIMIT < n {
        return answer(Refusal::TooLarge.number(), 0);
    }
    if out.len() < n {
        return answer(Refusal::ShortText.number(), n as u64);
    }
    texts::put_text(out, Rules::Idf3, rows, text);
    answer(0, n as u64)
}
