// The lines of rows: how many bytes they take, and the lines themselves.
ghost use Rattle.std.specs.Prelude.{◌≡◌, true, ◌≤◌, length};
ghost use Rattle.std.proofs.lemmas.List.Edits.{sets};
ghost use Rattle.write_lines.specs.LineText.{up_to};
ghost use Rattle.write.specs.WholeRows.{whole_rows};
ghost use Rattle.write.specs.Outcomes.{text_of, all_fit};

use crate::carried;
use law::Rules;
use order::LIMIT;

// How many bytes rows take, up to one more than the limit.
pub(crate) fn text_len(v: Rules, rows: &[i64], bytes: &[u8]) -> usize
    requires { all_fit v bytes.now (whole_rows rows.now) ≡ true }
    ensures { result ≡ up_to (length (text_of v bytes.now (whole_rows rows.now))) }
{
    let n = rows::capacity(rows.len());
    let mut sum = 0;
    for i in 0..n {
        sum = write_lines::line_len(v, bytes, carried::row_at(rows, i), sum);
        if LIMIT < sum {
            return sum;
        }
    }
    sum
}

// The lines of rows, from the front of the slice on.
pub(crate) fn put_text(out: &mut [u8], v: Rules, rows: &[i64], bytes: &[u8])
    requires fits { all_fit v bytes.now (whole_rows rows.now) ≡ true }
    requires room { length (text_of v bytes.now (whole_rows rows.now)) ≤ length out.old }
    ensures { out.new ≡ sets out.old 0 (text_of v bytes.now (whole_rows rows.now)) }
{
    let n = rows::capacity(rows.len());
    let mut at = 0;
    for i in 0..n {
        at = write_lines::put_line(out, at, v, bytes, carried::row_at(rows, i));
    }
}
