// The row of a line: its kind, then its fields in their order, a text as its start in the file and its length.
ghost use Rattle.std.specs.Prelude.{◌≡◌, ◌+◌, ◌^◌, ◌≤◌, ◌<◌, pos, length, OnErr};
ghost use Rattle.law.specs.Layouts.{types_of};
ghost use Rattle.law.specs.Rows.{width};
ghost use Rattle.line_rows.specs.Rows.{entry_at, filling_at, filling_of, filled_as, stopped_as, put_one, put_next, FieldRoom, fill_until, filled_until};

use crate::{Entry, Filling, Halt, Placed, Stop};
use law::refusals::Refusal;
use law::{Context, FieldType};
use line_fields::FieldValue;

// The next field of a line from a place on, by its type.
fn next_entry(c: Context, t: FieldType, s: &[u8], at: usize) -> Result<Entry, Refusal>
    requires { at ≤ length s.now }
    ensures { result ≡ entry_at c t at s.now }
{
    match text_fields::field(&s[at..]) {
        Ok(None) => Err(Refusal::FieldCount),
        Err(_) => Err(Refusal::BrokenQuoting),
        Ok(Some(f)) => {
            let from = at + f.start;
            Ok(
                match line_fields::read_field(c, t, &s[from..from + f.len], f.quoted)? {
                    FieldValue::Number(z) => Entry::Number(z, at + f.next),
                    FieldValue::Word(n) => Entry::Word(n, at + f.next),
                    FieldValue::Bytes => Entry::Text(from, f.len, at + f.next),
                },
            )
        }
    }
}

// One column more.
fn put_one(row: &mut [i64], column: usize, z: i64, at: usize) -> Placed
    requires { column < length row.old }
    ensures { filling_of row.new result ≡ put_one (filling_at row.old column at) z at }
{
    row[column] = z;
    Placed {
        column: column + 1,
        at,
    }
}

// A text's two columns: its start in the file and its length.
fn put_text(row: &mut [i64], column: usize, start: usize, len: usize, at: usize) -> Placed
    requires { (column + 1 < length row.old) × (start < 2 ^ 63) × (len < 2 ^ 63) }
    ensures { filling_of row.new result ≡ put_one (put_one (filling_at row.old column at) (pos start) at) (pos len) at }
{
    row[column] = start as i64;
    row[column + 1] = len as i64;
    Placed {
        column: column + 2,
        at,
    }
}

// The row with one field more, or the field's refusal and the row as it was; the line starts at `base` in the file.
fn put_field(
    c: Context,
    t: FieldType,
    s: &[u8],
    base: usize,
    row: &mut [i64],
    column: usize,
    at: usize,
) -> Result<Placed, Refusal>
    requires { (length row.old ≡ width) × FieldRoom t s.now base (filling_at row.old column at) }
    ensures value { filled_as row.new result ≡ put_next base (filling_at row.old column at) (entry_at c t at s.now) }
    ensures row_kept { OnErr result (row.new ≡ row.old) }
{
    Ok(match next_entry(c, t, s, at)? {
        Entry::Number(z, m) => put_one(row, column, z, m),
        Entry::Word(n, m) => put_one(row, column, n as i64, m),
        Entry::Text(a, l, m) => put_text(row, column, base + a, l, m),
    })
}

// The fields of a line of a kind from a place on into a row whose first column is there, up to the first that is refused, which leaves the row as it is.
fn fill_row(
    c: Context,
    kind: u64,
    s: &[u8],
    base: usize,
    row: &mut [i64],
    from: usize,
) -> Result<Placed, Halt>
    requires { (length row.old ≡ width) × (from ≤ length s.now) × (base + length s.now < 2 ^ 62) }
    ensures { stopped_as row.new result ≡ fill_until c base s.now (types_of c.rules kind) (filling_at row.old 1 from) }
{
    let v = c.rules;
    let n = form_layouts::field_count(v, kind);
    let layout = form_layouts::row_of(v, kind);
    let mut column = 1;
    let mut at = from;
    for i in 0..n {
        let t = form_layouts::field_type(v, kind, layout, i);
        match put_field(c, t, s, base, row, column, at) {
            Ok(p) => {
                column = p.column;
                at = p.at;
            }
            Err(refusal) => return Err(Halt {
                refusal,
                placed: Placed { column, at },
            }),
        }
    }
    Ok(Placed { column, at })
}

// The row of a line of a kind from a place on, or the refusal of its first bad field and the row in front of it; the line starts at `base` in the file.
#[tactic(auto, using(crate::proofs::FillLaws::fills_begun))]
pub fn fill(c: Context, kind: u64, s: &[u8], base: usize, from: usize) -> Result<Filling, Stop>
    requires { (from ≤ length s.now) × (base + length s.now < 2 ^ 62) × (kind < 2 ^ 63) }
    ensures { result ≡ filled_until c kind base s.now from }
{
    let mut row = [kind as i64, 0, 0, 0, 0, 0, 0, 0, 0, 0];
    match fill_row(c, kind, s, base, &mut row, from) {
        Ok(Placed { column, at }) => Ok(Filling { row, column, at }),
        Err(Halt { refusal, placed }) => {
            let Placed { column, at } = placed;
            Err(Stop {
                refusal,
                filling: Filling { row, column, at },
            })
        }
    }
}
