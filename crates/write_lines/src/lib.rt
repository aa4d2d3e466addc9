// One row as a line of canonical text: how many bytes it takes, and the line itself, written into a lent slice from a place on.
#![tactic(auto)]

pub mod fronts;
pub mod values;

ghost use Rattle.std.specs.Prelude.{◌≡◌, true, ◌+◌, ◌≤◌, ◌<◌, length};
ghost use Rattle.rows.specs.Columns.{column_at};
ghost use Rattle.law.specs.Layouts.{types_of};
ghost use Rattle.number_print.specs.Printing.{Wrote};
ghost use Rattle.law.specs.Answers.{limit};
ghost use Rattle.write_columns.specs.Columns.{column_fits, fields_fit, row_fits};
ghost use Rattle.write_lines.specs.LineText.{line_text, anywhere, up_to, value_text, column_text, fields_text};

use law::{FieldType, Rules};
use order::LIMIT;
use rows::WIDTH;

// A sum, up to one more than the limit.
fn longer(sum: usize, n: usize) -> usize
    requires { sum ≤ limit + 1 }
    ensures { result ≡ up_to (sum + n) }
{
    if LIMIT < n {
        return LIMIT + 1;
    }
    let s = sum + n;
    if LIMIT < s {
        return LIMIT + 1;
    }
    s
}

// A sum with the field from column i on and the byte behind it.
fn with_column(sum: usize, v: Rules, t: FieldType, bytes: &[u8], row: &[i64], i: usize) -> usize
    requires sum { sum ≤ limit + 1 }
    requires column { i < 100 }
    requires fits { column_fits (anywhere v) t bytes.now row.now i ≡ true }
    ensures { result ≡ up_to (sum + (length (value_text v t bytes.now (column_at row.now i) (column_at row.now (i + 1))) + 1)) }
{
    let a = rows::column_at(row, i);
    let b = rows::column_at(row, i + 1);
    let n = values::value_len(v, t, bytes, a, b);
    longer(longer(sum, n), 1)
}

// The field from column i on before n more, with the byte behind it.
fn put_column(
    out: &mut [u8],
    at: usize,
    v: Rules,
    t: FieldType,
    bytes: &[u8],
    row: &[i64],
    i: usize,
    n: usize,
) -> usize
    requires column { i < 100 }
    requires fits { column_fits (anywhere v) t bytes.now row.now i ≡ true }
    requires room { at + length (column_text v t bytes.now row.now i n) ≤ length out.old }
    ensures { Wrote out.old out.new at result (column_text v t bytes.now row.now i n) }
{
    let a = rows::column_at(row, i);
    let b = rows::column_at(row, i + 1);
    values::put_ended(out, at, v, t, bytes, a, b, n)
}

// A sum with the fields of a row of a kind, which are counted as in `write_columns::fields_fit`. Lengths are found without the bytes,
// since a slice that is too short stays as it is.
fn with_fields(sum: usize, v: Rules, kind: u64, bytes: &[u8], row: [i64; WIDTH]) -> usize
    requires sum { sum ≤ limit + 1 }
    requires fits { fields_fit (anywhere v) bytes.now row (types_of v kind) 1 ≡ true }
    ensures { result ≡ up_to (sum + length (fields_text v bytes.now row (types_of v kind) 1)) }
{
    let n = form_layouts::field_count(v, kind);
    let layout = form_layouts::row_of(v, kind);
    let mut len = sum;
    let mut k = 1;
    for i in 0..n {
        let t = form_layouts::field_type(v, kind, layout, i);
        len = with_column(len, v, t, bytes, &row, k);
        k += form_layouts::width_of(t);
    }
    len
}

// A sum with the length of a row's line, up to one more than the limit.
pub fn line_len(v: Rules, bytes: &[u8], row: [i64; WIDTH], sum: usize) -> usize
    requires sum { sum ≤ limit + 1 }
    requires fits { row_fits (anywhere v) bytes.now row ≡ true }
    ensures { result ≡ up_to (sum + length (line_text v bytes.now row)) }
{
    let kind = number::magnitude(row[rows::KIND]);
    let n = form_layouts::field_count(v, kind);
    let len = longer(sum, fronts::front_len(v, kind, n));
    with_fields(len, v, kind, bytes, row)
}

// The fields of a row of a kind, counted as in `write_columns::fields_fit`.
fn put_fields(
    out: &mut [u8],
    at: usize,
    v: Rules,
    kind: u64,
    bytes: &[u8],
    row: [i64; WIDTH],
) -> usize
    requires fits { fields_fit (anywhere v) bytes.now row (types_of v kind) 1 ≡ true }
    requires room { at + length (fields_text v bytes.now row (types_of v kind) 1) ≤ length out.old }
    ensures { Wrote out.old out.new at result (fields_text v bytes.now row (types_of v kind) 1) }
{
    let n = form_layouts::field_count(v, kind);
    let layout = form_layouts::row_of(v, kind);
    let mut e = at;
    let mut k = 1;
    for i in 0..n {
        let t = form_layouts::field_type(v, kind, layout, i);
        e = put_column(out, e, v, t, bytes, &row, k, n - i - 1);
        k += form_layouts::width_of(t);
    }
    e
}

// A row's line.
pub fn put_line(out: &mut [u8], at: usize, v: Rules, bytes: &[u8], row: [i64; WIDTH]) -> usize
    requires fits { row_fits (anywhere v) bytes.now row ≡ true }
    requires room { at + length (line_text v bytes.now row) ≤ length out.old }
    ensures { Wrote out.old out.new at result (line_text v bytes.now row) }
{
    let kind = number::magnitude(row[rows::KIND]);
    let n = form_layouts::field_count(v, kind);
    let e = fronts::put_front(out, at, v, kind, n);
    put_fields(out, e, v, kind, bytes, row)
}
