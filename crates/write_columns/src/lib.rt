// Rows that are to be written: whether the columns of a row hold the values of a record, over the bytes that are lent with them.
#![tactic(auto)]

ghost use Rattle.std.specs.Prelude.{◌≡◌, ◌<◌, drop};
ghost use Rattle.law.specs.Bytes.{all_of};
ghost use Rattle.law.specs.Values.{text};
ghost use Rattle.law.specs.Layouts.{types_of};
ghost use Rattle.law.specs.Fits.{text_byte, meaning, fits};
ghost use Rattle.write_columns.specs.Columns.{lies_in, word_fits, integer_fits, range_fits, field_fits, column_fits, all_zero, fields_fit, row_fits};

use law::{Context, FieldType, Rules, Words};
use number::Integer;
use rows::WIDTH;

// Whether a byte may stand in a text: it is permitted, and no quote.
fn in_text(b: u8) -> bool
    ensures { result ≡ text_byte b }
{
    text::permits(b) & (b != b'"')
}

// Whether bytes are those of a text.
fn is_text(s: &[u8]) -> bool
    ensures { result ≡ all_of text_byte s.now }
{
    s.iter().all(|b| in_text(*b))
}

// Whether what bytes mean may be held at a field of a type; none but texts and dates are held as bytes.
fn holds_bytes(c: Context, t: FieldType, s: &[u8]) -> bool
    ensures { result ≡ fits c t (text (meaning t s.now)) }
{
    match t {
        FieldType::Text(k) => !line_fields::is_barred(c, k, s) & is_text(s),
        FieldType::Date => number_read::is_date(s),
        FieldType::Integer => false,
        FieldType::Number(_) => false,
        FieldType::Word(_) => false,
    }
}

// Whether a start and a length lie within n bytes.
fn lies_in(n: usize, start: i64, len: i64) -> bool
    ensures { result ≡ lies_in n start len }
{
    if (start < 0) | (len < 0) {
        return false;
    }
    let l = number::magnitude(len);
    if (n as u64) < l {
        return false;
    }
    number::magnitude(start) <= n as u64 - l
}

// Whether a start and a length name bytes that may be held at a field.
fn range_fits(c: Context, t: FieldType, bytes: &[u8], start: i64, len: i64) -> bool
    ensures { result ≡ range_fits c t bytes.now start len }
{
    if !lies_in(bytes.len(), start, len) {
        return false;
    }
    let a = number::magnitude(start) as usize;
    let n = number::magnitude(len) as usize;
    holds_bytes(c, t, &bytes[a..a + n])
}

// Whether a number is an integer that may be held.
#[tactic(auto, unfolding(crate::specs::Columns::integer_fits))]
fn integer_fits(z: i64) -> bool
    ensures { result ≡ integer_fits z }
{
    Integer::new(z).is_some()
}

// Whether a number is the place of a word.
fn word_fits(v: Rules, l: Words, z: i64) -> bool
    ensures { result ≡ word_fits v l z }
{
    if z < 0 {
        return false;
    }
    let row = form_words::word_row(v, l, number::magnitude(z));
    write_texts::padded_len(&row) != 0
}

// Whether columns hold a value of a type, the second one looked at for a text or a date only.
fn field_fits(c: Context, t: FieldType, bytes: &[u8], a: i64, b: i64) -> bool
    ensures { result ≡ field_fits c t bytes.now a b }
{
    match t {
        FieldType::Text(_) => range_fits(c, t, bytes, a, b),
        FieldType::Date => range_fits(c, t, bytes, a, b),
        FieldType::Integer => integer_fits(a),
        FieldType::Number(l) => line_fields::is_within(c, l, a),
        FieldType::Word(l) => {
            let v = c.rules;
            word_fits(v, l, a)
        }
    }
}

// Whether a row holds a value of a type from a column on.
fn column_fits(c: Context, t: FieldType, bytes: &[u8], row: &[i64], i: usize) -> bool
    requires { i < 100 }
    ensures { result ≡ column_fits c t bytes.now row.now i }
{
    field_fits(
        c,
        t,
        bytes,
        rows::column_at(row, i),
        rows::column_at(row, i + 1),
    )
}

// Whether the columns of a row from one on are 0.
fn is_zero_from(row: [i64; WIDTH], from: usize) -> bool
    ensures { result ≡ all_zero (drop from row) }
{
    for i in from..WIDTH {
        if row[i] != 0 {
            return false;
        }
    }
    true
}

// Whether a row of a kind holds the values of a record of it, and 0 in the columns behind them. Fields are counted: an iterator over
// types and columns would be a type with laws of its own, for a loop of five lines.
fn fields_fit(c: Context, kind: u64, bytes: &[u8], row: [i64; WIDTH]) -> bool
    ensures { result ≡ fields_fit c bytes.now row (types_of c.rules kind) 1 }
{
    let v = c.rules;
    let n = form_layouts::field_count(v, kind);
    let layout = form_layouts::row_of(v, kind);
    let mut k = 1;
    for i in 0..n {
        let t = form_layouts::field_type(v, kind, layout, i);
        if !column_fits(c, t, bytes, &row, k) {
            return false;
        }
        k += form_layouts::width_of(t);
    }
    is_zero_from(row, k)
}

// Whether a row holds the values of a record.
pub fn row_fits(c: Context, bytes: &[u8], row: [i64; WIDTH]) -> bool
    ensures { result ≡ row_fits c bytes.now row }
{
    let v = c.rules;
    let z = row[rows::KIND];
    if z < 0 {
        return false;
    }
    let kind = number::magnitude(z);
    if !form_layouts::is_kind(v, kind) {
        return false;
    }
    fields_fit(c, kind, bytes, row)
}
