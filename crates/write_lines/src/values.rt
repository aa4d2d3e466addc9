// One field's value as bytes: a text with its quotes where it needs them, a date, an integer, a number, a word.
ghost use Rattle.std.specs.Prelude.{◌≡◌, true, ◌+◌, ◌≤◌, nat_abs, length};
ghost use Rattle.law.specs.Limits.{largest_length};
ghost use Rattle.number_print.specs.Printing.{Wrote};
ghost use Rattle.law.specs.Canonical.{version_text, printed_number};
ghost use Rattle.rows_texts.specs.Texts.{text_at};
ghost use Rattle.write_columns.specs.Columns.{lies_in, field_fits};
ghost use Rattle.write_lines.specs.LineText.{anywhere, part_text, value_text, ended_text};

use crate::fronts;
use law::{FieldType, Limit, Rules, Texts};

// The bytes of a text or a date.
fn part(bytes: &[u8], start: i64, len: i64) -> &[u8]
    requires { lies_in (length bytes.now) start len ≡ true }
    ensures { result.now ≡ text_at bytes.now start len }
{
    let a = number::magnitude(start) as usize;
    let n = number::magnitude(len) as usize;
    &bytes[a..a + n]
}

// How many bytes a text takes, with its quotes: as many as what it means.
fn part_len(k: Texts, bytes: &[u8], start: i64, len: i64) -> usize
    requires { lies_in (length bytes.now) start len ≡ true }
    ensures { result ≡ length (part_text k bytes.now start len) }
{
    write_texts::text_len(part(bytes, start, len))
}

// A text, with its quotes.
fn put_part(out: &mut [u8], at: usize, k: Texts, bytes: &[u8], start: i64, len: i64) -> usize
    requires within { lies_in (length bytes.now) start len ≡ true }
    requires room { at + length (part_text k bytes.now start len) ≤ length out.old }
    ensures { Wrote out.old out.new at result (part_text k bytes.now start len) }
{
    write_texts::put_meaning(out, at, k, part(bytes, start, len))
}

// A date.
fn put_date(out: &mut [u8], at: usize, bytes: &[u8], start: i64, len: i64) -> usize
    requires within { lies_in (length bytes.now) start len ≡ true }
    requires room { at + length (text_at bytes.now start len) ≤ length out.old }
    ensures { Wrote out.old out.new at result (text_at bytes.now start len) }
{
    write_texts::put_bytes(out, at, part(bytes, start, len))
}

// The version.
fn put_version(out: &mut [u8], at: usize, v: Rules) -> usize
    requires { at + length (version_text v) ≤ length out.old }
    ensures { Wrote out.old out.new at result (version_text v) }
{
    match v {
        Rules::Idf3 => write_texts::put_bytes(out, at, b"3.0"),
    }
}

// How many bytes the version takes.
fn version_len(v: Rules) -> usize
    ensures { result ≡ length (version_text v) }
{
    match v {
        Rules::Idf3 => 3,
    }
}

// How many bytes a number takes.
fn number_len(v: Rules, l: Limit, z: i64) -> usize
    requires { nat_abs z ≤ largest_length }
    ensures { result ≡ length (printed_number v l z) }
{
    match l {
        Limit::Version => version_len(v),
        _ => number_print::count_len(z),
    }
}

// A number: the version as such, any other with five decimals.
fn put_number(out: &mut [u8], at: usize, v: Rules, l: Limit, z: i64) -> usize
    requires small { nat_abs z ≤ largest_length }
    requires room { at + length (printed_number v l z) ≤ length out.old }
    ensures { Wrote out.old out.new at result (printed_number v l z) }
{
    match l {
        Limit::Version => put_version(out, at, v),
        _ => number_print::put_count(out, at, z),
    }
}

// How many bytes the field of columns a and b takes.
pub(crate) fn value_len(v: Rules, t: FieldType, bytes: &[u8], a: i64, b: i64) -> usize
    requires { field_fits (anywhere v) t bytes.now a b ≡ true }
    ensures { result ≡ length (value_text v t bytes.now a b) }
{
    match t {
        FieldType::Text(k) => part_len(k, bytes, a, b),
        FieldType::Date => number::magnitude(b) as usize,
        FieldType::Integer => number_print::integer_len(a),
        FieldType::Number(l) => number_len(v, l, a),
        FieldType::Word(l) => {
            let row = form_words::word_row(v, l, number::magnitude(a));
            write_texts::padded_len(&row)
        }
    }
}

// The field of columns a and b.
fn put_value(
    out: &mut [u8],
    at: usize,
    v: Rules,
    t: FieldType,
    bytes: &[u8],
    a: i64,
    b: i64,
) -> usize
    requires fits { field_fits (anywhere v) t bytes.now a b ≡ true }
    requires room { at + length (value_text v t bytes.now a b) ≤ length out.old }
    ensures { Wrote out.old out.new at result (value_text v t bytes.now a b) }
{
    match t {
        FieldType::Text(k) => put_part(out, at, k, bytes, a, b),
        FieldType::Date => put_date(out, at, bytes, a, b),
        FieldType::Integer => number_print::put_integer(out, at, a),
        FieldType::Number(l) => put_number(out, at, v, l, a),
        FieldType::Word(l) => {
            let row = form_words::word_row(v, l, number::magnitude(a));
            write_texts::put_padded(out, at, &row)
        }
    }
}

// The field of columns a and b and the byte behind it, before n more fields.
pub(crate) fn put_ended(
    out: &mut [u8],
    at: usize,
    v: Rules,
    t: FieldType,
    bytes: &[u8],
    a: i64,
    b: i64,
    n: usize,
) -> usize
    requires fits { field_fits (anywhere v) t bytes.now a b ≡ true }
    requires room { at + length (ended_text v t bytes.now a b n) ≤ length out.old }
    ensures { Wrote out.old out.new at result (ended_text v t bytes.now a b n) }
{
    let e = put_value(out, at, v, t, bytes, a, b);
    number_print::put_byte(out, e, fronts::behind(n))
}
