// Texts and words as bytes, written into a lent slice from a place on, and the number of bytes that this takes.
#![tactic(auto)]

ghost use Rattle.std.specs.Prelude.{◌≡◌, ◌==◌, ◌+◌, ◌≤◌, length, position};
ghost use Rattle.law.specs.Bytes.{all_of};
ghost use Rattle.law.specs.Fields.{field};
ghost use Rattle.number_print.specs.Printing.{Wrote};
ghost use Rattle.form_words.specs.Padded.{trimmed};
ghost use Rattle.law.specs.Words.{folded};
ghost use Rattle.law.specs.Canonical.{no_space, needs_quotes, written};
ghost use Rattle.write_texts.specs.Meant.{meant_text};

use law::Texts;

// The bytes of a slice.
pub fn put_bytes(out: &mut [u8], at: usize, s: &[u8]) -> usize
    requires { at + length s.now ≤ length out.old }
    ensures { Wrote out.old out.new at result s.now }
{
    for (i, b) in s.iter().enumerate() {
        out[at + i] = *b;
    }
    at + s.len()
}

// Whether a text holds no space.
fn no_space(s: &[u8]) -> bool
    ensures { result ≡ all_of no_space s.now }
{
    !s.contains(&b' ')
}

// Whether a text is quoted: if it is empty, holds a space, or begins with # or a period.
pub fn needs_quotes(s: &[u8]) -> bool
    ensures { result ≡ needs_quotes s.now }
{
    if s.is_empty() || !no_space(s) {
        return true;
    }
    text::begins_with(s, b'#') | text::begins_with(s, b'.')
}

// How many bytes a text takes, with its quotes.
pub fn text_len(s: &[u8]) -> usize
    ensures { result ≡ length (written (field (needs_quotes s.now) s.now)) }
{
    if needs_quotes(s) {
        return s.len() + 2;
    }
    s.len()
}

// A text, with its quotes.
fn put_text(out: &mut [u8], at: usize, s: &[u8]) -> usize
    requires { at + length (written (field (needs_quotes s.now) s.now)) ≤ length out.old }
    ensures { Wrote out.old out.new at result (written (field (needs_quotes s.now) s.now)) }
{
    if needs_quotes(s) {
        let a = number_print::put_byte(out, at, b'"');
        let b = put_bytes(out, a, s);
        return number_print::put_byte(out, b, b'"');
    }
    put_bytes(out, at, s)
}

// The bytes of a slice, letters in capitals.
fn put_capitals(out: &mut [u8], at: usize, s: &[u8]) -> usize
    requires { at + length s.now ≤ length out.old }
    ensures { Wrote out.old out.new at result (folded s.now) }
{
    for (i, b) in s.iter().enumerate() {
        out[at + i] = basics::capital_of(*b);
    }
    at + s.len()
}

// What a text means, with its quotes: a name in capitals, which needs none.
pub fn put_meaning(out: &mut [u8], at: usize, k: Texts, s: &[u8]) -> usize
    requires { at + length (meant_text k s.now) ≤ length out.old }
    ensures { Wrote out.old out.new at result (meant_text k s.now) }
{
    if rows_names::is_named(k, s) {
        return put_capitals(out, at, s);
    }
    put_text(out, at, s)
}

// Where a row's padding begins, if it has any.
fn padding(row: &[u8]) -> Option<usize>
    ensures { result ≡ position (λ b. b == 32) row.now }
{
    row.iter().position(|b| *b == b' ')
}

// How many bytes stand before a row's padding.
pub fn padded_len(row: &[u8]) -> usize
    ensures { result ≡ length (trimmed row.now) }
{
    padding(row).unwrap_or(row.len())
}

// What stands before a row's padding.
pub fn put_padded(out: &mut [u8], at: usize, row: &[u8]) -> usize
    requires { at + length (trimmed row.now) ≤ length out.old }
    ensures { Wrote out.old out.new at result (trimmed row.now) }
{
    let n = padded_len(row);
    put_bytes(out, at, &row[..n])
}
