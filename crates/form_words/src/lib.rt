// Section keywords and words, each looked up in a table of fixed byte strings, padded with spaces.
#![tactic(auto)]

mod keywords;
mod words;

ghost use Rattle.std.specs.Prelude.{◌≡◌, ◌+◌, ◌≤◌};
ghost use Rattle.form.specs.Compare.{place_of};
ghost use Rattle.law.specs.Words.{folded, same_bytes, prop_word, words_of};
ghost use Rattle.form.specs.Reading.{keyword_of};
ghost use Rattle.std.specs.List.{list_all, zip};
ghost use Rattle.form_words.specs.Padded.{agree, agrees_at, matched, sought, found, rows_of, word_row, keyword_row, name_row, closing_row, closing_of};

use form::Keyword;
use keywords::{CLOSING_FORMS, FIFTH, KEYWORDS, NAMES};
use law::{Rules, Words};
use words::WORDS;

// Whether bytes are in capitals those in front of a row, none of which is padding.
fn agrees(row: &[u8], s: &[u8]) -> bool
    ensures { result ≡ list_all agree (zip row.now s.now) }
{
    row.iter()
        .zip(s)
        .all(|(r, b)| *r != b' ' && *r == basics::capital_of(*b))
}

// Whether a row has at a place the byte of others, in any letter case, or these end before it.
#[tactic(auto, unfolding(crate::specs::Padded::agrees_at))]
fn agrees_at(row: &[u8], s: &[u8], at: usize) -> bool
    ensures { result ≡ agrees_at row.now s.now at }
{
    s.len() <= at || row.get(at).copied().unwrap_or(0) == basics::capital_of(s[at])
}

// Whether bytes are, in any letter case, those of a padded row. A row is compared only where it agrees at the first place and at
// another, which tell most rows apart, and where it is not longer than the bytes.
#[tactic(auto, using(crate::proofs::PaddedLaws::matching))]
fn matches(row: &[u8], s: &[u8], tells: usize) -> bool
    ensures { result ≡ matched row.now s.now }
{
    if !agrees_at(row, s, 0) {
        return false;
    }
    if !agrees_at(row, s, tells) {
        return false;
    }
    let n = s.len();
    if row.len() < n {
        return false;
    }
    if n < row.len() && row[n] != b' ' {
        return false;
    }
    agrees(row, s)
}

// The place from 0 of the bytes, in any letter case, among some rows, of which the byte at a place tells most apart.
fn place_among<const N: usize>(rows: &[[u8; N]], s: &[u8], tells: usize) -> Option<usize>
    ensures { result ≡ sought 0 rows.now s.now }
{
    rows.iter().position(
        |row: &[u8; N]| -> bool
            ensures { result ≡ matched row.now s.entry.now }
        { matches(row, s, tells) },
    )
}

// The rows of a list of words.
fn rows_of(v: Rules, l: Words) -> &'static [[u8; 16]]
    ensures { result.now ≡ rows_of v l }
{
    match v {
        Rules::Idf3 => match l {
            Words::FileTypes => &WORDS[0..3],
            Words::Units => &WORDS[3..5],
            Words::Owners => &WORDS[5..8],
            Words::Faces => &WORDS[8..10],
            Words::Sides => &WORDS[10..13],
            Words::Layers => &WORDS[13..18],
            Words::Plates => &WORDS[18..20],
            Words::Statuses => &WORDS[20..24],
        },
    }
}

// The place from 0 of a bare word, in any letter case, in its list.
pub fn place_of(v: Rules, l: Words, s: &[u8]) -> Option<u64>
    ensures { result ≡ found (place_of (words_of v l) (folded s.now)) }
{
    place_among(rows_of(v, l), s, 0).map(|n| n as u64)
}

// The row of a word, by its place in its list; a blank one where the list has no such place.
pub fn word_row(v: Rules, l: Words, n: u64) -> [u8; 16]
    ensures { result ≡ word_row v l n }
{
    rows_of(v, l)
        .get(n as usize)
        .copied()
        .unwrap_or(*b"                ")
}

// Whether a bare field is, in any letter case, the word before a property's name.
pub fn is_prop(s: &[u8]) -> bool
    ensures { result ≡ same_bytes prop_word (folded s.now) }
{
    basics::same_letters(b"PROP", false, s, true)
}

// What a keyword does, its period left off, where it does not open a section.
fn closing(s: &[u8]) -> Keyword
    ensures { result ≡ closing_of s.now }
{
    match place_among(&KEYWORDS[CLOSING_FORMS..], s, FIFTH) {
        Some(n) => Keyword::Closing(n as u64 + 1),
        None => Keyword::Unknown,
    }
}

// What a keyword does.
pub fn read_keyword(s: &[u8]) -> Keyword
    ensures { result ≡ keyword_of (folded s.now) }
{
    let Some(name) = s.strip_prefix(b".") else {
        return Keyword::Unknown;
    };
    match place_among(&KEYWORDS[NAMES..CLOSING_FORMS], name, FIFTH) {
        Some(n) => Keyword::Opening(n as u64 + 1),
        None => closing(name),
    }
}

// The row of a section among fifteen rows of keywords; a blank one where there is no such section.
fn keyword_row(first: usize, s: u64) -> [u8; 20]
    requires { first + 15 ≤ 30 }
    ensures { result ≡ keyword_row first s }
{
    match s {
        1..=15 => KEYWORDS[first + s as usize - 1],
        _ => *b"                    ",
    }
}

// The row of a section's name.
pub fn name_row(s: u64) -> [u8; 20]
    ensures { result ≡ name_row s }
{
    keyword_row(NAMES, s)
}

// The row of a section's closing form.
pub fn closing_row(s: u64) -> [u8; 20]
    ensures { result ≡ closing_row s }
{
    keyword_row(CLOSING_FORMS, s)
}
