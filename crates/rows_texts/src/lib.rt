// Texts of files as rows name them, each by its start and length, and what they name; what lies past a file's end is left off.
#![tactic(auto)]

ghost use Rattle.std.specs.Prelude.{◌≡◌};
ghost use Rattle.names_slots.specs.Hashes.{hashed};
ghost use Rattle.rows_texts.specs.Texts.{text_at, text_is, same_meanings, same_texts};
ghost use Rattle.rows_texts.specs.Names.{same_geometry, same_part, same_names, key_of, refers};

use law::{FieldType, Texts};
use rows::{GEOMETRY, GEOMETRY_LEN, PART_NUMBER, PART_NUMBER_LEN, REFERENCE, REFERENCE_LEN, WIDTH};

// A text of a file.
fn text(file: &[u8], start: i64, len: i64) -> &[u8]
    ensures { result.now ≡ text_at file.now start len }
{
    let from = &file[(number::magnitude(start) as usize).min(file.len())..];
    &from[..(number::magnitude(len) as usize).min(from.len())]
}

// Whether a text of a file means these bytes at a field of a type.
#[tactic(auto, unfolding(crate::specs::Texts::text_is))]
pub fn text_is(t: FieldType, file: &[u8], start: i64, len: i64, word: &[u8]) -> bool
    ensures { result ≡ text_is t file.now start len word.now }
{
    rows_names::means(t, text(file, start, len), word)
}

// Whether texts of two files, or of one, are the same.
#[tactic(auto, unfolding(crate::specs::Texts::same_texts))]
pub fn same_texts(first: &[u8], start: i64, len: i64, second: &[u8], other: i64, size: i64) -> bool
    ensures { result ≡ same_texts first.now start len second.now other size }
{
    basics::same_bytes(text(first, start, len), text(second, other, size))
}

// Whether texts of two files mean the same at a field of a type.
#[tactic(auto, unfolding(crate::specs::Texts::same_meanings))]
pub fn same_meanings(
    t: FieldType,
    first: &[u8],
    start: i64,
    len: i64,
    second: &[u8],
    other: i64,
    size: i64,
) -> bool
    ensures { result ≡ same_meanings t first.now start len second.now other size }
{
    rows_names::same_meanings(t, text(first, start, len), text(second, other, size))
}

// The hash of a text behind what gave h.
pub fn hash_text(h: u64, file: &[u8], start: i64, len: i64) -> u64
    ensures { result ≡ hashed h (text_at file.now start len) }
{
    names_slots::hash(h, text(file, start, len))
}

// Whether two rows, each of its own file, have the same geometry or package; `same_part` asks two other columns, and each is one
// call.
fn same_geometry(first: &[u8], x: [i64; WIDTH], second: &[u8], y: [i64; WIDTH]) -> bool
    ensures { result ≡ same_geometry first.now x second.now y }
{
    same_texts(
        first,
        x[GEOMETRY],
        x[GEOMETRY_LEN],
        second,
        y[GEOMETRY],
        y[GEOMETRY_LEN],
    )
}

// Whether they have the same part number.
fn same_part(first: &[u8], x: [i64; WIDTH], second: &[u8], y: [i64; WIDTH]) -> bool
    ensures { result ≡ same_part first.now x second.now y }
{
    same_texts(
        first,
        x[PART_NUMBER],
        x[PART_NUMBER_LEN],
        second,
        y[PART_NUMBER],
        y[PART_NUMBER_LEN],
    )
}

// Whether they have the same of both, and so name one component.
#[tactic(auto, unfolding(crate::specs::Names::same_names))]
pub fn same_names(first: &[u8], x: [i64; WIDTH], second: &[u8], y: [i64; WIDTH]) -> bool
    ensures { result ≡ same_names first.now x second.now y }
{
    same_geometry(first, x, second, y) && same_part(first, x, second, y)
}

// The hash of a row's geometry and part.
#[tactic(auto, unfolding(crate::specs::Names::key_of))]
pub fn hash_name(file: &[u8], x: [i64; WIDTH]) -> u64
    ensures { result ≡ key_of file.now x }
{
    let h = hash_text(0, file, x[GEOMETRY], x[GEOMETRY_LEN]);
    hash_text(h, file, x[PART_NUMBER], x[PART_NUMBER_LEN])
}

// Whether a placement's reference means this.
#[tactic(auto, unfolding(crate::specs::Names::refers))]
pub fn refers(board: &[u8], x: [i64; WIDTH], word: &[u8]) -> bool
    ensures { result ≡ refers board.now x word.now }
{
    text_is(
        FieldType::Text(Texts::Reference),
        board,
        x[REFERENCE],
        x[REFERENCE_LEN],
        word,
    )
}
