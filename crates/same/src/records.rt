// Two records by their rows, each in its own file: the same kind, and each field by its type.
ghost use Rattle.std.specs.Prelude.{◌≡◌, ◌+◌, ◌≤◌, ◌<◌, drop};
ghost use Rattle.form_layouts.specs.Letters.{width_of};
ghost use Rattle.law.specs.Rows.{width};
ghost use Rattle.same.specs.Ignoring.{most_fields, ignored_at};
ghost use Rattle.same.specs.SameRows.{holds_bytes, same_field, agrees_at, same_fields, same_row};

use crate::Ignored;
use law::{FieldType, Rules};
use rows::WIDTH;

// Whether a field of a type is held as bytes of its file; all others are held in the row itself.
fn holds_bytes(t: FieldType) -> bool
    ensures { result ≡ holds_bytes t }
{
    matches!(t, FieldType::Text(_) | FieldType::Date)
}

// Whether two records have the same in a field of a type, which begins at a column. Numbers by `basics::same_integers`, whose
// statement is on what the programs do.
fn same_field(
    t: FieldType,
    first: &[u8],
    x: [i64; WIDTH],
    second: &[u8],
    y: [i64; WIDTH],
    at: usize,
) -> bool
    requires { at + width_of t ≤ width }
    ensures { result ≡ same_field t first.now (drop at x) second.now (drop at y) }
{
    if holds_bytes(t) {
        return rows_texts::same_meanings(t, first, x[at], x[at + 1], second, y[at], y[at + 1]);
    }
    basics::same_integers(x[at], y[at])
}

// Whether a comparison leaves out field i of the records of a kind.
#[tactic(auto, unfolding(crate::specs::Ignoring::ignored_at))]
fn is_ignored(g: Ignored, kind: u64, i: usize) -> bool
    requires { i < most_fields }
    ensures { result ≡ ignored_at g kind i }
{
    g.kind == kind && g.fields[i]
}

// Whether two records of a kind agree in field i, of a type and from a column on, or it is left out.
#[tactic(auto, unfolding(crate::specs::SameRows::agrees_at))]
fn agrees_at(
    g: Ignored,
    kind: u64,
    i: usize,
    t: FieldType,
    first: &[u8],
    x: [i64; WIDTH],
    second: &[u8],
    y: [i64; WIDTH],
    at: usize,
) -> bool
    requires { (i < most_fields) × (at + width_of t ≤ width) }
    ensures { result ≡ agrees_at g kind i t first.now (drop at x) second.now (drop at y) }
{
    is_ignored(g, kind, i) || same_field(t, first, x, second, y, at)
}

// Whether two records of a kind agree in all fields but those that are left out.
fn same_fields(
    g: Ignored,
    kind: u64,
    first: &[u8],
    x: [i64; WIDTH],
    second: &[u8],
    y: [i64; WIDTH],
) -> bool
    ensures { result ≡ same_fields g kind first.now x second.now y }
{
    let n = form_layouts::field_count(Rules::Idf3, kind);
    let layout = form_layouts::row_of(Rules::Idf3, kind);
    let mut at = 1;
    for i in 0..n {
        let t = form_layouts::field_type(Rules::Idf3, kind, layout, i);
        if !agrees_at(g, kind, i, t, first, x, second, y, at) {
            return false;
        }
        at += form_layouts::width_of(t);
    }
    true
}

// Whether two records are the same but for the fields that are left out.
pub fn same_row(g: Ignored, first: &[u8], x: [i64; WIDTH], second: &[u8], y: [i64; WIDTH]) -> bool
    ensures { result ≡ same_row g first.now x second.now y }
{
    if x[rows::KIND] != y[rows::KIND] {
        return false;
    }
    same_fields(g, number::magnitude(x[rows::KIND]), first, x, second, y)
}
