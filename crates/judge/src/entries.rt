// The entries of a library, and what the placements of a board need of them.
ghost use Rattle.std.specs.Prelude.{◌≡◌, ◌≤◌, length};
ghost use Rattle.rows.specs.RowKinds.{component_kind};
ghost use Rattle.law.specs.Answers.{limit};
ghost use Rattle.judge.specs.Entries.{is_of, is_entry, has_entry, lacks_entry, lacks};
ghost use Rattle.judge.specs.Stocked.{Stocked};

use rows::WIDTH;
use walk::Turn;
use walk::steps::{self, Turns};

// Whether a line is a row of this kind.
pub fn is_of(t: Turn, kind: i64) -> bool
    ensures { result ≡ is_of t kind }
{
    let found = t.found;
    let row = t.row;
    if steps::is_row(found) {
        return rows::has_kind(row, kind);
    }
    false
}

// Whether a line of a library is a placement's entry, of this kind.
fn is_entry(board: &[u8], library: &[u8], t: Turn, kind: i64, x: [i64; WIDTH]) -> bool
    ensures { result ≡ is_entry board.now library.now t kind x }
{
    let row = t.row;
    if is_of(t, kind) {
        return rows_texts::same_names(library, row, board, x);
    }
    false
}

// Whether a library has a placement's entry, of this kind.
fn has_entry(board: &[u8], library: &[u8], kind: i64, x: [i64; WIDTH]) -> bool
    requires { length library.now ≤ limit }
    ensures { result ≡ has_entry board.now library.now kind x }
{
    for t in Turns::of(library) {
        if steps::stops(t.found) {
            return false;
        }
        if is_entry(board, library, t, kind, x) {
            return true;
        }
    }
    false
}

// Whether a library has a placement's entry, of this kind; the slots show most, and the library is looked through for the others.
// Library and slots are two parameters here and below, as they are of `lacks`, whose contract docs/TIGHT.md names.
fn is_stocked(
    board: &[u8],
    library: &[u8],
    places: &[u64],
    mechanical: bool,
    x: [i64; WIDTH],
) -> bool
    requires { (length library.now ≤ limit) × Stocked library.now places.now }
    ensures { result ≡ has_entry board.now library.now (component_kind mechanical) x }
{
    if judge_stock::has_place(board, library, places, mechanical, x) {
        return true;
    }
    has_entry(board, library, rows::component_kind(mechanical), x)
}

// Whether a placement lacks its entry: BOARD needs none, NOREFDES a mechanical one, all others an electrical one.
fn lacks_entry(board: &[u8], library: &[u8], places: &[u64], x: [i64; WIDTH]) -> bool
    requires { (length library.now ≤ limit) × Stocked library.now places.now }
    ensures { result ≡ lacks_entry board.now library.now x }
{
    if rows_texts::refers(board, x, b"BOARD") {
        return false;
    }
    if rows_texts::refers(board, x, b"NOREFDES") {
        return !is_stocked(board, library, places, true, x);
    }
    !is_stocked(board, library, places, false, x)
}

// Whether a line of a board is a placement that lacks its entry.
pub fn lacks(board: &[u8], library: &[u8], places: &[u64], t: Turn) -> bool
    requires { (length library.now ≤ limit) × Stocked library.now places.now }
    ensures { result ≡ lacks board.now library.now t }
{
    let row = t.row;
    if is_of(t, rows::PART) {
        return lacks_entry(board, library, places, row);
    }
    false
}
