// Edits of the rows that a file gave.
ghost use Rattle.std.specs.Prelude.{◌<◌};

use rows::STRIDE;
use run::columns;

// How many bytes an edit has.
pub(crate) const SIZE: usize = 32;

// The place of a column in a row, both counted from 1; no case has a 0 there.
fn place(row: usize, column: usize) -> usize
    requires { (row < 10000000) × (column < 10000000) }
    ensures { result < 1000000000 }
{
    if row == 0 || column == 0 {
        return 0;
    }
    (row - 1) * STRIDE + column - 1
}

// Puts a number at a place, and at that of each row behind it up to a last place, as far as there are such.
fn put_each(rows: &mut [i64], first: usize, last: usize, z: i64)
    requires { last < 1000000000 }
{
    for number in rows.iter_mut().take(last + 1).skip(first).step_by(STRIDE) {
        *number = z;
    }
}

// Makes an edit.
fn make_one(rows: &mut [i64], edit: &[u8]) {
    let column = columns::count(edit, 8..11);
    let first = place(columns::count(edit, 0..4), column);
    let last = place(columns::count(edit, 4..8), column);
    put_each(rows, first, last, columns::signed(edit, 11..31));
}

// Makes edits, one after the other.
pub(crate) fn make(rows: &mut [i64], edits: &[u8]) {
    for edit in edits.chunks_exact(SIZE) {
        make_one(rows, edit);
    }
}
