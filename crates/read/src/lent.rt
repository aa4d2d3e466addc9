// Rows into a lent slice.
ghost use Rattle.std.specs.Prelude.{◌≡◌, ◌+◌, ◌^◌, ◌≤◌, ◌<◌, pos, length};
ghost use Rattle.std.proofs.Math.Seq.{paste};
ghost use Rattle.law.specs.Rows.{stride, with_line};
ghost use Rattle.law.specs.Answers.{limit, over};
ghost use Rattle.read.specs.Replies.{placed_at, place_behind, rows_of, RowRoom};

use rows::{STRIDE, WIDTH};
use walk::Turn;
use walk::steps::{self, Turns};

// One row into the slice, from a place on: the numbers of its record, and its line's.
pub fn put_row(rows: &mut [i64], at: usize, row: [i64; WIDTH], line: u64)
    requires { (at + stride ≤ length rows.old) × (line < 2 ^ 63) }
    ensures { rows.new ≡ paste rows.old at (with_line row (pos line)) stride }
{
    rows[at..at + WIDTH].copy_from_slice(&row);
    rows[at + WIDTH] = line as i64;
}

// The row of a line with its number, if it has one; answers the place behind it.
fn put_turn(rows: &mut [i64], at: usize, line: u64, t: Turn) -> usize
    requires { RowRoom rows.old at line t }
    ensures value { result ≡ place_behind at t }
    ensures rows_after { rows.new ≡ placed_at rows.old at line t }
{
    if steps::is_row(t.found) {
        put_row(rows, at, t.row, line);
        return at + STRIDE;
    }
    at
}

// All rows of a file, from the front of the slice on.
pub fn put_rows(file: &[u8], rows: &mut [i64])
    requires { (length file.now ≤ limit) × (length (rows_of file.now) ≤ length rows.old) }
    ensures { rows.new ≡ over (rows_of file.now) rows.old }
{
    let mut n = 0;
    for t in Turns::of(file) {
        if steps::stops(t.found) {
            return;
        }
        n = put_turn(rows, n, t.line, t);
    }
}
