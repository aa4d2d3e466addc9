// The lines of rows by their numbers.
ghost use Rattle.std.specs.Prelude.{◌≡◌};
ghost use Rattle.std.specs.Int.Signed.{lt_z};
ghost use Rattle.write.specs.LineNumbers.{all_rise};

use rows::{STRIDE, WIDTH};

// Whether a number is above another; by itself, so that the edit `rise_twice_the_same` changes what a line is held to.
fn is_above(line: i64, last: i64) -> bool
    ensures { result ≡ lt_z last line }
{
    last < line
}

// Whether the lines of rows rise strictly from row to row, from 1 or more on.
pub(crate) fn rise(rows: &[i64]) -> bool
    ensures { result ≡ all_rise rows.now }
{
    let n = rows::capacity(rows.len());
    let mut last = 0;
    for i in 0..n {
        let line = rows[i * STRIDE + WIDTH];
        if !is_above(line, last) {
            return false;
        }
        last = line;
    }
    true
}
