// Two files walked side by side, record by record.
ghost use Rattle.std.specs.Prelude.{◌≡◌, ◌≤◌, length};
ghost use Rattle.law.specs.Answers.{limit};
ghost use Rattle.same.specs.NextRows.{NextRow};
ghost use Rattle.same.specs.SameLists.{same_files};

use crate::{Ignored, records};
use rows::WIDTH;
use walk::steps::{self, Turns};

// The row of the next record of what is left of a file, comments and blank lines passed over; none where no record is left.
fn next_row(lines: &mut Turns<'_>) -> Option<[i64; WIDTH]>
    ensures { NextRow lines.old result lines.new }
{
    while let Some(t) = lines.next() {
        if steps::is_row(t.found) {
            return Some(t.row);
        }
        if steps::stops(t.found) {
            return None;
        }
    }
    None
}

// Whether two files have the same records in the same order, but for the fields that are left out.
pub fn same_lists(g: Ignored, first: &[u8], second: &[u8]) -> bool
    requires { (length first.now ≤ limit) × (length second.now ≤ limit) }
    ensures { result ≡ same_files g first.now second.now }
{
    let mut left = Turns::of(first);
    let mut right = Turns::of(second);
    while let Some(x) = next_row(&mut left) {
        match next_row(&mut right) {
            None => return false,
            Some(y) => {
                if !records::same_row(g, first, x, second, y) {
                    return false;
                }
            }
        }
    }
    next_row(&mut right).is_none()
}
