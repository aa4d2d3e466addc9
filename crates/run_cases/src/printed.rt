// Rows as they are printed.
use rows::STRIDE;
use run::saying;

// Prints a row on a line, with a space between two of its numbers.
fn say_row(row: &[i64]) {
    for (i, z) in row.iter().enumerate() {
        if i > 0 {
            saying::say(b" ");
        }
        saying::signed(*z);
    }
    saying::end_line();
}

// Prints rows, a line each.
pub(crate) fn say(numbers: &[i64]) {
    for row in numbers.chunks_exact(STRIDE) {
        say_row(row);
    }
}
