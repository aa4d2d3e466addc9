// Components by name, among rows: no two share both geometry and part.
ghost use Rattle.std.specs.Prelude.{◌≡◌, ◌<◌, ◌*◌, ◌^◌, length, drop};
ghost use Rattle.rows_texts.specs.Names.{key_of};
ghost use Rattle.rows.specs.RowKinds.{leads_component};
ghost use Rattle.names.specs.Marks.{held_if, marked_if};
ghost use Rattle.write.specs.WholeRows.{whole_rows};
ghost use Rattle.write.specs.Writable.{names_it, named_in, twice};
ghost use Rattle.write.specs.Marks.{again_among, twice_among, Told, Doubted};

use crate::carried;
use names::{DOUBTS, FEW, MARKS, SMALL, is_again, is_doubtful};
use rows::{WIDTH, leads_component};
use rows_texts::same_names;

// Whether a row names the component that x names.
fn names_it(bytes: &[u8], x: [i64; WIDTH], y: [i64; WIDTH]) -> bool
    ensures { result ≡ names_it bytes.now x y }
{
    if leads_component(y) {
        return same_names(bytes, x, bytes, y);
    }
    false
}

// Whether a row from number `from` on names the component that x names.
fn named_from(rows: &[i64], bytes: &[u8], from: usize, x: [i64; WIDTH]) -> bool
    ensures { result ≡ named_in bytes.now x (drop from (whole_rows rows.now)) }
{
    let n = rows::capacity(rows.len());
    for i in from..n {
        if names_it(bytes, x, carried::row_at(rows, i)) {
            return true;
        }
    }
    false
}

// Whether a row before those from number `from` on names a doubtful component that one of them names again; one without a mark
// is named by none of them.
fn names_again(
    rows: &[i64],
    bytes: &[u8],
    from: usize,
    x: [i64; WIDTH],
    doubts: &[u16],
    marks: &mut [u16],
) -> bool
    requires { Told bytes.now (drop from (whole_rows rows.now)) doubts.now marks.old }
    ensures value { result ≡ again_among bytes.now doubts.now x (drop from (whole_rows rows.now)) }
    ensures marks_after { marks.new ≡ marked_if (held_if (leads_component x) doubts.now (key_of bytes.now x)) marks.old (key_of bytes.now x) }
{
    if is_again(bytes, leads_component(x), x, doubts, marks) {
        return named_from(rows, bytes, from, x);
    }
    false
}

// Whether two rows name one doubtful component, from the last row back; `marks` are those of the doubtful names behind.
fn twice_among(rows: &[i64], bytes: &[u8], doubts: &[u16], marks: &mut [u16]) -> bool
    requires doubts { 0 < length doubts.now }
    requires marks { 0 < length marks.old }
    ensures { result ≡ twice_among bytes.now doubts.now (whole_rows rows.now) }
{
    for i in (0..rows::capacity(rows.len())).rev() {
        if names_again(rows, bytes, i + 1, carried::row_at(rows, i), doubts, marks) {
            return true;
        }
    }
    false
}

// Whether a row's name is doubtful, from the last row back; `marks` are those of the names behind, `doubts` those of the names
// that may have come behind them.
fn doubted(rows: &[i64], bytes: &[u8], marks: &mut [u16], doubts: &mut [u16]) -> bool
    requires marks { 0 < length marks.old }
    requires doubts { 0 < length doubts.old }
    ensures { Doubted bytes.now doubts.new (whole_rows rows.now) result }
{
    let mut doubtful = false;
    for i in (0..rows::capacity(rows.len())).rev() {
        let row = carried::row_at(rows, i);
        doubtful |= is_doubtful(bytes, leads_component(row), row, marks, doubts);
    }
    doubtful
}

// Whether two rows name one component; doubtful names are gone through again, where there are any.
fn twice_by(rows: &[i64], bytes: &[u8], marks: &mut [u16], doubts: &mut [u16]) -> bool
    requires marks { 0 < length marks.old }
    requires doubts { 0 < length doubts.old }
    ensures { result ≡ twice bytes.now (whole_rows rows.now) }
{
    if !doubted(rows, bytes, marks, doubts) {
        return false;
    }
    let mut again: [u16; DOUBTS] = [0; DOUBTS];
    twice_among(rows, bytes, doubts, &mut again)
}

// The same with N marks at hand.
fn twice_within<const N: usize>(rows: &[i64], bytes: &[u8]) -> bool
    requires some { 0 < N }
    requires fits { N * 2 < 2 ^ 63 }
    ensures { result ≡ twice bytes.now (whole_rows rows.now) }
{
    let mut marks: [u16; N] = [0; N];
    let mut doubts: [u16; DOUBTS] = [0; DOUBTS];
    twice_by(rows, bytes, &mut marks, &mut doubts)
}

// Whether two rows name one component.
pub(crate) fn some_twice(rows: &[i64], bytes: &[u8]) -> bool
    ensures { result ≡ twice bytes.now (whole_rows rows.now) }
{
    if rows.len() < SMALL {
        return twice_within::<FEW>(rows, bytes);
    }
    twice_within::<MARKS>(rows, bytes)
}
