// Components by name: no two of a library share both geometry and part (refusal 12).
//
// Whether a name came before is a question about all lines before it. There is no heap, and a library within the size limit may
// have hundreds of thousands of components, so their names cannot be kept; to look back through the file for each of them takes
// quadratic time. The definition does look back for each (`repeat_of`, specs/Names). The code finds the same line so:
//
//  1. On the walk that `check` makes in any case, each name sets ten bits among some four million, as told by a hash of both
//     texts (`is_doubtful`). A name that lacks one of its bits came on no line before. One that has them all may have
//     come, or other names have set its bits: it is doubtful, and sets ten bits in a second, small set of marks, the doubts.
//  2. Without a doubt there is no 12. Otherwise a second walk decides (`first_repeat`). It asks doubtful names only, and marks
//     only these, in a third set that is nearly empty (`is_again`).
//  3. A name that has all its bits there too is looked for on the lines before and compared by its bytes (`is_used`). The first
//     line where one is found is the answer.
//
// A name that comes again has all its bits by then, so it is doubtful, and no repeat is missed.
//
// Cost: a file is walked over once, or twice where a name is doubtful, whatever the number of its components, and once more up
// to the line that is refused. The marks stand on the stack of the caller: MARKS and DOUBTS words of 16 bits, or FEW and DOUBTS
// for a file of fewer than SMALL bytes, since to empty the larger array takes longer than to check a small file. Names that
// were made to have one hash are looked for one by one, and then time is quadratic again.
//
// Proved: a doubtful name without its mark came on no line before (`Telling`, specs/Marks); the first line that names a
// doubtful component again is the first that names any again, and without a doubt there is none (`Doubted`). So no reply
// depends on the hash, the bits or the sizes of the arrays. The writer asks its rows in the same way (`write::repeats`).
#![tactic(auto)]

ghost use Rattle.std.specs.Prelude.{◌≡◌, ◌≤◌, ◌<◌, length};
ghost use Rattle.rows_texts.specs.Names.{key_of};
ghost use Rattle.law.specs.Answers.{limit};
ghost use Rattle.walk.specs.Walks.{trace_of};
ghost use Rattle.names.specs.Names.{is_named, names_same, is_used};
ghost use Rattle.names.specs.Marks.{held_if, marked_if, repeats_among, repeat_among, Telling};

use rows::WIDTH;
use rows_texts::hash_name;
use walk::Turn;
use walk::steps::{self, Turns};

// How many words a walk has at hand for the marks of names, 496 KiB of them, and how many for those of doubtful names; and how
// many are enough for fewer than so many bytes, or so many numbers of rows.
pub const MARKS: usize = 253_952;

pub const DOUBTS: usize = 1_024;

pub const FEW: usize = 4_096;

pub const SMALL: usize = 32_768;

// Whether a line names a component.
#[tactic(auto, unfolding(crate::specs::Names::is_named))]
pub fn names_component(t: Turn) -> bool
    ensures { result ≡ is_named t }
{
    steps::is_row(t.found) && rows::leads_component(t.row)
}

// Whether a line names the component that a row names.
#[tactic(auto, unfolding(crate::specs::Names::names_same))]
fn names_same(file: &[u8], t: Turn, x: [i64; WIDTH]) -> bool
    ensures { result ≡ names_same file.now t x }
{
    names_component(t) && rows_texts::same_names(file, t.row, file, x)
}

// Whether a line before line n names the component that a row names.
fn is_used(file: &[u8], n: u64, x: [i64; WIDTH]) -> bool
    requires { length file.now ≤ limit }
    ensures { result ≡ is_used file.now n x }
{
    if n < 2 {
        return false;
    }
    for t in Turns::of(file) {
        if steps::stops(t.found) {
            return false;
        }
        if names_same(file, t, x) {
            return true;
        }
        // Line n is not judged once more: it may be nearly all of the file.
        if n <= t.walk.line {
            return false;
        }
    }
    false
}

// Whether a row's name may have come before, as far as marks tell, where it has one. It gets its mark here, and one among the
// doubtful names where it may.
pub fn is_doubtful(
    file: &[u8],
    named: bool,
    x: [i64; WIDTH],
    marks: &mut [u16],
    doubts: &mut [u16],
) -> bool
    requires { (0 < length marks.old) × (0 < length doubts.old) }
    ensures value { result ≡ held_if named marks.old (key_of file.now x) }
    ensures marks_after { marks.new ≡ marked_if named marks.old (key_of file.now x) }
    ensures doubts_after { doubts.new ≡ marked_if (held_if named marks.old (key_of file.now x)) doubts.old (key_of file.now x) }
{
    if !named {
        return false;
    }
    let h = hash_name(file, x);
    if names_slots::marks::mark(marks, h) {
        names_slots::marks::mark(doubts, h);
        return true;
    }
    false
}

// Whether a row's name is doubtful and may have come before among the doubtful ones, where it has one; such a name gets its mark here.
pub fn is_again(
    file: &[u8],
    named: bool,
    x: [i64; WIDTH],
    doubts: &[u16],
    marks: &mut [u16],
) -> bool
    requires { (0 < length doubts.now) × (0 < length marks.old) }
    ensures value { result ≡ held_if (held_if named doubts.now (key_of file.now x)) marks.old (key_of file.now x) }
    ensures marks_after { marks.new ≡ marked_if (held_if named doubts.now (key_of file.now x)) marks.old (key_of file.now x) }
{
    if !named {
        return false;
    }
    let h = hash_name(file, x);
    if names_slots::marks::may_hold(doubts, h) {
        return names_slots::marks::mark(marks, h);
    }
    false
}

// Whether line n names a doubtful component as a line before it did; one without a mark came on none.
fn repeats(file: &[u8], n: u64, t: Turn, doubts: &[u16], marks: &mut [u16]) -> bool
    requires { (length file.now ≤ limit) × Telling file.now n doubts.now marks.old }
    ensures value { result ≡ repeats_among file.now doubts.now n t }
    ensures marks_after { marks.new ≡ marked_if (held_if (is_named t) doubts.now (key_of file.now t.row)) marks.old (key_of file.now t.row) }
{
    if is_again(file, names_component(t), t.row, doubts, marks) {
        return is_used(file, n, t.row);
    }
    false
}

// The first line that names a doubtful component as a line before it did, or 0; `marks` are those of the doubtful names that came.
fn repeat_by(file: &[u8], doubts: &[u16], marks: &mut [u16]) -> u64
    requires { (length file.now ≤ limit) × (0 < length doubts.now) × (0 < length marks.old) }
    ensures { result ≡ repeat_among file.now doubts.now (trace_of file.now) }
{
    for t in Turns::of(file) {
        if steps::stops(t.found) {
            return 0;
        }
        if repeats(file, t.line, t, doubts, marks) {
            return t.line;
        }
    }
    0
}

// The first line that names a doubtful component as a line before it did, or 0.
pub fn first_repeat(file: &[u8], doubts: &[u16]) -> u64
    requires { (length file.now ≤ limit) × (0 < length doubts.now) }
    ensures { result ≡ repeat_among file.now doubts.now (trace_of file.now) }
{
    let mut marks: [u16; DOUBTS] = [0; DOUBTS];
    repeat_by(file, doubts, &mut marks)
}
