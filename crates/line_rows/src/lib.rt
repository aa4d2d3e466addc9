// One line by itself: what it is, and the row that its fields give under a layout.
#![tactic(auto)]

pub mod columns;
pub mod looks;

use law::refusals::Refusal;
use rows::WIDTH;

// A line: a comment or blank; a keyword line; a data line, which begins with the bare word PROP or not.
// The last two with the number of all fields and the place behind the first.
#[derive(Clone, Copy)]
pub enum LineKind {
    Free,
    Key(form::Keyword, usize, usize),
    Data(bool, usize, usize),
}

// A field as it goes into a row: a number, a word's place, a text's start in the line and length; each with the place behind it.
#[derive(Clone, Copy)]
pub enum Entry {
    Number(i64, usize),
    Word(u64, usize),
    Text(usize, usize, usize),
}

// A row as it is filled: its columns, the next one, and the place in the line.
#[derive(Clone, Copy)]
pub struct Filling {
    pub row: [i64; WIDTH],
    pub column: usize,
    pub at: usize,
}

// Where the filling of a row stopped: the refusal of a field, and the row with the columns in front of it.
#[derive(Clone, Copy)]
pub struct Stop {
    pub refusal: Refusal,
    pub filling: Filling,
}

// What is known of a row beside its columns: the next one, and the place in the line.
#[derive(Clone, Copy)]
struct Placed {
    column: usize,
    at: usize,
}

// What is known beside its columns of a row whose filling stopped: the refusal, and what was known before.
#[derive(Clone, Copy)]
struct Halt {
    refusal: Refusal,
    placed: Placed,
}
