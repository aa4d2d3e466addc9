// One walk over a file, a line at a time: what a line turned out to be, and where the walk stands after it.
#![tactic(auto)]

pub mod line;
pub mod steps;

use law::refusals::Refusal;
use order::State;

// What a line turned out to be: a record; a comment or blank between sections; refused.
#[derive(Clone, Copy)]
pub enum Found {
    Row,
    Nothing,
    Refused(Refusal),
}

// A line judged: its row if it is a record, the state after it, and what it is. What it is stands last, here and in a turn: it has two
// bytes, and what stood behind it would be copied from an odd place; a line without a field would take twice the time.
#[derive(Clone, Copy)]
pub struct JudgedLine {
    pub row: [i64; rows::WIDTH],
    pub state: State,
    pub found: Found,
}

// Where a walk stands: the place of the next line, its number from 1, and the state before it.
#[derive(Clone, Copy)]
pub struct Walk {
    pub at: usize,
    pub line: u64,
    pub state: State,
}

// One step of a walk: a line's row, its number, where the walk stands after it, and what the line is.
#[derive(Clone, Copy)]
pub struct Turn {
    pub row: [i64; rows::WIDTH],
    pub line: u64,
    pub walk: Walk,
    pub found: Found,
}
