// Rows as canonical text: whether they are a list that a file may say, and the text itself, written into a lent slice.
#![tactic(auto)]

pub mod carried;
pub mod numbers;
pub mod repeats;
pub mod texts;
pub mod whole;
