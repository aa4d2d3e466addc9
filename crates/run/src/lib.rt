// What the programs that run cases have in common. Each reads cases from standard input, asks an operation about each of them, and
// prints what came beside what is expected.
#![tactic(auto)]

pub mod cases;
pub mod columns;
pub mod lent;
pub mod saying;
