// A board or panel judged against a library: whether each placement has its entry.
#![tactic(auto)]

pub mod entries;
pub mod parts;
pub mod whole;
