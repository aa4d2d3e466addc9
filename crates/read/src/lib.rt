// Whole files: the two entry points `check` and `read`.
#![tactic(auto)]

pub mod lent;
pub mod whole;

use law::{FileType, Reply};

// What checking finds: the reply, and the type of an accepted file.
#[derive(Clone, Copy)]
pub struct Checked {
    pub reply: Reply,
    pub file: FileType,
}
