// Where a file stands between two lines, why a record is refused there, and what the operations answer: types and definitions that
// other crates share.
#![tactic(auto)]

use law::FileType;
use order_loops::LoopState;

// The sections behind us: none; the header; the outline, and whether holes and notes are among what follows it; all. Each but the first has the file's type.
#[derive(Clone, Copy)]
pub enum Stage {
    Nothing,
    Headed(FileType),
    Middle(FileType, bool, bool),
    Finished(FileType),
}

// Where we are in a section.
#[derive(Clone, Copy)]
pub enum Phase {
    AwaitTitle,
    AwaitName(FileType),
    HeaderFull(FileType),
    AwaitLead,
    InPoints(LoopState),
    InProps,
    InList,
    AwaitPart,
    AwaitPosition,
}

// Between sections; or in a section, with the stage from before it.
#[derive(Clone, Copy)]
pub enum State {
    Between(Stage),
    Inside(Stage, u64, Phase),
}

// Why a record is refused: it cannot stand here; its values do not fit; it breaks a loop rule; it names a component as one before it did.
#[derive(Clone, Copy)]
pub enum Reason {
    Misplaced,
    Unfit,
    BadLoop,
    Repeated,
}

// The largest file, in bytes.
pub const LIMIT: usize = 16_777_216;
