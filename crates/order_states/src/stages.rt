// The sections behind a list of records: which may open next, and where a list may end.
ghost use Rattle.std.specs.Prelude.{◌≡◌};
ghost use Rattle.law.specs.Records.{is_middle};
ghost use Rattle.order.specs.Stages.{may_open, after, after_headed, may_end, file_of};
ghost use Rattle.order.specs.declared.Stage.TheVariants.{Headed, Middle};

use law::{FileType, Rules};
use order::Stage;

// Whether a section may stand between outline and PLACEMENT.
#[tactic(auto, using(crate::proofs::StateLaws::middle_laws))]
fn is_middle(v: Rules, s: u64) -> bool
    ensures { result ≡ is_middle v s }
{
    matches!(s, 4..=12)
}

// Whether a section may open after the header.
#[tactic(auto, unfolding(order::specs::Stages::may_open))]
fn headed_opens(v: Rules, t: FileType, s: u64) -> bool
    ensures { result ≡ may_open v (Headed t) s }
{
    match t {
        FileType::Board => s == 2,
        FileType::Panel => s == 3,
        FileType::Library => matches!(s, 14 | 15),
    }
}

// Whether a section may open after the outline; holes and notes stand at most once.
#[tactic(auto, using(crate::proofs::StateLaws::opens_middle))]
fn middle_opens(v: Rules, t: FileType, holes: bool, notes: bool, s: u64) -> bool
    ensures { result ≡ may_open v (Middle t holes notes) s }
{
    (s == 13) | (is_middle(v, s) & !(holes & (s == 11)) & !(notes & (s == 12)))
}

// Whether a section may open.
#[tactic(auto, unfolding(order::specs::Stages::may_open))]
pub fn may_open(v: Rules, g: Stage, s: u64) -> bool
    ensures { result ≡ may_open v g s }
{
    match g {
        Stage::Nothing => s == 1,
        Stage::Headed(t) => headed_opens(v, t, s),
        Stage::Middle(t, holes, notes) => middle_opens(v, t, holes, notes, s),
        Stage::Finished(..) => false,
    }
}

// Whether a file may end after a stage.
pub(crate) fn may_end(g: Stage) -> bool
    ensures { result ≡ may_end g }
{
    match g {
        Stage::Nothing | Stage::Middle(..) => false,
        Stage::Headed(t) => rows::is_library(t),
        Stage::Finished(..) => true,
    }
}

// After the outline holes and notes are still to come; a library goes on as it is.
fn after_headed(t: FileType) -> Stage
    ensures { result ≡ after_headed t }
{
    match t {
        FileType::Board | FileType::Panel => Stage::Middle(t, false, false),
        FileType::Library => Stage::Headed(t),
    }
}

// The stage after a section.
#[tactic(auto, using(crate::proofs::StateLaws::after_laws), unfolding(order::specs::Stages::after))]
pub(crate) fn after(g: Stage, s: u64) -> Stage
    ensures { result ≡ after g s }
{
    match g {
        Stage::Nothing => Stage::Nothing,
        Stage::Headed(t) => after_headed(t),
        Stage::Middle(t, holes, notes) => {
            if s == 13 {
                Stage::Finished(t)
            } else {
                Stage::Middle(t, holes | (s == 11), notes | (s == 12))
            }
        }
        Stage::Finished(t) => Stage::Finished(t),
    }
}

// The file's type by the sections behind us, a library's where none says it.
pub(crate) fn file_of(g: Stage) -> FileType
    ensures { result ≡ file_of g }
{
    match g {
        Stage::Nothing => FileType::Library,
        Stage::Headed(t) | Stage::Middle(t, _, _) | Stage::Finished(t) => t,
    }
}
