// Comparing: whether two files say the same list of records.
#![tactic(auto)]

pub mod lists;
pub mod records;

ghost use Rattle.std.specs.Prelude.{◌≡◌};
ghost use Rattle.same.specs.Ignoring.{nothing};
ghost use Rattle.same.specs.Verdicts.{refused_as, found_same, same_reply};

use law::{Reply, Verdict};
use read::whole;

// How many fields a record has at most.
pub const FIELDS: usize = 7;

// The fields that a comparison leaves out: of the records of a kind, each by its place from 0. Document 01 leaves out none; W-210
// will.
#[derive(Clone, Copy)]
pub struct Ignored {
    pub kind: u64,
    pub fields: [bool; FIELDS],
}

// No field is left out.
fn nothing() -> Ignored
    ensures { result ≡ nothing }
{
    Ignored {
        kind: 0,
        fields: [false; FIELDS],
    }
}

// A file's own refusal, and which file it is.
fn refused(r: Reply, which: u64) -> Verdict
    ensures { result ≡ refused_as r which }
{
    Verdict {
        number: r.number,
        line: r.line,
        count: 0,
        which: which,
    }
}

// Neither file was refused: 1 where they say the same, else 0.
fn found(same: bool) -> Verdict
    ensures { result ≡ found_same same }
{
    if same {
        return Verdict {
            number: 0,
            line: 0,
            count: 1,
            which: 0,
        };
    }
    Verdict {
        number: 0,
        line: 0,
        count: 0,
        which: 0,
    }
}

// Whether two files mean the same: the refusal of the first, else of the second, else a count of 1 or 0.
pub fn same(first: &[u8], second: &[u8]) -> Verdict
    ensures { result ≡ same_reply first.now second.now }
{
    let a = whole::check(first);
    if a.number != 0 {
        return refused(a, 1);
    }
    let b = whole::check(second);
    if b.number != 0 {
        return refused(b, 2);
    }
    found(lists::same_lists(nothing(), first, second))
}
