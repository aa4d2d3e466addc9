// A whole board or panel, judged against a whole library.
ghost use Rattle.std.specs.Prelude.{◌≡◌, ◌≤◌, length};
ghost use Rattle.law.specs.Answers.{limit};
ghost use Rattle.judge.specs.Verdicts.{refused_as, matched, with_library, judge_reply};

use crate::parts;
use law::refusals::Refusal;
use law::{FileType, Reply, Verdict};
use read::whole;

// A file's own refusal, with its count, which `refused_as` of `same` leaves out.
fn refused(r: Reply, which: u64) -> Verdict
    ensures { result ≡ refused_as r which }
{
    Verdict {
        number: r.number,
        line: r.line,
        count: r.count,
        which: which,
    }
}

// Two accepted files of these types: 17 unless the first is a board or panel, and the second a library.
fn matched(board: &[u8], t: FileType, library: &[u8], u: FileType) -> Verdict
    requires { (length board.now ≤ limit) × (length library.now ≤ limit) }
    ensures { result ≡ matched board.now t library.now u }
{
    if rows::is_library(t) {
        return parts::verdict(Refusal::WrongKind.number(), 0, 1);
    }
    if !rows::is_library(u) {
        return parts::verdict(Refusal::WrongKind.number(), 0, 2);
    }
    parts::placed(board, library)
}

// An accepted file of a type, with a library that may be refused.
fn with_library(board: &[u8], t: FileType, library: &[u8]) -> Verdict
    requires { length board.now ≤ limit }
    ensures { result ≡ with_library board.now t library.now }
{
    let c = whole::examined(library);
    let r = c.reply;
    if r.number != 0 {
        return refused(r, 2);
    }
    let u = c.file;
    matched(board, t, library, u)
}

// A board or panel judged against a library; the count is that of its placements, or the number of the first that lacks its entry.
pub fn judge(board: &[u8], library: &[u8]) -> Verdict
    ensures { result ≡ judge_reply board.now library.now }
{
    let c = whole::examined(board);
    let r = c.reply;
    if r.number != 0 {
        return refused(r, 1);
    }
    let t = c.file;
    with_library(board, t, library)
}
