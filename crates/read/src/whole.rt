// A whole file, checked or read into lent rows.
ghost use Rattle.std.specs.Prelude.{◌≡◌, ◌^◌, ◌≤◌, ◌<◌, length};
ghost use Rattle.law.specs.Answers.{limit, reply};
ghost use Rattle.law.specs.Refusals.{number_of};
ghost use Rattle.names.specs.Marks.{Doubted};
ghost use Rattle.read.specs.Replies.{counted_by, ended_by, survey, check_reply, type_of, examined_within, examined, read_reply, read_rows};

use crate::{Checked, lent};
use law::refusals::Refusal;
use law::{FileType, Reply};
use names::{DOUBTS, FEW, MARKS, SMALL};
use order::LIMIT;
use walk::steps::{self, Turns};
use walk::{Found, Walk};

// A refusal without a count.
fn refusal(e: Refusal, line: u64) -> Reply
    ensures { result ≡ reply (number_of e) line 0 }
{
    Reply {
        number: e.number(),
        line: line,
        count: 0,
    }
}

// A reply with one more line: a row counts.
fn counted(r: Reply, line: u64, f: Found) -> Reply
    requires { r.count < 2 ^ 62 }
    ensures { result ≡ counted_by r line f }
{
    match f {
        Found::Row => Reply {
            number: 0,
            line: 0,
            count: r.count + 1,
        },
        Found::Nothing => r,
        Found::Refused(e) => refusal(e, line),
    }
}

// A reply at the end of the file.
fn ended(r: Reply, w: Walk) -> Reply
    ensures { result ≡ ended_by r w }
{
    let st = w.state;
    if order_states::accepting(st) {
        return r;
    }
    refusal(Refusal::TooEarly, w.line)
}

// What the first walk over a file tells: its reply but for names used twice, its type, and whether a name is doubtful.
#[derive(Clone, Copy)]
struct FirstWalk {
    reply: Reply,
    file: FileType,
    doubtful: bool,
}

// A file by all rules but size and names used twice; `marks` are those of the names that came, `doubts` those of the names that
// may have come before.
fn surveyed(file: &[u8], marks: &mut [u16], doubts: &mut [u16]) -> FirstWalk
    requires { (length file.now ≤ limit) × (0 < length marks.old) × (0 < length doubts.old) }
    ensures reply_value { result.reply ≡ survey file.now }
    ensures file_value { result.file ≡ type_of file.now }
    ensures doubted { Doubted file.now doubts.new result.doubtful }
{
    let mut end = steps::begin();
    let mut r = Reply {
        number: 0,
        line: 0,
        count: 0,
    };
    let mut doubtful = false;
    for t in Turns::of(file) {
        r = counted(r, t.line, t.found);
        if steps::stops(t.found) {
            return FirstWalk {
                reply: r,
                file: FileType::Library,
                doubtful: doubtful,
            };
        }
        let named = names::names_component(t);
        doubtful = doubtful | names::is_doubtful(file, named, t.row, marks, doubts);
        end = t.walk;
    }
    FirstWalk {
        reply: ended(r, end),
        file: order_states::type_at(end.state),
        doubtful: doubtful,
    }
}

// A file by all rules but size; a second walk decides on doubtful names, where there are any.
fn walked(file: &[u8], marks: &mut [u16], doubts: &mut [u16]) -> Checked
    requires { (length file.now ≤ limit) × (0 < length marks.old) × (0 < length doubts.old) }
    ensures { result ≡ examined_within file.now }
{
    let s = surveyed(file, marks, doubts);
    let r = s.reply;
    let t = s.file;
    if !s.doubtful {
        return Checked { reply: r, file: t };
    }
    let n = names::first_repeat(file, doubts);
    if n == 0 {
        return Checked { reply: r, file: t };
    }
    let again = refusal(Refusal::NameAgain, n);
    Checked {
        reply: again,
        file: t,
    }
}

// A file within the limit, with so many words of marks at hand.
fn within<const N: usize>(file: &[u8]) -> Checked
    requires { (length file.now ≤ limit) × (0 < N) × (N < 2 ^ 62) }
    ensures { result ≡ examined_within file.now }
{
    let mut marks: [u16; N] = [0; N];
    let mut doubts: [u16; DOUBTS] = [0; DOUBTS];
    walked(file, &mut marks, &mut doubts)
}

// A file's reply and its type. A small file has a small table, which is sooner empty. It stays apart from those that call it, which
// would else have the marks on the stack as long as they run.
#[inline(never)]
pub fn examined(file: &[u8]) -> Checked
    ensures { result ≡ examined file.now }
{
    if LIMIT < file.len() {
        let large = refusal(Refusal::TooLarge, 0);
        return Checked {
            reply: large,
            file: FileType::Library,
        };
    }
    if file.len() < SMALL {
        return within::<FEW>(file);
    }
    within::<MARKS>(file)
}

// A file's reply: 0 with the number of its rows, or its first refusal.
pub fn check(file: &[u8]) -> Reply
    ensures { result ≡ check_reply file.now }
{
    let c = examined(file);
    c.reply
}

// A file's rows from the front of the slice on, where they fit; the slice stays as it is on every refusal.
pub fn read(file: &[u8], rows: &mut [i64]) -> Reply
    ensures value { result ≡ read_reply file.now (length rows.old) }
    ensures rows_after { rows.new ≡ read_rows file.now rows.old }
{
    let r = check(file);
    if r.number != 0 {
        return r;
    }
    if (rows::capacity(rows.len()) as u64) < r.count {
        return Reply {
            number: Refusal::FewRows.number(),
            line: 0,
            count: r.count,
        };
    }
    lent::put_rows(file, rows);
    r
}
