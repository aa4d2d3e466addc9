// The steps of a walk. Every loop over files is made of them.
ghost use Rattle.std.specs.Prelude.{◌≡◌, ◌≤◌, length};
ghost use Rattle.law.specs.Answers.{limit};
ghost use Rattle.walk.specs.Walks.{begun, turn_of, Steady, stops_by, is_row};

use crate::{Found, Turn, Walk, line};
use law::Rules;
use order::{Stage, State};

// Before the first line.
pub fn begin() -> Walk
    ensures { result ≡ begun }
{
    Walk {
        at: 0,
        line: 1,
        state: State::Between(Stage::Nothing),
    }
}

// The next line of a file. The walk is lent, so that an iterator need not copy its own to ask.
pub fn turn(file: &[u8], w: &Walk) -> Turn
    requires { Steady file.now w.now }
    ensures { result ≡ turn_of file.now w.now }
{
    let at = w.at;
    let e = text::line_end(&file[at..]);
    let j = line::judge_line(Rules::Idf3, w.state, &file[at..], at, e.content);
    let row = j.row;
    Turn {
        row,
        line: w.line,
        walk: Walk {
            at: at + e.next,
            line: w.line + 1,
            state: j.state,
        },
        found: j.found,
    }
}

// The lines of a file that are left to a walk, each judged in the state before it.
#[derive(Clone, Copy)]
pub struct Turns<'a> {
    file: &'a [u8],
    walk: Walk,
    ghost steady: { Steady file.now walk },
}

impl<'a> Turns<'a> {
    // All lines of a file.
    pub fn of(file: &'a [u8]) -> Turns<'a>
        requires { length file.now ≤ limit }
        ensures lent { result.file ≡ file.entry }
        ensures whole { result.file.now ≡ file.now }
        ensures first { result.walk ≡ begun }
    {
        let walk = begin();
        Turns { file, walk }
    }
}

impl<'a> Iterator for Turns<'a> {
    ghost use Rattle.walk.specs.Turns.{GivesTurn, bytes_left};

    type Item = Turn;

    ghost next_gives = { GivesTurn };

    ghost remaining = { bytes_left };

    // The next line. In line, so that a loop over the iterator is the loop over `turn` and no line is copied once more.
    #[inline(always)]
    fn next(&mut self) -> Option<Turn> {
        if self.file.len() <= self.walk.at {
            return None;
        }
        let t = turn(self.file, &self.walk);
        self.walk = t.walk;
        Some(t)
    }
}

// Whether a line was refused.
pub fn stops(f: Found) -> bool
    ensures { result ≡ stops_by f }
{
    matches!(f, Found::Refused(_))
}

// Whether a line was a record.
pub fn is_row(f: Found) -> bool
    ensures { result ≡ is_row f }
{
    matches!(f, Found::Row)
}
