// The line reader, for the shelf's viewer: one line's fields at a time, by their starts and lengths in the file.
// `line::fields_at` does the work on a plain slice and two numbers. A `Reader` holds the file and the place between two calls; the
// functions over it take it apart at once. Its fields can be set from outside: every place
// and every line number has an answer, and a place at or past the end of the file is one where no line is left.
#![tactic(auto)]

pub mod line;

ghost use Rattle.std.specs.Prelude.{◌≡◌, length};
ghost use Rattle.viewer.specs.Views.{step_of, places_after};
ghost use Rattle.viewer.specs.Readers.{step_here, moved_by, places_here};

use law::Reply;

// What a call answers: its reply, and the place of the line that the next call hands out, with that line's number.
#[derive(Clone, Copy)]
pub struct Step {
    pub reply: Reply,
    pub at: usize,
    pub line: u64,
}

// A file, and the place of the line that the next call hands out, with that line's number.
#[derive(Drop)]
pub struct Reader<'a> {
    pub file: &'a [u8],
    pub at: usize,
    pub line: u64,
}

// A reader before the first line of a file. A file of any size is opened: the call says if it is too large.
pub fn opened<'a>(file: &'a [u8]) -> Reader<'a>
    ensures { (result.file ≡ file.entry) × (result.at ≡ 0) × (result.line ≡ 1) }
{
    Reader {
        file,
        at: 0,
        line: 1,
    }
}

// The fields of the next line into the slice; the reader moves on after 0, 3 and 4 only.
pub fn next<'s, 'a, 'b>(r: &'s mut Reader<'a>, out: &'b mut [i64]) -> Reply
    ensures { (result ≡ (step_here r.old (length out.old)).reply)
        × (r.new ≡ moved_by r.old (step_here r.old (length out.old)))
        × (out.new ≡ places_here r.old out.old) }
{
    let s = line::fields_at(r.file, r.at, r.line, out);
    r.at = s.at;
    r.line = s.line;
    s.reply
}

// A reader at any place of a file, and one call: its reply, and where it stands then. For callers that keep the place themselves.
pub fn step_at(file: &[u8], at: usize, line: u64, out: &mut [i64]) -> Step
    ensures { (result ≡ step_of file.now at line (length out.old))
        × (out.new ≡ places_after file.now at line out.old) }
{
    let mut r = Reader { file, at, line };
    let reply = next(&mut r, out);
    Step {
        reply: reply,
        at: r.at,
        line: r.line,
    }
}
