// The fields of the line at a place of a file, into a lent slice. Any place and any line number have an answer.
ghost use Rattle.std.specs.Prelude.{◌≡◌, cond, ◌+◌, ◌^◌, ◌≤◌, ◌<◌, pos, length, set};
ghost use Rattle.law.specs.Bytes.{begins};
ghost use Rattle.law.specs.Answers.{over};
ghost use Rattle.viewer.specs.Views.{seen_of, places_of, line_reply, line_places, moves_on, line_after, step_by, step_of, places_after};

use crate::Step;
use law::Reply;
use law::refusals::Refusal;
use order::LIMIT;

// How many fields a line holds, or its refusal.
fn fields_in(line: &[u8]) -> Result<usize, Refusal>
    ensures { result ≡ seen_of line.now }
{
    if !text::clean(line) {
        return Err(Refusal::ForbiddenByte);
    }
    match text_fields::count_fields(line) {
        Ok(n) => Ok(n),
        Err(_) => Err(Refusal::BrokenQuoting),
    }
}

// Two numbers of a slice: a field's start and its length.
fn put_pair(out: &mut [i64], n: usize, start: usize, len: usize)
    requires { (n + 1 < length out.old) × (start < 2 ^ 63) × (len < 2 ^ 63) }
    ensures { out.new ≡ set (set out.old n (pos start)) (n + 1) (pos len) }
{
    out[n] = start as i64;
    out[n + 1] = len as i64;
}

// Start and length of each field of a line, from the front of the slice on; the line starts at `base` in the file.
fn put_fields(line: &[u8], base: usize, out: &mut [i64])
    requires { (base + length line.now < 2 ^ 62) × (length (places_of base line.now) ≤ length out.old) }
    ensures { out.new ≡ over (places_of base line.now) out.old }
{
    let mut at = 0;
    let mut n = 0;
    while let Ok(Some(f)) = text_fields::field(&line[at..]) {
        put_pair(out, n, base + at + f.start, f.len);
        at += f.next;
        n += 2;
    }
}

// The reply to one line of this number, and its fields if the slice holds them.
fn hand_out(line: &[u8], base: usize, number: u64, out: &mut [i64]) -> Reply
    requires { base + length line.now < 2 ^ 62 }
    ensures value { result ≡ line_reply line.now number (length out.old) }
    ensures out_after { out.new ≡ line_places line.now base number out.old }
{
    match fields_in(line) {
        Err(e) => Reply {
            number: e.number(),
            line: number,
            count: 0,
        },
        Ok(n) => {
            if out.len() / 2 < n {
                return Reply {
                    number: Refusal::FewRows.number(),
                    line: 0,
                    count: n as u64,
                };
            }
            put_fields(line, base, out);
            Reply {
                number: 0,
                line: 0,
                count: n as u64,
            }
        }
    }
}

// How many bytes of a line are looked at: none of a comment.
fn looked_at(s: &[u8], content: usize) -> usize
    ensures { result ≡ cond (begins 35 s.now) 0 content }
{
    if text::begins_with(s, 35) { 0 } else { content }
}

// Whether the reader moves on after a reply, which has its refusal as C reads it: by number.
fn moves_on(number: u64) -> bool
    ensures { result ≡ moves_on number }
{
    (number == 0)
        | (number == Refusal::ForbiddenByte.number())
        | (number == Refusal::BrokenQuoting.number())
}

// The number of the next line; the largest number, which no line has, stays.
fn line_after(line: u64) -> u64
    ensures { result ≡ line_after line }
{
    if line < u64::MAX { line + 1 } else { line }
}

// A reply at a place, and the place after it.
fn step(r: Reply, at: usize, line: u64, next: usize) -> Step
    ensures { result ≡ step_by r at line next }
{
    let n = r.number;
    if moves_on(n) {
        return Step {
            reply: r,
            at: next,
            line: line_after(line),
        };
    }
    Step {
        reply: r,
        at: at,
        line: line,
    }
}

// The fields of the line at a place, whose number is `line`; the slice stays as it is on every refusal.
pub fn fields_at(file: &[u8], at: usize, line: u64, out: &mut [i64]) -> Step
    ensures { (result ≡ step_of file.now at line (length out.old))
        × (out.new ≡ places_after file.now at line out.old) }
{
    if LIMIT < file.len() {
        return step(
            Reply {
                number: Refusal::TooLarge.number(),
                line: 0,
                count: 0,
            },
            at,
            line,
            at,
        );
    }
    if file.len() <= at {
        return step(
            Reply {
                number: Refusal::TooEarly.number(),
                line: line,
                count: 0,
            },
            at,
            line,
            at,
        );
    }
    let e = text::line_end(&file[at..]);
    let end = at + looked_at(&file[at..], e.content);
    let r = hand_out(&file[at..end], at, line, out);
    step(r, at, line, at + e.next)
}
