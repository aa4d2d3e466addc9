// What other languages call, by `quayladle_c`: each operation over numbers and slices, with no `requires`.
//
// A reply is four numbers written into a lent array: number, line, count, and which of two files was refused, 0 if neither
// was and 0 where there is one file only.
#![tactic(auto)]

ghost use Rattle.std.specs.Prelude.{◌≡◌, length};
ghost use Rattle.read.specs.Replies.{check_reply, read_reply, read_rows};
ghost use Rattle.write.specs.Outcomes.{write_reply, write_text};
ghost use Rattle.same.specs.Verdicts.{same_reply};
ghost use Rattle.judge.specs.Verdicts.{judge_reply};
ghost use Rattle.viewer.specs.Views.{step_of, places_after};
ghost use Rattle.quayladle.specs.Numbers.{of_one, of_two, of_place};

use law::{Reply, Verdict};

// The numbers of a reply on one file.
fn of_one(r: Reply) -> [u64; 4]
    ensures { result ≡ of_one r }
{
    [r.number, r.line, r.count, 0]
}

// The numbers of a reply on two files.
fn of_two(v: Verdict) -> [u64; 4]
    ensures { result ≡ of_two v }
{
    [v.number, v.line, v.count, v.which]
}

// The numbers of a place: where the next line begins, and that line's number.
fn of_place(s: viewer::Step) -> [u64; 2]
    ensures { result ≡ of_place s }
{
    [s.at as u64, s.line]
}

// A file's reply: 0 with the number of its rows, or its first refusal.
pub fn quayladle_check(file: &[u8], reply: &mut [u64; 4])
    ensures { reply.new ≡ of_one (check_reply file.now) }
{
    *reply = of_one(read::whole::check(file));
}

// A file's rows from the front of the slice on, where they fit; the slice stays as it is on every refusal.
pub fn quayladle_read(file: &[u8], rows: &mut [i64], reply: &mut [u64; 4])
    ensures reply_after { reply.new ≡ of_one (read_reply file.now (length rows.old)) }
    ensures rows_after { rows.new ≡ read_rows file.now rows.old }
{
    *reply = of_one(read::whole::read(file, rows));
}

// The canonical text of rows from the front of the slice on, where it fits; `text` holds the bytes that the rows name.
// The slice stays as it is on every refusal.
pub fn quayladle_write(rows: &[i64], text: &[u8], out: &mut [u8], reply: &mut [u64; 4])
    ensures reply_after { reply.new ≡ of_one (write_reply rows.now text.now (length out.old)) }
    ensures out_after { out.new ≡ write_text rows.now text.now out.old }
{
    *reply = of_one(write::whole::write(rows, text, out));
}

// Whether two files mean the same: the refusal of the first, else of the second, else a count of 1 or 0.
pub fn quayladle_same(first: &[u8], second: &[u8], reply: &mut [u64; 4])
    ensures { reply.new ≡ of_two (same_reply first.now second.now) }
{
    *reply = of_two(same::same(first, second));
}

// A board or panel judged against a library; the count is that of its placements, or the number of the first that lacks its entry.
pub fn quayladle_judge(board: &[u8], library: &[u8], reply: &mut [u64; 4])
    ensures { reply.new ≡ of_two (judge_reply board.now library.now) }
{
    *reply = of_two(judge::whole::judge(board, library));
}

// Start and length of each field of the line at a place, whose number is `line`, from the front of the slice on; the slice stays
// as it is on every refusal. `place` gets where the next call goes on, and the number of the line there.
pub fn quayladle_fields(
    file: &[u8],
    at: usize,
    line: u64,
    out: &mut [i64],
    place: &mut [u64; 2],
    reply: &mut [u64; 4],
)
    ensures reply_after { reply.new ≡ of_one (step_of file.now at line (length out.old)).reply }
    ensures place_after { place.new ≡ of_place (step_of file.now at line (length out.old)) }
    ensures out_after { out.new ≡ places_after file.now at line out.old }
{
    let s = viewer::step_at(file, at, line, out);
    *place = of_place(s);
    *reply = of_one(s.reply);
}
