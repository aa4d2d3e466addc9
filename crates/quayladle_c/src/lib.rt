// The static library for other languages: each operation of `quayladle` under its name for C, with the same clauses.
#![tactic(auto)]

ghost use Rattle.std.specs.Prelude.{◌≡◌, length};
ghost use Rattle.read.specs.Replies.{check_reply, read_reply, read_rows};
ghost use Rattle.write.specs.Outcomes.{write_reply, write_text};
ghost use Rattle.same.specs.Verdicts.{same_reply};
ghost use Rattle.judge.specs.Verdicts.{judge_reply};
ghost use Rattle.viewer.specs.Views.{step_of, places_after};
ghost use Rattle.quayladle.specs.Numbers.{of_one, of_two, of_place};

// A file's reply: 0 with the number of its rows, or its first refusal.
#[unsafe(no_mangle)]
pub extern "C" fn quayladle_check(file: &[u8], reply: &mut [u64; 4])
    ensures { reply.new ≡ of_one (check_reply file.now) }
{
    quayladle::quayladle_check(file, reply)
}

// A file's rows from the front of the slice on, where they fit; the slice stays as it is on every refusal.
#[unsafe(no_mangle)]
pub extern "C" fn quayladle_read(file: &[u8], rows: &mut [i64], reply: &mut [u64; 4])
    ensures reply_after { reply.new ≡ of_one (read_reply file.now (length rows.old)) }
    ensures rows_after { rows.new ≡ read_rows file.now rows.old }
{
    quayladle::quayladle_read(file, rows, reply)
}

// The canonical text of rows from the front of the slice on, where it fits; `text` holds the bytes that the rows name.
// The slice stays as it is on every refusal.
#[unsafe(no_mangle)]
pub extern "C" fn quayladle_write(rows: &[i64], text: &[u8], out: &mut [u8], reply: &mut [u64; 4])
    ensures reply_after { reply.new ≡ of_one (write_reply rows.now text.now (length out.old)) }
    ensures out_after { out.new ≡ write_text rows.now text.now out.old }
{
    quayladle::quayladle_write(rows, text, out, reply)
}

// Whether two files mean the same: the refusal of the first, else of the second, else a count of 1 or 0.
#[unsafe(no_mangle)]
pub extern "C" fn quayladle_same(first: &[u8], second: &[u8], reply: &mut [u64; 4])
    ensures { reply.new ≡ of_two (same_reply first.now second.now) }
{
    quayladle::quayladle_same(first, second, reply)
}

// A board or panel judged against a library; the count is that of its placements, or the number of the first that lacks its entry.
#[unsafe(no_mangle)]
pub extern "C" fn quayladle_judge(board: &[u8], library: &[u8], reply: &mut [u64; 4])
    ensures { reply.new ≡ of_two (judge_reply board.now library.now) }
{
    quayladle::quayladle_judge(board, library, reply)
}

// Start and length of each field of the line at a place, whose number is `line`, from the front of the slice on; the slice stays
// as it is on every refusal. `place` gets where the next call goes on, and the number of the line there.
#[unsafe(no_mangle)]
pub extern "C" fn quayladle_fields(
    file: &[u8],
    at: usize,
    line: u64,
    out: &mut [i64],
    place: &mut [u64; 2],
    reply: &mut [u64; 4],
)
    ensures reply_after { reply.new ≡ of_one (step_of file.now at line (length out.old)).reply }
    ensures place_after { place.new ≡ of_place (step_of file.now at line (length out.old)) }
    ensures out_after { out.new ≡ places_after file.now at line out.old }
{
    quayladle::quayladle_fields(file, at, line, out, place, reply)
}
