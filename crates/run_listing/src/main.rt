// The canonical printer: prints the canonical text of the file on standard input, or number, line and count of its refusal.
#![tactic(auto)]

ghost use Rattle.std.specs.Prelude.{◌≤◌, IfOk, length};

use law::Reply;
use law::refusals::Refusal;
use rows::{STRIDE, capacity};
use run::{lent, saying};

// The largest input.
const LARGEST: usize = 4_096;

// Each row has a line of at least one byte and the byte 10 that ends it.
const ROWS: usize = LARGEST / 2;

// No field grows to more than four times its bytes with the byte behind it; the last line may lack its byte 10.
const TEXT: usize = 4 * (LARGEST + 1);

// Writes the canonical text of a file, and answers how many bytes it has; or the reply that refuses the file.
fn listing(file: &[u8], text: &mut [u8]) -> Result<usize, Reply>
    ensures { IfOk result (λ n. n ≤ length text.new) }
{
    if file.len() > LARGEST {
        return Err(Reply {
            number: Refusal::TooLarge.number(),
            line: 0,
            count: 0,
        });
    }
    let mut rows = [0i64; ROWS * STRIDE];
    let read = read::whole::read(file, &mut rows);
    let n = lent::accepted(read, capacity(rows.len()))? * STRIDE;
    let written = write::whole::write(&rows[..n], file, text);
    lent::accepted(written, text.len())
}

fn main() {
    let mut input = [0u8; LARGEST + 1];
    let n = io::read_full(0, &mut input);
    let mut text = [0u8; TEXT];
    match listing(&input[..n], &mut text) {
        Ok(len) => saying::say(&text[..len]),
        Err(refusal) => {
            saying::reply(refusal);
            saying::end_line();
        }
    }
}
