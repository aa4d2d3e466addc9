// The placements of a board, each looked for in slots that hold a library's components. A library with more components than there
// are slots is gone through in parts, by the hash of their names, and so is the board; the earliest answer is that of them all.
ghost use Rattle.std.specs.Prelude.{◌≡◌, ◌^◌, ◌≤◌, ◌<◌, length};
ghost use Rattle.law.specs.Answers.{limit, verdict};
ghost use Rattle.names_slots.specs.Looks.{looks};
ghost use Rattle.judge_stock.specs.Stock.{stock_of};
ghost use Rattle.judge.specs.Stocked.{Stocked};
ghost use Rattle.judge.specs.Verdicts.{numbered, placed};
ghost use Rattle.judge.specs.Parts.{asked, asked_from, missed, among_of, sooner, Tells};

use crate::entries;
use law::Verdict;
use law::refusals::Refusal;
use names::SMALL;
use rows::WIDTH;
use walk::Turn;
use walk::steps::{self, Turns};

// How many slots there are for a library's components, 480 KiB of them; how many components a part has at most, about; and how
// many slots are enough for a small library.
const PLACES: usize = 61_440;

const MANY: u64 = 50_000;

const FEW: usize = 2_048;

// What came of a part: its verdict; or, where one part would have too many components, how many parts there are to be.
// No Option or Result: both cases are answers, and a number of parts is neither a verdict that is missing nor an error.
#[derive(Clone, Copy)]
enum OfPart {
    Told(Verdict),
    Divided(u64),
}

// A verdict on no line.
pub(crate) fn verdict(number: u64, count: u64, which: u64) -> Verdict
    ensures { result ≡ verdict number 0 count which }
{
    Verdict {
        number: number,
        line: 0,
        count: count,
        which: which,
    }
}

// How many placements there are with a line more.
fn numbered(n: u64, t: Turn) -> u64
    requires { n < 2 ^ 62 }
    ensures { result ≡ numbered n t }
{
    if entries::is_of(t, rows::PART) {
        return n + 1;
    }
    n
}

// Whether a placement's name is in a part; it is hashed only where there are several.
fn is_asked(board: &[u8], x: [i64; WIDTH], parts: u64, part: u64) -> bool
    ensures { result ≡ asked parts part board.now x }
{
    if parts < 2 {
        return true;
    }
    judge_stock::is_in(rows_texts::hash_name(board, x), parts, part)
}

// Whether a line is a placement of a part, and lacks its entry.
fn is_missed(board: &[u8], library: &[u8], places: &[u64], t: Turn, parts: u64, part: u64) -> bool
    requires { (length library.now ≤ limit) × Stocked library.now places.now }
    ensures { result ≡ missed (asked parts part board.now) board.now library.now t }
{
    let row = t.row;
    if entries::is_of(t, rows::PART) {
        if is_asked(board, row, parts, part) {
            return entries::lacks(board, library, places, t);
        }
    }
    false
}

// The placements of a board: 16 at the first of a part that lacks its entry, or the number of them all.
fn placed_by(board: &[u8], library: &[u8], places: &[u64], parts: u64, part: u64) -> Verdict
    requires { (length library.now ≤ limit) × (length board.now ≤ limit) × Stocked library.now places.now }
    ensures { result ≡ among_of (asked parts part board.now) board.now library.now }
{
    let mut n = 0;
    for t in Turns::of(board) {
        if steps::stops(t.found) {
            return verdict(0, n, 0);
        }
        n = numbered(n, t);
        if is_missed(board, library, places, t, parts, part) {
            return verdict(Refusal::NoEntry.number(), n, 1);
        }
    }
    verdict(0, n, 0)
}

// Of two verdicts on one board the one that names the earlier placement.
fn sooner(a: Verdict, b: Verdict) -> Verdict
    ensures { result ≡ sooner a b }
{
    if a.number == 0 {
        return b;
    }
    if b.number == 0 {
        return a;
    }
    if b.count < a.count {
        return b;
    }
    a
}

// What comes of a part in these slots; no placement is looked for where there are to be several parts.
fn in_slots(board: &[u8], library: &[u8], places: &mut [u64], parts: u64, part: u64) -> OfPart
    requires { (length library.now ≤ limit) × (length board.now ≤ limit) × Stocked library.now places.old }
    ensures tells { Tells parts part board.now library.now result }
    ensures places_after { places.new ≡ stock_of parts part library.now places.old }
{
    let n = judge_stock::fill(library, parts, part, places);
    if parts < 2 {
        if MANY < n {
            return OfPart::Divided(n / MANY + 1);
        }
    }
    OfPart::Told(placed_by(board, library, places, parts, part))
}

// The same with so many slots, which are empty.
fn in_empty<const N: usize>(board: &[u8], library: &[u8], parts: u64, part: u64) -> OfPart
    requires { (length library.now ≤ limit) × (length board.now ≤ limit) × (looks < N) × (N < 2 ^ 60) }
    ensures { Tells parts part board.now library.now result }
{
    let mut places: [u64; N] = [0; N];
    in_slots(board, library, &mut places, parts, part)
}

// The same with as many slots as the library's size asks for.
fn of_part(board: &[u8], library: &[u8], parts: u64, part: u64) -> OfPart
    requires { (length library.now ≤ limit) × (length board.now ≤ limit) }
    ensures { Tells parts part board.now library.now result }
{
    if library.len() < SMALL {
        return in_empty::<FEW>(board, library, parts, part);
    }
    in_empty::<PLACES>(board, library, parts, part)
}

// The verdict of a part and of those behind it. It calls itself, so that the compiler neither makes it part of `judge`, which has
// marks on the stack below its own frame, nor puts the slots of `of_part` into its frame.
fn by_parts(board: &[u8], library: &[u8], parts: u64, part: u64) -> Verdict
    requires { (length library.now ≤ limit) × (length board.now ≤ limit) × (part < parts) }
    ensures { result ≡ among_of (asked_from parts part board.now) board.now library.now }
{
    match of_part(board, library, parts, part) {
        OfPart::Divided(n) => by_parts(board, library, n, 0),
        OfPart::Told(v) => {
            if part + 1 < parts {
                return sooner(v, by_parts(board, library, parts, part + 1));
            }
            v
        }
    }
}

// The placements of a board: 16 at the first that lacks its entry, or their number; in one part unless it has to be divided.
pub fn placed(board: &[u8], library: &[u8]) -> Verdict
    requires { (length library.now ≤ limit) × (length board.now ≤ limit) }
    ensures { result ≡ placed board.now library.now }
{
    by_parts(board, library, 1, 0)
}
