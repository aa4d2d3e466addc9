// Cases: how they are read from standard input, one after the other, and how many of them went well.
ghost use Rattle.std.specs.Prelude.{◌≡◌, ◌≤◌, length, min};

use crate::saying;
use crate::saying::say;

// How many bytes a case's header has, with the byte 10 that ends it.
pub const HEADER: usize = 64;

// Room for a part of a case; an array, and the part's length is beside it, since no program here has a heap.
pub type Room = [u8; 65_536];

// Why a run ends before its cases do: what comes is no case.
#[derive(Clone, Copy, PartialEq, Eq)]
pub enum Fault {
    Torn,
    NotEnded,
    TooLarge,
    FileRefused,
}

// Prints, on a line, why a run ended.
fn say_fault(fault: Fault) {
    match fault {
        Fault::Torn => saying::line(b"a part torn"),
        Fault::NotEnded => saying::line(b"no byte 10 behind a part"),
        Fault::TooLarge => saying::line(b"a part too large"),
        Fault::FileRefused => saying::line(b"a file refused"),
    }
}

// Whether a part is one: it came whole, with byte 10 as its last byte.
fn whole(part: &[u8], came: usize) -> Result<(), Fault> {
    if came != part.len() {
        return Err(Fault::Torn);
    }
    match part.last() {
        None | Some(b'\n') => Ok(()),
        Some(_) => Err(Fault::NotEnded),
    }
}

// Reads a part that fills a slice, with byte 10 as its last byte.
pub fn read_whole(part: &mut [u8]) -> Result<(), Fault> {
    let came = io::read_full(0, part);
    whole(part, came)
}

// The same of a part of n bytes, which is put at the start of a slice.
pub fn read_part(room: &mut [u8], n: usize) -> Result<(), Fault> {
    if n > room.len() {
        return Err(Fault::TooLarge);
    }
    read_whole(&mut room[..n])
}

// The header that comes next, unless standard input ends before it.
fn next_header() -> Result<Option<[u8; HEADER]>, Fault> {
    let mut head = [0u8; HEADER];
    let came = io::read_full(0, &mut head);
    if came == 0 {
        return Ok(None);
    }
    whole(&head, came)?;
    Ok(Some(head))
}

// Room with no part in it.
pub fn room() -> Room
    ensures { 65536 ≡ length result }
{
    io::large_buffer()
}

// The first n of some bytes, or all where there are no more.
pub fn front(bytes: &[u8], n: usize) -> &[u8]
    ensures { length result.now ≡ min n (length bytes.now) }
{
    &bytes[..n.min(bytes.len())]
}

// The part of n bytes that was read into some room.
pub fn part(room: &Room, n: usize) -> &[u8] {
    front(room, n)
}

// How many bytes there are without the spaces at the end.
fn len_without_spaces(bytes: &[u8]) -> usize {
    bytes
        .iter()
        .rposition(|b| *b != b' ')
        .map_or(0, |last| last + 1)
}

// Prints the name of a case, the first bytes of its header without the spaces at their end, and a colon.
pub fn say_name(head: &[u8; HEADER], width: usize) {
    let column = front(head, width);
    say(front(column, len_without_spaces(column)));
    say(b": ");
}

// How many cases were run, and how many of them went badly.
#[derive(Clone, Copy, Default)]
pub struct Totals {
    cases: u64,
    differ: u64,
}

impl Totals {
    // One case more, well or badly; no run counts to the largest number.
    fn add(self, well: bool) -> Totals
        requires { self.differ ≤ self.cases }
        ensures { result.differ ≤ result.cases }
    {
        Totals {
            cases: self.cases.saturating_add(1),
            differ: self.differ.saturating_add(u64::from(!well)),
        }
    }

    // Prints how many cases were run and how many of them differ, on a line.
    pub fn say(self) {
        saying::number(self.cases);
        say(b" cases, ");
        saying::number(self.differ);
        saying::line(b" differ");
    }
}

// Runs each case of standard input, up to its end or to what is no case, and counts them.
fn run_all<F: FnMut(&[u8; HEADER]) -> Result<bool, Fault>>(
    totals: &mut Totals,
    mut run_case: F,
) -> Result<(), Fault>
    requires callable { F.IsAlwaysCallable run_case }
    requires counted { totals.old.differ ≤ totals.old.cases }
    ensures { totals.new.differ ≤ totals.new.cases }
{
    // Nothing says that standard input ends, but no run comes to so many cases.
    for _ in 0..u64::MAX {
        let Some(head) = next_header()? else {
            break;
        };
        *totals = totals.add(run_case(&head)?);
    }
    Ok(())
}

// Runs the cases of standard input by what answers of a case, given by its header, whether it went as expected, and counts them.
// What is no case ends the run, and is named.
pub fn run<F: FnMut(&[u8; HEADER]) -> Result<bool, Fault>>(run_case: F) -> Totals
    requires { F.IsAlwaysCallable run_case }
    ensures { result.differ ≤ result.cases }
{
    let mut totals = Totals::default();
    if let Err(fault) = run_all(&mut totals, run_case) {
        say_fault(fault);
    }
    totals
}
