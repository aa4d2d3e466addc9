// The fields that a line is cut into, and how many there are.
#![tactic(auto)]

ghost use Rattle.std.specs.Prelude.{◌≡◌, ◌+◌, ◌^◌, ◌≤◌, ◌<◌, length, drop};
ghost use Rattle.text_fields.specs.FirstField.{passes_of, run_len, ends_well, bare_at, quoted_at, field_of};
ghost use Rattle.text_fields.specs.Fields.{count_of};
ghost use Rattle.text_fields.specs.Starts.{one_if, rough_of};

// A run of bytes, by what it is made of.
#[derive(Clone, Copy)]
enum Run {
    Spaces,
    Bare,
    Quoted,
}

// Whether a byte belongs to a run.
fn passes(k: Run, b: u8) -> bool
    ensures { result ≡ passes_of k b }
{
    match k {
        Run::Spaces => b == 32,
        Run::Bare => (b != 32) && (b != 34),
        Run::Quoted => b != 34,
    }
}

// The length of the run at the front.
fn run_len(s: &[u8], k: Run) -> usize
    ensures { result ≡ run_len k s.now }
{
    for (i, b) in s.iter().enumerate() {
        if !passes(k, *b) {
            return i;
        }
    }
    s.len()
}

// Whether a field may end before the byte at a place: at the line's end, or before a space.
fn ends(s: &[u8], at: usize) -> bool
    requires { at ≤ length s.now }
    ensures { result ≡ ends_well (drop at s.now) }
{
    (at == s.len()) || (s[at] == 32)
}

// A field of a part of a line: where it stands, its quotes left off, and the place after it.
#[derive(Clone, Copy)]
pub struct FoundField {
    pub start: usize,
    pub len: usize,
    pub quoted: bool,
    pub next: usize,
}

// The refusal of a quote that stands where none may, or that no quote closes.
#[derive(Clone, Copy, PartialEq, Eq)]
pub struct BrokenQuoting;

// A bare field at the front of s, k bytes into the part.
#[tactic(auto, using(crate::proofs::FieldLaws::bare_steps))]
fn bare(s: &[u8], k: usize) -> Result<FoundField, BrokenQuoting>
    requires { k + length s.now < 2 ^ 64 }
    ensures { result ≡ bare_at k s.now }
{
    let n = run_len(s, Run::Bare);
    if !ends(s, n) {
        return Err(BrokenQuoting);
    }
    Ok(FoundField {
        start: k,
        len: n,
        quoted: false,
        next: k + n,
    })
}

// A quoted field: s is what follows the opening quote, k bytes into the part.
#[tactic(auto, using(crate::proofs::FieldLaws::quoted_steps))]
fn quoted(s: &[u8], k: usize) -> Result<FoundField, BrokenQuoting>
    requires { k + length s.now < 2 ^ 64 }
    ensures { result ≡ quoted_at k s.now }
{
    let n = run_len(s, Run::Quoted);
    if n >= s.len() {
        return Err(BrokenQuoting);
    }
    if !ends(s, n + 1) {
        return Err(BrokenQuoting);
    }
    Ok(FoundField {
        start: k,
        len: n,
        quoted: true,
        next: k + n + 1,
    })
}

// The first field of a part of a line, if any is left.
#[tactic(auto, using(crate::proofs::FieldLaws::field_steps))]
pub fn field(s: &[u8]) -> Result<Option<FoundField>, BrokenQuoting>
    ensures { result ≡ field_of s.now }
{
    let at = run_len(s, Run::Spaces);
    if at >= s.len() {
        return Ok(None);
    }
    if s[at] == 34 {
        Ok(Some(quoted(&s[at + 1..], at + 1)?))
    } else {
        Ok(Some(bare(&s[at..], at)?))
    }
}

// One where a test passes.
fn one_if(b: bool) -> u8
    ensures { result ≡ one_if b }
{
    if b { 1 } else { 0 }
}

// A line without regard to quoting: how many bytes that are no space have a space or nothing before them, and whether one is a quote.
#[derive(Clone, Copy)]
struct Rough {
    starts: u8,
    quoted: bool,
}

// A short line without regard to quoting; with a count of one byte, the compiler has sixteen bytes looked at together.
fn look_over(line: &[u8]) -> Rough
    requires { length line.now < 256 }
    ensures { result ≡ rough_of line.now }
{
    let mut n = 0;
    let mut quoted = false;
    let mut space = true;
    for b in line {
        n = n + one_if(space & (*b != 32));
        quoted = quoted | (*b == 34);
        space = *b == 32;
    }
    Rough { starts: n, quoted }
}

// The number of fields of a line, field by field.
#[tactic(auto, using(crate::proofs::Counting::counting))]
fn count_each(line: &[u8]) -> Result<usize, BrokenQuoting>
    ensures { result ≡ count_of line.now }
{
    let mut at = 0;
    let mut n = 0;
    while let Some(f) = field(&line[at..])? {
        at += f.next;
        n += 1;
    }
    Ok(n)
}

// The number of fields of a line; a short one without quotes has as many as bytes that begin one.
#[tactic(auto, using(crate::proofs::StartLaws::plain_counted))]
pub fn count_fields(line: &[u8]) -> Result<usize, BrokenQuoting>
    ensures { result ≡ count_of line.now }
{
    if 255 < line.len() {
        return count_each(line);
    }
    let p = look_over(line);
    if p.quoted {
        return count_each(line);
    }
    Ok(p.starts as usize)
}
