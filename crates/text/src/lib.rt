// Bytes and lines of a file; nothing of IDF. Every other layer reads bytes through this one.
#![tactic(auto)]

ghost use Rattle.std.specs.Prelude.{◌≡◌};
ghost use Rattle.text.specs.Bytes.{class_of};
ghost use Rattle.law.specs.Bytes.{permitted, begins, all_of};
ghost use Rattle.text.specs.Lines.{line_feed, line_end};

// The class of a byte. Byte 10 is forbidden: it never stands inside a line.
#[derive(Clone, Copy)]
pub enum ByteClass {
    Space,
    Quote,
    Permitted,
    Forbidden,
}

// The class of a byte of a line.
pub fn class(b: u8) -> ByteClass
    ensures { result ≡ class_of b }
{
    match b {
        32 => ByteClass::Space,
        34 => ByteClass::Quote,
        33 | 35..=126 | 128..=255 => ByteClass::Permitted,
        _ => ByteClass::Forbidden,
    }
}

// Whether a line other than a comment may hold a byte.
pub fn permits(b: u8) -> bool
    ensures { result ≡ permitted b }
{
    !matches!(class(b), ByteClass::Forbidden)
}

// Whether no byte of a line is forbidden; all are looked at in any case, which takes less time than to stop at one.
pub fn clean(line: &[u8]) -> bool
    ensures { result ≡ all_of permitted line.now }
{
    let mut good = true;
    for b in line {
        good = good & permits(*b);
    }
    good
}

// How many bytes stand before the first byte 10, or before the end.
fn line_feed(s: &[u8]) -> usize
    ensures { result ≡ line_feed s.now }
{
    for (i, b) in s.iter().enumerate() {
        if *b == 10 {
            return i;
        }
    }
    s.len()
}

// Where a line's content ends and where the next line begins, counted from the line's first byte.
#[derive(Clone, Copy)]
pub struct LineEnd {
    pub content: usize,
    pub next: usize,
}

// The end of the first line of a part of a file. A 13 is looked for once a line, behind the loop that goes over its bytes.
pub fn line_end(s: &[u8]) -> LineEnd
    ensures { result ≡ line_end s.now }
{
    let i = line_feed(s);
    if s.len() <= i {
        return LineEnd {
            content: i,
            next: i,
        };
    }
    let content = if (0 < i) && (s[i - 1] == 13) {
        i - 1
    } else {
        i
    };
    LineEnd {
        content,
        next: i + 1,
    }
}

// Whether a slice begins with a byte.
pub fn begins_with(s: &[u8], b: u8) -> bool
    ensures { result ≡ begins b s.now }
{
    s.first() == Some(&b)
}
