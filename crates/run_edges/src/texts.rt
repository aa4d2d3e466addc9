// Bytes, lines and the fields of a line.
use run::saying;
use run::saying::{end_line, say};
use text::{ByteClass, LineEnd};

// Prints the class of a byte.
fn class(b: u8) {
    say(b"byte ");
    saying::number(u64::from(b));
    match text::class(b) {
        ByteClass::Space => say(b": space"),
        ByteClass::Quote => say(b": quote"),
        ByteClass::Permitted => say(b": permitted"),
        ByteClass::Forbidden => say(b": forbidden"),
    }
    end_line();
}

// Prints what a line is at first sight: a comment has # in column 1, a blank line has no field.
fn say_look(line: &[u8]) {
    if text::begins_with(line, b'#') {
        return say(b"comment");
    }
    match text_fields::field(line) {
        Ok(None) => say(b"blank"),
        _ => say(b"other"),
    }
}

// Prints the first field of a line: whether it is quoted, its start, its length, and where the next begins.
fn say_first(line: &[u8]) {
    match text_fields::field(line) {
        Ok(None) => {
            say(b"no field");
        }
        Err(_) => {
            say(b"broken");
        }
        Ok(Some(f)) => {
            if f.quoted {
                say(b"quoted ");
            } else {
                say(b"bare ");
            }
            saying::number(f.start as u64);
            saying::next(f.len as u64);
            saying::next(f.next as u64);
        }
    }
}

// Prints what a line is, whether its bytes are permitted, how many fields it has, and the first of them.
fn line(name: &[u8], l: &[u8]) {
    say(b"line ");
    say(name);
    say(b": ");
    say_look(l);
    if text::clean(l) {
        say(b", clean, ");
    } else {
        say(b", forbidden byte, ");
    }
    match text_fields::count_fields(l) {
        Ok(n) => {
            saying::number(n as u64);
            say(b" fields, first ");
        }
        Err(_) => {
            say(b"bad quoting, first ");
        }
    }
    say_first(l);
    end_line();
}

// Prints a file by its name, and of each of its lines where its content ends and where the next begins.
#[tactic(auto, using(text::proofs::LineLaws::line_inside))]
fn file(name: &[u8], f: &[u8]) {
    say(b"file ");
    say(name);
    say(b":");
    let mut rest = f;
    // No `for`: only the end of a line says where the next one begins.
    while !rest.is_empty() {
        let LineEnd { content, next } = text::line_end(rest);
        saying::next(content as u64);
        say(b"/");
        saying::number(next as u64);
        rest = &rest[next..];
    }
    end_line();
}

// Control bytes, the space, the quote, and bytes from the last one that is permitted on.
const BYTES: [u8; 11] = [0, 9, 10, 13, 31, 32, 34, 126, 127, 128, 255];

// Blank lines, a comment, a line that is neither; quotes where they may stand and where not; bytes that no line may hold.
const LINES: [(&[u8], &[u8]); 12] = [
    (b"nothing", b""),
    (b"spaces", b"   "),
    (b"# and a tab", b"#\t\""),
    (b"space #", b" #"),
    (b"\"a\"b", b"\"a\"b"),
    (b"a\"b", b"a\"b"),
    (b"\"\"\"", b"\"\"\""),
    (b"\"\" \" \" \"c\"", b"\"\" \" \" \"c\""),
    (b"\"open", b"\"open"),
    (b"byte 127", b"a \x7f"),
    (b"byte 255", b"a \xff b"),
    (b"tab", b"a\tb"),
];

// Line ends: none, alone, lost, inside a quote; with byte 13, and bytes 13 that belong to none.
const FILES: [(&[u8], &[u8]); 12] = [
    (b"nothing", b""),
    (b"no byte 10", b"a b"),
    (b"byte 10", b"\n"),
    (b"three bytes 10", b"\n\n\n"),
    (b"an end lost", b"a\n\nbc"),
    (b"a quote open over an end", b"\"a\nb\""),
    (b"13, 10", b"a\r\nb"),
    (b"13, 10 alone", b"\r\n"),
    (b"13, 10 and 10", b"a\r\nb\n\r\n"),
    (b"13, 13, 10", b"a\r\r\nb"),
    (b"13 at the end", b"a\r"),
    (b"13 inside", b"a\rb\n"),
];

// Prints what all of them are.
pub(crate) fn say_all() {
    for b in BYTES {
        class(b);
    }
    for (name, l) in LINES {
        line(name, l);
    }
    for (name, f) in FILES {
        file(name, f);
    }
}
