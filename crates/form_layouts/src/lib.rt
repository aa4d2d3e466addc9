// The layout of each kind of line, as a table of letters: how many fields, and the type of each.
#![tactic(auto)]

ghost use Rattle.std.specs.Prelude.{◌≡◌, ◌+◌, ◌≤◌, ◌<◌, length};
ghost use Rattle.law.specs.Layouts.{types_of};
ghost use Rattle.law.specs.Kinds.{section_of};
ghost use Rattle.form_layouts.specs.Letters.{letter_at, row_of, is_kind, type_at, limit_at, words_at, plain_named, type_named, width_of};

use law::{FieldType, Limit, Rules, Texts, Words};
use rows::LAST_KIND;

// The row of each layout, that of the letter @ first: how many fields, and the letter of each field's type.
// Letters of types: T text, R reference, H a hole's part, D date, I integer; numbers, in the order of their limits: a length, b length from zero on,
// c length above zero, d included angle, e rotation, f version; words, in the order of their lists: g file types, h units, i owners,
// j faces, k sides, l layers, m plates, n statuses. A static, so that a row is read where it lies and the table is never copied.
static LAYOUTS: [[u8; 8]; 17] = [
    *b"0       ", // @ no such kind
    *b"0       ", // A a keyword alone
    *b"1i      ", // B an opening line and its owner
    *b"5gfTDI  ", // C title: file type, version, system, date, file version number
    *b"2Th     ", // D name, unit
    *b"1a      ", // E thickness
    *b"3Tbj    ", // F outline: identifier, thickness, side
    *b"1l      ", // G layers
    *b"2kb     ", // H side, height
    *b"2kT     ", // I side, group
    *b"7caamHTi", // J hole: diameter, x, y, plating, part, hole type, owner
    *b"5aaaaT  ", // K note: x, y, height, length, text
    *b"3TTR    ", // L part: package, part number, reference
    *b"6aabejn ", // M position: x, y, offset, rotation, side, status
    *b"4TTha   ", // N component: geometry, part, unit, height
    *b"4Iaad   ", // O point: label, x, y, angle
    *b"2TT     ", // P property: name, value
];

// The letter of each line of each section, its opening line first and its closing line last; @ of a line that the section does not have.
static LINES: [[u8; 10]; 16] = [
    *b"@@@@@@@@@@", // no section
    *b"ACD@@@@@@A", // HEADER
    *b"BEO@@@@@@A", // BOARD_OUTLINE; outlines, keepouts and the region have an owner
    *b"BEO@@@@@@A", // PANEL_OUTLINE
    *b"BFO@@@@@@A", // OTHER_OUTLINE
    *b"BGO@@@@@@A", // ROUTE_OUTLINE
    *b"BHO@@@@@@A", // PLACE_OUTLINE
    *b"BGO@@@@@@A", // ROUTE_KEEPOUT
    *b"BO@@@@@@@A", // VIA_KEEPOUT
    *b"BHO@@@@@@A", // PLACE_KEEPOUT
    *b"BIO@@@@@@A", // PLACE_REGION
    *b"AJ@@@@@@@A", // DRILLED_HOLES
    *b"AK@@@@@@@A", // NOTES
    *b"ALM@@@@@@A", // PLACEMENT
    *b"ANOP@@@@@A", // ELECTRICAL, which has PROP lines
    *b"ANO@@@@@@A", // MECHANICAL
];

// The section of a row's kind, 0 where no section has it. By ranges, the form that document 01 names for this place (docs/DECISIONS.md, item 160).
pub fn section_of(v: Rules, kind: u64) -> u64
    ensures { result ≡ section_of v kind }
{
    match v {
        Rules::Idf3 => match kind {
            10..=19 => 1,
            20..=29 => 2,
            30..=39 => 3,
            40..=49 => 4,
            50..=59 => 5,
            60..=69 => 6,
            70..=79 => 7,
            80..=89 => 8,
            90..=99 => 9,
            100..=109 => 10,
            110..=119 => 11,
            120..=129 => 12,
            130..=139 => 13,
            140..=149 => 14,
            150..=159 => 15,
            _ => 0,
        },
    }
}

// The letter of a kind's layout.
#[tactic(auto, using(crate::proofs::TableLaws::letter_none, crate::proofs::TableLaws::letter_there), unfolding(crate::specs::Letters::line_table))]
fn letter_at(v: Rules, kind: u64) -> u8
    ensures { result ≡ letter_at v kind }
{
    if LAST_KIND < kind {
        return b'@';
    }
    LINES[(kind / 10) as usize][(kind % 10) as usize]
}

// The row of a kind's layout: letters and no field types, as the statement `tight_form_layouts_row_of` has it.
#[tactic(auto, using(crate::proofs::TableLaws::row_there, crate::proofs::TableLaws::letter_from, crate::proofs::TableLaws::letter_to), unfolding(crate::specs::Letters::layout_table))]
pub fn row_of(v: Rules, kind: u64) -> [u8; 8]
    ensures { result ≡ row_of v kind }
{
    LAYOUTS[(letter_at(v, kind) - b'@') as usize]
}

// Whether some section has a kind.
#[tactic(auto, using(crate::proofs::KindLaws::letter_kind))]
pub fn is_kind(v: Rules, kind: u64) -> bool
    ensures { result ≡ is_kind v kind }
{
    letter_at(v, kind) != b'@'
}

// How many fields a line of a kind has, its keyword or PROP left off.
#[tactic(auto, using(crate::proofs::KindLaws::count_from, crate::proofs::KindLaws::count_is, crate::proofs::KindLaws::count_fits))]
pub fn field_count(v: Rules, kind: u64) -> usize
    ensures { result ≡ length (types_of v kind) }
{
    let row = row_of(v, kind);
    (row[0] - b'0') as usize
}

// How many columns of a row a field fills.
pub fn width_of(t: FieldType) -> usize
    ensures { result ≡ width_of t }
{
    match t {
        FieldType::Text(_) => 2,
        FieldType::Date => 2,
        FieldType::Integer => 1,
        FieldType::Number(_) => 1,
        FieldType::Word(_) => 1,
    }
}

// A limit by its place among the limits: places in the table of letters, which no `TryFrom` would say in fewer lines.
fn limit_of(n: u8) -> Limit
    ensures { result ≡ limit_at n }
{
    match n {
        0 => Limit::Length,
        1 => Limit::NotBelow,
        2 => Limit::Above,
        3 => Limit::Included,
        4 => Limit::Rotation,
        _ => Limit::Version,
    }
}

// A list of words by its place among the lists.
fn words_of(n: u8) -> Words
    ensures { result ≡ words_at n }
{
    match n {
        0 => Words::FileTypes,
        1 => Words::Units,
        2 => Words::Owners,
        3 => Words::Faces,
        4 => Words::Sides,
        5 => Words::Layers,
        6 => Words::Plates,
        _ => Words::Statuses,
    }
}

// The type of a letter that names no number and no word.
fn plain_type(letter: u8) -> FieldType
    ensures { result ≡ plain_named letter }
{
    match letter {
        b'R' => FieldType::Text(Texts::Reference),
        b'H' => FieldType::Text(Texts::Hole),
        b'D' => FieldType::Date,
        b'I' => FieldType::Integer,
        _ => FieldType::Text(Texts::Plain),
    }
}

// The type of a letter; limits and lists follow each other, so that no table of jumps is needed.
#[tactic(auto, using(crate::proofs::KindLaws::named_plain, crate::proofs::KindLaws::named_number, crate::proofs::KindLaws::named_word))]
fn type_of(letter: u8) -> FieldType
    ensures { result ≡ type_named letter }
{
    if letter < b'a' {
        return plain_type(letter);
    }
    if letter < b'g' {
        return FieldType::Number(limit_of(letter - b'a'));
    }
    FieldType::Word(words_of(letter - b'g'))
}

// The type of a field of a line of a kind, fields counted from 0, by the row of the kind's layout.
pub fn field_type(v: Rules, kind: u64, row: [u8; 8], i: usize) -> FieldType
    requires { (row ≡ row_of v kind) × (i < length (types_of v kind)) }
    ensures { result ≡ type_at (types_of v kind) i }
{
    type_of(row[i + 1])
}
