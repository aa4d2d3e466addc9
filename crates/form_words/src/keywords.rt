// The table of keywords, their period left off: the names of the sections, section 1 first, then their closing forms.

// Where the names begin, and the closing forms.
pub(crate) const NAMES: usize = 0;

pub(crate) const CLOSING_FORMS: usize = 15;

// The place of the byte that tells closing forms apart, which all begin with END_.
pub(crate) const FIFTH: usize = 4;

// A static, so that a row is read where it lies and the table is never copied.
pub(crate) static KEYWORDS: [[u8; 20]; 30] = [
    *b"HEADER              ",
    *b"BOARD_OUTLINE       ",
    *b"PANEL_OUTLINE       ",
    *b"OTHER_OUTLINE       ",
    *b"ROUTE_OUTLINE       ",
    *b"PLACE_OUTLINE       ",
    *b"ROUTE_KEEPOUT       ",
    *b"VIA_KEEPOUT         ",
    *b"PLACE_KEEPOUT       ",
    *b"PLACE_REGION        ",
    *b"DRILLED_HOLES       ",
    *b"NOTES               ",
    *b"PLACEMENT           ",
    *b"ELECTRICAL          ",
    *b"MECHANICAL          ",
    *b"END_HEADER          ", // closing forms
    *b"END_BOARD_OUTLINE   ",
    *b"END_PANEL_OUTLINE   ",
    *b"END_OTHER_OUTLINE   ",
    *b"END_ROUTE_OUTLINE   ",
    *b"END_PLACE_OUTLINE   ",
    *b"END_ROUTE_KEEPOUT   ",
    *b"END_VIA_KEEPOUT     ",
    *b"END_PLACE_KEEPOUT   ",
    *b"END_PLACE_REGION    ",
    *b"END_DRILLED_HOLES   ",
    *b"END_NOTES           ",
    *b"END_PLACEMENT       ",
    *b"END_ELECTRICAL      ",
    *b"END_MECHANICAL      ",
];
