// The table of words, list after list, each in the order of its places.

// A static, so that a row is read where it lies and the table is never copied.
pub(crate) static WORDS: [[u8; 16]; 24] = [
    *b"BOARD_FILE      ", // file types
    *b"PANEL_FILE      ",
    *b"LIBRARY_FILE    ",
    *b"MM              ", // units
    *b"THOU            ",
    *b"MCAD            ", // owners
    *b"ECAD            ",
    *b"UNOWNED         ",
    *b"TOP             ", // faces
    *b"BOTTOM          ",
    *b"TOP             ", // sides
    *b"BOTTOM          ",
    *b"BOTH            ",
    *b"TOP             ", // layers
    *b"BOTTOM          ",
    *b"BOTH            ",
    *b"INNER           ",
    *b"ALL             ",
    *b"PTH             ", // plates
    *b"NPTH            ",
    *b"PLACED          ", // statuses
    *b"UNPLACED        ",
    *b"MCAD            ",
    *b"ECAD            ",
];
