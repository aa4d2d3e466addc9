// The format as definitions: sections, keywords, words, field types, the layout of each kind of line. `layouts` and `words` look them up.
#![tactic(auto)]

// What a keyword does: it opens or closes the section of a number, or is none. Three cases side by side: as an Option of two, each place
// that asks would match twice.
#[derive(Clone, Copy)]
pub enum Keyword {
    Opening(u64),
    Closing(u64),
    Unknown,
}
