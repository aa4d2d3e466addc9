// The types that the rules share with the code. The rules stand in specs/, and depend on nothing.
#![tactic(auto)]

pub mod refusals;

// The version of the format whose rules hold.
#[derive(Clone, Copy)]
pub enum Rules {
    Idf3,
}

// What a file is, by its title line.
#[derive(Clone, Copy)]
pub enum FileType {
    Board,
    Panel,
    Library,
}

// What a line is read under: the rules, and the type of the file.
#[derive(Clone, Copy)]
pub struct Context {
    pub rules: Rules,
    pub file: FileType,
}

// What a line is for, in its section.
#[derive(Clone, Copy, PartialEq, Eq)]
pub enum Role {
    Opening,
    Closing,
    Title,
    Name,
    Lead,
    Point,
    Prop,
    Entry,
    Part,
    Position,
    Unknown,
}

// The lists that a word is looked up in.
#[derive(Clone, Copy)]
pub enum Words {
    FileTypes,
    Units,
    Owners,
    Faces,
    Sides,
    Layers,
    Plates,
    Statuses,
}

// The limit on a number's count: a length, one from zero on, one above zero, an included angle, a rotation, the version.
#[derive(Clone, Copy)]
pub enum Limit {
    Length,
    NotBelow,
    Above,
    Included,
    Rotation,
    Version,
}

// What a text may name: nothing of its own, what a reference names, what a hole's part does.
#[derive(Clone, Copy)]
pub enum Texts {
    Plain,
    Reference,
    Hole,
}

// What a field may hold.
#[derive(Clone, Copy)]
pub enum FieldType {
    Text(Texts),
    Date,
    Integer,
    Number(Limit),
    Word(Words),
}

// What every operation answers: a refusal's number or 0, its line, and a count.
// C reads these three numbers, so a refusal stands here by its number and not as a `Refusal`.
#[derive(Clone, Copy)]
pub struct Reply {
    pub number: u64,
    pub line: u64,
    pub count: u64,
}

// What an operation on two files answers: a reply, and which of them was refused, 0 if neither.
// C reads these four numbers.
#[derive(Clone, Copy)]
pub struct Verdict {
    pub number: u64,
    pub line: u64,
    pub count: u64,
    pub which: u64,
}
