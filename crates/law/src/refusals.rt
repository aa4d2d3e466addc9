// The refusals, and their numbers as document 01's table of replies has them; 0 is no refusal.
ghost use Rattle.std.specs.Prelude.{◌≡◌};
ghost use Rattle.law.specs.Refusals.{number_of};

// Why something is refused, in the order of that table.
#[derive(Clone, Copy, PartialEq, Eq)]
pub enum Refusal {
    TooLarge,
    FewRows,
    ForbiddenByte,
    BrokenQuoting,
    Misplaced,
    FieldCount,
    NoNumber,
    TooFine,
    WrongWord,
    BeyondLimit,
    LoopRule,
    NameAgain,
    TooEarly,
    ShortText,
    NoList,
    NoEntry,
    WrongKind,
}

impl Refusal {
    // Its number in that table.
    pub fn number(self) -> u64
        ensures { result ≡ number_of self }
    {
        match self {
            Refusal::TooLarge => 1,
            Refusal::FewRows => 2,
            Refusal::ForbiddenByte => 3,
            Refusal::BrokenQuoting => 4,
            Refusal::Misplaced => 5,
            Refusal::FieldCount => 6,
            Refusal::NoNumber => 7,
            Refusal::TooFine => 8,
            Refusal::WrongWord => 9,
            Refusal::BeyondLimit => 10,
            Refusal::LoopRule => 11,
            Refusal::NameAgain => 12,
            Refusal::TooEarly => 13,
            Refusal::ShortText => 14,
            Refusal::NoList => 15,
            Refusal::NoEntry => 16,
            Refusal::WrongKind => 17,
        }
    }
}
