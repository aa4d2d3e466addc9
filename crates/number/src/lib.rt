// Numbers: lengths, angles and integers, kept apart by kind. Each is made by its constructors alone.
#![tactic(auto)]

ghost use Rattle.std.specs.Prelude.{◌≡◌, nat_abs};
ghost use Rattle.law.specs.Limits.{below};
ghost use Rattle.number.specs.Limits.{length_of, angle_of, included_of, integer_of};

// The magnitude of a signed number, of the smallest one too.
pub fn magnitude(z: i64) -> u64
    ensures { result ≡ nat_abs z }
{
    z.unsigned_abs()
}

// Whether a signed number is below zero.
pub fn is_below(z: i64) -> bool
    ensures { result ≡ below z }
{
    z < 0
}

// A length, as a count of hundred-thousandths of the file's unit.
#[derive(Clone, Copy, PartialEq, Eq)]
pub struct Length(i64);

impl Length {
    pub const LARGEST: u64 = 99_999_999_999;

    pub const ZERO: Length = Length(0);

    // A length, or none where the count is beyond the largest.
    pub fn new(count: i64) -> Option<Length>
        ensures { result ≡ length_of count }
    {
        (magnitude(count) <= Length::LARGEST).then_some(Length(count))
    }

    pub fn count(self) -> i64
        ensures { result ≡ self.0 }
    {
        let Length(count) = self;
        count
    }
}

// An angle in degrees, as a count of hundred-thousandths. A type of its own, as each kind is, so that no kind passes for another;
// one type over a limit would make a length an angle, since both have the same limit.
#[derive(Clone, Copy)]
pub struct Angle(i64);

impl Angle {
    pub const LARGEST: u64 = Length::LARGEST;

    pub const FULL_TURN: u64 = 36_000_000;

    pub const ZERO: Angle = Angle(0);

    // Any angle, as a rotation is, or none where the count is beyond the largest.
    pub fn new(count: i64) -> Option<Angle>
        ensures { result ≡ angle_of count }
    {
        (magnitude(count) <= Angle::LARGEST).then_some(Angle(count))
    }

    // An included angle, above -360 degrees and not above 360, or none.
    pub fn included(count: i64) -> Option<Angle>
        ensures { result ≡ included_of count }
    {
        let turn = Angle::FULL_TURN as i64;
        (-turn < count && count <= turn).then_some(Angle(count))
    }

    pub fn count(self) -> i64
        ensures { result ≡ self.0 }
    {
        let Angle(count) = self;
        count
    }
}

// An integer: a loop's label, a file's version number.
#[derive(Clone, Copy)]
pub struct Integer(i64);

impl Integer {
    pub const LARGEST: u64 = 999_999_999;

    // An integer, or none where the value is beyond the largest.
    pub fn new(value: i64) -> Option<Integer>
        ensures { result ≡ integer_of value }
    {
        (magnitude(value) <= Integer::LARGEST).then_some(Integer(value))
    }

    pub fn value(self) -> i64
        ensures { result ≡ self.0 }
    {
        let Integer(value) = self;
        value
    }
}

// Why a field reads as no count where a number must stand: it is no number, or one past its magnitude; a decimal is too fine.
#[derive(Clone, Copy, PartialEq, Eq)]
pub enum NumberError {
    NotNumber,
    TooFine,
}
