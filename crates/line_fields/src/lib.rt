// One field from its bytes, by its type.
#![tactic(auto)]

ghost use Rattle.std.specs.Prelude.{◌≡◌, true, false, leb, nat_abs};
ghost use Rattle.law.specs.Fields.{field};
ghost use Rattle.law.specs.Limits.{largest_length, largest_angle, in_turn};
ghost use Rattle.law.specs.Values.{number};
ghost use Rattle.law.specs.Fits.{above, version_of, is_version, kept, largest, fits, is_board, meaning, barred};
ghost use Rattle.law.specs.declared.Texts.TheVariants.{Reference};
ghost use Rattle.law.specs.declared.FieldType.TheVariants.{Text, Number};
ghost use Rattle.form.specs.Fits.{beyond};
ghost use Rattle.form.specs.Reading.{read_field};
ghost use Rattle.line_fields.specs.Told.{told, told_count, told_integer, told_word, told_text, told_date};

use law::refusals::Refusal;
use law::{Context, FieldType, FileType, Limit, Rules, Texts, Words};
use number::{Angle, Length, NumberError};

// What a field reads as: a number, a word's place, or bytes as they stand.
#[derive(Clone, Copy)]
pub enum FieldValue {
    Number(i64),
    Word(u64),
    Bytes,
}

// The version's number, as a count.
fn version_of(v: Rules) -> u64
    ensures { result ≡ version_of v }
{
    match v {
        Rules::Idf3 => 300_000,
    }
}

// Whether a number is above zero.
fn is_above(z: i64) -> bool
    ensures { result ≡ above z }
{
    !number::is_below(z) & (0 < number::magnitude(z))
}

// Whether a number is that of the version.
fn is_version(v: Rules, z: i64) -> bool
    ensures { result ≡ is_version v z }
{
    !number::is_below(z) & (number::magnitude(z) == version_of(v))
}

// Whether a count is that of a length.
fn is_length(z: i64) -> bool
    ensures { result ≡ leb (nat_abs z) largest_length }
{
    Length::new(z).is_some()
}

// Whether a count is that of an angle.
fn is_angle(z: i64) -> bool
    ensures { result ≡ leb (nat_abs z) largest_angle }
{
    Angle::new(z).is_some()
}

// Whether a count is that of an included angle.
fn in_turn(z: i64) -> bool
    ensures { result ≡ in_turn z }
{
    Angle::included(z).is_some()
}

// Whether a count is one of its field's kind and within the field's limit.
pub fn is_within(c: Context, l: Limit, z: i64) -> bool
    ensures { result ≡ fits c (Number l) (number z) }
{
    match l {
        Limit::Length => is_length(z),
        Limit::NotBelow => is_length(z) & !number::is_below(z),
        Limit::Above => is_length(z) & is_above(z),
        Limit::Included => in_turn(z),
        Limit::Rotation => is_angle(z),
        Limit::Version => is_version(c.rules, z),
    }
}

// The refusal beyond it.
#[tactic(auto, unfolding(form::specs::Fits::beyond))]
fn beyond_of(l: Limit) -> Refusal
    ensures { result ≡ beyond l }
{
    match l {
        Limit::Length | Limit::NotBelow | Limit::Above => Refusal::BeyondLimit,
        Limit::Included | Limit::Rotation => Refusal::BeyondLimit,
        Limit::Version => Refusal::WrongWord,
    }
}

// How many decimals of a number are kept.
fn kept_of(c: Context, l: Limit) -> usize
    ensures { result ≡ kept c l }
{
    5
}

// The largest magnitude of a number, by the kind that its limit belongs to.
fn largest_of(l: Limit) -> u64
    ensures { result ≡ largest l }
{
    match l {
        Limit::Length | Limit::NotBelow | Limit::Above | Limit::Version => Length::LARGEST,
        Limit::Included | Limit::Rotation => Angle::LARGEST,
    }
}

// A bare number: 7 where it is none or past its magnitude, 8 where it is too fine, 9 or 10 beyond its limit.
#[tactic(auto, using(crate::proofs::FieldLaws::count_laws))]
fn count_field(c: Context, l: Limit, s: &[u8]) -> Result<FieldValue, Refusal>
    ensures { result ≡ told_count c l s.now }
{
    match number_read::number(s, kept_of(c, l), largest_of(l)) {
        Err(NumberError::NotNumber) => Err(Refusal::NoNumber),
        Err(NumberError::TooFine) => Err(Refusal::TooFine),
        Ok(z) => {
            if is_within(c, l, z) {
                Ok(FieldValue::Number(z))
            } else {
                Err(beyond_of(l))
            }
        }
    }
}

// A bare integer.
#[tactic(auto, using(crate::proofs::FieldLaws::integer_whole, crate::proofs::FieldLaws::integer_not))]
fn integer_field(s: &[u8]) -> Result<FieldValue, Refusal>
    ensures { result ≡ told_integer s.now }
{
    match number_read::integer(s) {
        Some(z) => Ok(FieldValue::Number(z.value())),
        None => Err(Refusal::NoNumber),
    }
}

// A bare word.
fn word_field(v: Rules, l: Words, s: &[u8]) -> Result<FieldValue, Refusal>
    ensures { result ≡ told_word v l s.now }
{
    match form_words::place_of(v, l, s) {
        Some(n) => Ok(FieldValue::Word(n)),
        None => Err(Refusal::WrongWord),
    }
}

// Whether a file is a board.
fn is_board(f: FileType) -> bool
    ensures { result ≡ is_board f }
{
    matches!(f, FileType::Board)
}

// Whether a reference means BOARD, in a board.
#[tactic(auto, using(crate::proofs::FieldLaws::reference_laws))]
fn bars_reference(c: Context, s: &[u8]) -> bool
    ensures { result ≡ barred c Reference (meaning (Text Reference) s.now) }
{
    is_board(c.file) && basics::same_letters(s, true, b"BOARD", false)
}

// Whether a text may not stand at its field: BOARD is no reference in a board.
#[tactic(auto, unfolding(law::specs::Fits::barred))]
pub fn is_barred(c: Context, k: Texts, s: &[u8]) -> bool
    ensures { result ≡ barred c k (meaning (Text k) s.now) }
{
    match k {
        Texts::Plain | Texts::Hole => false,
        Texts::Reference => bars_reference(c, s),
    }
}

// A text.
fn text_field(c: Context, k: Texts, s: &[u8]) -> Result<FieldValue, Refusal>
    ensures { result ≡ told_text c k s.now }
{
    if is_barred(c, k, s) {
        Err(Refusal::WrongWord)
    } else {
        Ok(FieldValue::Bytes)
    }
}

// A bare date.
fn date_field(s: &[u8]) -> Result<FieldValue, Refusal>
    ensures { result ≡ told_date s.now }
{
    if number_read::is_date(s) {
        Ok(FieldValue::Bytes)
    } else {
        Err(Refusal::WrongWord)
    }
}

// A bare field by its type.
fn bare_field(c: Context, t: FieldType, s: &[u8]) -> Result<FieldValue, Refusal>
    ensures { result ≡ told (read_field c t (field false s.now)) }
{
    match t {
        FieldType::Text(k) => text_field(c, k, s),
        FieldType::Date => date_field(s),
        FieldType::Integer => integer_field(s),
        FieldType::Number(l) => count_field(c, l, s),
        FieldType::Word(l) => word_field(c.rules, l, s),
    }
}

// A quoted field by its type: only texts may be quoted.
#[tactic(auto, unfolding(form::specs::Reading::read_field))]
fn quoted_field(c: Context, t: FieldType, s: &[u8]) -> Result<FieldValue, Refusal>
    ensures { result ≡ told (read_field c t (field true s.now)) }
{
    match t {
        FieldType::Text(k) => text_field(c, k, s),
        FieldType::Date | FieldType::Word(_) => Err(Refusal::WrongWord),
        FieldType::Integer | FieldType::Number(_) => Err(Refusal::NoNumber),
    }
}

// One field by its type, from its bytes without quotes.
pub fn read_field(c: Context, t: FieldType, s: &[u8], quoted: bool) -> Result<FieldValue, Refusal>
    ensures { result ≡ told (read_field c t (field quoted s.now)) }
{
    if quoted {
        quoted_field(c, t, s)
    } else {
        bare_field(c, t, s)
    }
}
