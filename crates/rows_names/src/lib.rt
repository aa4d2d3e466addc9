// What a text may name at its field, and what its bytes mean there.
#![tactic(auto)]

ghost use Rattle.std.specs.Prelude.{◌≡◌};
ghost use Rattle.law.specs.Words.{named, is_in, folded, same_bytes};
ghost use Rattle.law.specs.Fits.{is_name, meaning};
ghost use Rattle.law.specs.declared.Texts.TheVariants.{Reference};

use law::{FieldType, Texts};

// Whether bytes are, in some letter case, a name that a reference may be.
#[tactic(auto, using(crate::proofs::NameLaws::reference_laws))]
fn names_reference(s: &[u8]) -> bool
    ensures { result ≡ is_in (folded s.now) (named Reference) }
{
    basics::same_letters(s, true, b"NOREFDES", false)
        || basics::same_letters(s, true, b"BOARD", false)
}

// Whether bytes are, in some letter case, one of the names of a text that may have some.
#[tactic(auto, using(crate::proofs::NameLaws::named_laws))]
fn is_among(k: Texts, s: &[u8]) -> bool
    ensures { result ≡ is_in (folded s.now) (named k) }
{
    match k {
        Texts::Plain => false,
        Texts::Reference => names_reference(s),
        Texts::Hole => names_reference(s) | basics::same_letters(s, true, b"PANEL", false),
    }
}

// Whether bytes are, in some letter case, what a text may name. Most texts may name nothing, and are answered without the call.
#[tactic(auto, using(crate::proofs::NameLaws::named_laws))]
pub fn is_named(k: Texts, s: &[u8]) -> bool
    ensures { result ≡ is_in (folded s.now) (named k) }
{
    match k {
        Texts::Plain => false,
        Texts::Reference | Texts::Hole => is_among(k, s),
    }
}

// Whether bytes are, in some letter case, what a text may name at a field of a type.
#[tactic(auto, unfolding(law::specs::Fits::is_name))]
fn is_name(t: FieldType, s: &[u8]) -> bool
    ensures { result ≡ is_name t s.now }
{
    match t {
        FieldType::Text(k) => is_named(k, s),
        FieldType::Date | FieldType::Integer | FieldType::Number(_) | FieldType::Word(_) => false,
    }
}

// Whether bytes mean these at a field of a type.
#[tactic(auto, using(crate::proofs::NameLaws::means_laws))]
pub fn means(t: FieldType, s: &[u8], word: &[u8]) -> bool
    ensures { result ≡ same_bytes (meaning t s.now) word.now }
{
    if is_name(t, s) {
        return basics::same_letters(s, true, word, false);
    }
    basics::same_bytes(s, word)
}

// Whether two texts mean the same at a field of a type.
#[tactic(auto, using(crate::proofs::NameLaws::same_laws))]
pub fn same_meanings(t: FieldType, a: &[u8], b: &[u8]) -> bool
    ensures { result ≡ same_bytes (meaning t a.now) (meaning t b.now) }
{
    basics::same_bytes(a, b) || basics::same_letters(a, is_name(t, a), b, is_name(t, b))
}
