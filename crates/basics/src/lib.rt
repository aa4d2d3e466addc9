// What every floor needs and the kit lacks: integers and bytes compared, letters in capitals. The laws of Bool, List and ℤ stand in
// proofs/.
#![tactic(auto)]

ghost use Rattle.std.specs.Prelude.{◌≡◌, eqb};
ghost use Rattle.std.specs.List.{list_all, zip};
ghost use Rattle.law.specs.Words.{capital, same_bytes};
ghost use Rattle.basics.specs.Integers.{eq_z};
ghost use Rattle.basics.specs.Letters.{keyed, cased};

// Whether two numbers are the same.
#[tactic(auto, using(crate::proofs::Integers::bits_same))]
pub fn same_integers(a: i64, b: i64) -> bool
    ensures { result ≡ eq_z a b }
{
    a == b
}

// Whether two slices hold the same bytes.
#[tactic(auto, using(crate::proofs::Bytes::pointwise_bytes))]
pub fn same_bytes(s: &[u8], t: &[u8]) -> bool
    ensures { result ≡ same_bytes s.now t.now }
{
    s == t
}

// A letter in capitals.
pub fn capital_of(b: u8) -> u8
    ensures { result ≡ capital b }
{
    b.to_ascii_uppercase()
}

// A byte in capitals, or as it stands.
fn letter(b: u8, fold: bool) -> u8
    ensures { result ≡ keyed fold b }
{
    if fold { capital_of(b) } else { b }
}

// Whether bytes that stand side by side are the same, each in capitals or as it stands.
fn same_pairs(a: &[u8], fold: bool, b: &[u8], other: bool) -> bool
    ensures { result ≡ list_all (λ p. eqb (keyed fold p.0) (keyed other p.1)) (zip a.now b.now) }
{
    a.iter()
        .zip(b)
        .all(|(x, y)| letter(*x, fold) == letter(*y, other))
}

// Whether two slices hold the same bytes, the letters of each in capitals or as they stand.
#[tactic(auto, using(crate::proofs::Letters::letters_length))]
pub fn same_letters(a: &[u8], fold: bool, b: &[u8], other: bool) -> bool
    ensures { result ≡ same_bytes (cased fold a.now) (cased other b.now) }
{
    (a.len() == b.len()) && same_pairs(a, fold, b, other)
}
