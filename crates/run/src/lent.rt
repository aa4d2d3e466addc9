// What is lent to an operation: numbers or bytes with a mark in each, so that it shows which of them it wrote.
ghost use Rattle.std.specs.Prelude.{◌≡◌, ◌≢◌, ◌≤◌, length, pos, replicate, MatchResult};
ghost use Rattle.std.specs.List.{list_all};

use law::Reply;

// How many numbers there are to lend.
pub const NUMBERS: usize = 8_192;

// How many bytes there are to lend.
pub const BYTES: usize = 4_096;

// What can be lent: its mark, which it holds before.
pub trait Lent: Copy + PartialEq {
    ghost MARK: { Self };

    const MARK: Self;
}

impl Lent for i64 {
    ghost MARK = { pos 7777777 };

    const MARK: i64 = 7_777_777;
}

// No text holds this byte.
impl Lent for u8 {
    ghost MARK = { 7 };

    const MARK: u8 = 7;
}

// N numbers or bytes to lend.
pub fn unused<T: Lent, const N: usize>() -> [T; N]
    ensures all { N ≡ length result }
    ensures marked { result ≡ replicate N T.MARK }
{
    [T::MARK; N]
}

// Whether all of some numbers or bytes have their mark.
pub fn is_untouched<T: Lent>(rest: &[T]) -> bool
    ensures { result ≡ list_all (λ x. T.eq x T.MARK) rest.now }
{
    rest.iter().all(|x| *x == T::MARK)
}

// How many rows, fields or bytes a reply hands out, where there is room for so many; or the reply, where it is a refusal.
pub fn accepted(came: Reply, room: usize) -> Result<usize, Reply>
    ensures { MatchResult result (λ n. (came.number ≡ 0) × (n ≤ room) × (n ≤ came.count)) (λ r. (came.number ≢ 0) × (r ≡ came)) }
{
    if came.number != 0 {
        return Err(came);
    }
    Ok((came.count as usize).min(room))
}

// The same, none on a refusal.
pub fn handed_out(came: Reply, room: usize) -> usize
    ensures { result ≤ room }
{
    accepted(came, room).unwrap_or(0)
}
