// Marks of hashes in lent words of 16 bits, a Bloom filter: a mark sets some bits, and a hash that lacks one of its own was
// never marked.
//
// A caller that goes through many names asks of each whether it came before, and has less room than the names take. Only "no"
// has to be certain. Where all bits of a hash are set it may have been marked, or others have set them, and the caller decides.
//
// A mark sets BITS bits. The first place is told by the lower 32 bits of the hash, and the steps to the others by its upper
// bits. Each step is longer than the one before it: with steps of one length, marks that share some bits would share many, and
// more hashes would be taken for marked.
//
// Cost: at most BITS words are looked at, and as many written. Marks do not run out of room: in fuller words more hashes may
// have been marked, and the caller has more to decide.
//
// Proved: each function answers what its definition says (specs/Marks). A mark takes no bit away (`marking_keeps`,
// proofs/MarkLaws), and a hash that was marked has all its bits (`marking_here`). How often a hash is taken for marked by
// chance is not proved, and nothing but time rests on it.
ghost use Rattle.std.specs.Prelude.{◌≡◌, ◌<◌, length};
ghost use Rattle.names_slots.specs.Marks.{bits, spot_of, word_of, bit_of, has_bit, with_bit, may_hold, marked};

// How many bits a mark sets.
const BITS: u64 = 10;

// Where bit i of a mark stands.
fn spot_of(h: u64, i: u64) -> u64
    requires { i < bits }
    ensures { result ≡ spot_of h i }
{
    h % 4_294_967_296 + i * (h / 4_294_967_296 * 2 + 1 + i * i)
}

// The word of a place, among n.
fn word_of(p: u64, n: usize) -> usize
    requires { 0 < n }
    ensures { result ≡ word_of p n }
{
    (p / 16 % (n as u64)) as usize
}

// The bit of a place, in its word.
fn bit_of(p: u64) -> u16
    ensures { result ≡ bit_of p }
{
    1 << (p % 16)
}

// Whether the bit of a place is set.
fn has_bit(marks: &[u16], p: u64) -> bool
    requires { 0 < length marks.now }
    ensures { result ≡ has_bit marks.now p }
{
    let b = bit_of(p);
    let at = word_of(p, marks.len());
    let x = marks[at];
    x & b == b
}

// Sets the bit of a place.
fn put_bit(marks: &mut [u16], p: u64)
    requires { 0 < length marks.old }
    ensures { marks.new ≡ with_bit marks.old p }
{
    let b = bit_of(p);
    let at = word_of(p, marks.len());
    let x = marks[at];
    marks[at] = x | b;
}

// Whether a hash may have been marked: all its bits are set. It stops at one that is not, and `put_bits` writes them all: one
// walk for both would be longer than the two.
pub fn may_hold(marks: &[u16], h: u64) -> bool
    requires { 0 < length marks.now }
    ensures { result ≡ may_hold marks.now h }
{
    for i in 0..BITS {
        if !has_bit(marks, spot_of(h, i)) {
            return false;
        }
    }
    true
}

// Sets all bits of a mark.
fn put_bits(marks: &mut [u16], h: u64)
    requires { 0 < length marks.old }
    ensures { marks.new ≡ marked marks.old h }
{
    for i in 0..BITS {
        put_bit(marks, spot_of(h, i));
    }
}

// Marks a hash, and answers whether it may have been marked before.
pub fn mark(marks: &mut [u16], h: u64) -> bool
    requires { 0 < length marks.old }
    ensures value { result ≡ may_hold marks.old h }
    ensures marks_after { marks.new ≡ marked marks.old h }
{
    let held = may_hold(marks, h);
    put_bits(marks, h);
    held
}
