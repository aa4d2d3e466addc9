// Hashes of bytes, and slots: numbers in a lent slice, each found again from the place that a hash tells. Beside them: `marks`.
//
// Names of any length have to be found again, with no heap to keep them in. Slots and marks keep something short in a lent
// slice instead. Neither has to tell everything: what they do not tell, the caller finds in the file itself, in more time.
//
// `hash` goes through all bytes of a text, on from a number, so that the hash of a second text goes on from that of the first.
// Each step takes what came before modulo MODULUS, the largest prime below 2^40, times FACTOR, and adds a byte.
//
// `place` puts a number into the first empty slot, which holds 0, from `slot_of` on. A look begins at the same slot and ends at
// an empty one, or after LOOKS. All slots of a look lie in the slice, so nothing goes round its end. A number that meets no
// empty slot within LOOKS is left out, and one that is there already is not put in twice. What it means, the caller knows.
//
// Cost: one pass over the bytes for a hash. A look goes to few slots while the slice is not nearly full, and to LOOKS at most.
//
// Proved: each function answers what its definition says (specs/Hashes, specs/Slots). After `place` every slot holds what it
// held or what was placed (`placed_all`, proofs/SlotLaws), and what a look finds stands in some slot (`held_sound`): so what
// holds of all numbers that were placed holds of the one that is found.
#![tactic(auto)]

pub mod marks;

ghost use Rattle.std.specs.Prelude.{◌≡◌, ◌+◌, ◌≤◌, ◌<◌, length};
ghost use Rattle.names_slots.specs.Looks.{looks};
ghost use Rattle.names_slots.specs.Hashes.{hashed, slot_of};
ghost use Rattle.names_slots.specs.Slots.{put_from, placed};

// How many slots one look goes through at most.
pub const LOOKS: usize = 1_024;

const MODULUS: u64 = 1_099_511_627_689;

const FACTOR: u64 = 11_400_715;

// The hash of bytes behind those that gave h.
pub fn hash(h: u64, s: &[u8]) -> u64
    ensures { result ≡ hashed h s.now }
{
    let mut n = h;
    for b in s {
        n = (n % MODULUS) * FACTOR + u64::from(*b);
    }
    (n % MODULUS) * FACTOR
}

// The slot that a look for a hash begins at, among n of them.
pub fn slot_of(h: u64, n: usize) -> usize
    requires { looks < n }
    ensures { result ≡ slot_of h n }
{
    (h % ((n - LOOKS) as u64)) as usize
}

// Puts m into the first empty slot from a place on, unless it comes before that.
fn put_number(slots: &mut [u64], from: usize, m: u64)
    requires { from + looks ≤ length slots.old }
    ensures { slots.new ≡ put_from looks slots.old from m }
{
    for i in 0..LOOKS {
        let x = slots[from + i];
        if x == 0 {
            slots[from + i] = m;
            return;
        }
        if x == m {
            return;
        }
    }
}

// Places a number by a hash.
pub fn place(slots: &mut [u64], h: u64, m: u64)
    requires { looks < length slots.old }
    ensures { slots.new ≡ placed slots.old h m }
{
    let from = slot_of(h, slots.len());
    put_number(slots, from, m);
}
