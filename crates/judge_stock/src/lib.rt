// The components of a library in slots, by the hash of their names, so that a placement finds its entry at once.
//
// Judging asks for each placement of a board whether the library has a component of its package and part, of the kind that its
// reference needs. The definition goes through the library for each placement, which alone takes quadratic time. Nearly always
// the entry is there. So the slots show what is there, where the marks of `names` tell what is not.
//
// One walk over the library (`fill`) puts each component into a slot of 64 bits: where its geometry starts and how long it is,
// the gap to its part, how long that is, the kind (`pack`), and behind these seven bits of the hash, the tag. A placement's
// look (`has_place`) begins at the slot that its own hash tells. A slot with another tag is passed over without a look at the
// library's text; else the kind and both texts are compared, and a slot that agrees is an entry.
//
// What no slot shows, `judge::entries` looks for in the library: a name that is not there, one that found no empty slot, and
// one with more than 1,023 bytes in either text or between the two, which does not fit a slot.
//
// A library of more components than the slots take is judged in parts. A name belongs to the part that further bits of its hash
// tell (`is_in`), the slots hold one part at a time, and the board's walk asks for the placements of that part. The earliest
// placement that lacks its entry in any part is the answer (`judge::parts`, where the slots stand and their number).
//
// Cost: beside the checks of both files a walk over the library and one over the board; in parts, a walk over the library that
// counts its components, then both walks for each part. A placement that no slot shows costs a walk over the library; the first
// that lacks its entry ends its part.
//
// Proved: what a slot shows, the library has (`Stocked`, judge/proofs/StockTrue), and what no slot shows is looked for; the
// verdicts on the parts give that on the whole board (`soonest`, judge/proofs/SoonLaws). So no verdict depends on slots, tags
// or parts.
#![tactic(auto)]

ghost use Rattle.std.specs.Prelude.{◌≡◌, ◌^◌, ◌≤◌, ◌<◌, length};
ghost use Rattle.rows_texts.specs.Names.{key_of};
ghost use Rattle.names_slots.specs.Looks.{looks};
ghost use Rattle.names_slots.specs.Slots.{holds};
ghost use Rattle.law.specs.Answers.{limit};
ghost use Rattle.judge_stock.specs.Stock.{code_for, pack_of, packed_row, is_named, holds_name, tag_of, tagged, shows_by, shows_name, is_in, put_name, stocked_row, stocked_by, stock_of, counted, components_of};

use names_slots::LOOKS;
use rows::{ELECTRICAL, GEOMETRY, GEOMETRY_LEN, MECHANICAL, PART_NUMBER, PART_NUMBER_LEN, WIDTH};
use rows_texts::hash_name;
use walk::Turn;
use walk::steps::{self, Turns};

// The code of a kind: an electrical or a mechanical component.
fn code_for(mechanical: bool) -> u64
    ensures { result ≡ code_for mechanical }
{
    if mechanical { 2 } else { 1 }
}

// A geometry and a part, each by its start and length, as one number with the code of the kind; 0 where they are too large.
fn pack(mechanical: bool, a: u64, l: u64, b: u64, m: u64) -> u64
    ensures { result ≡ pack_of mechanical a l b m }
{
    if 16_777_216 < a {
        return 0;
    }
    if 1_023 < l {
        return 0;
    }
    if 1_023 < m {
        return 0;
    }
    if b < a + l {
        return 0;
    }
    let gap = b - (a + l);
    if 1_023 < gap {
        return 0;
    }
    (((a * 1_024 + l) * 1_024 + gap) * 1_024 + m) * 4 + code_for(mechanical)
}

// The names of a component's row as one number.
fn pack_row(mechanical: bool, y: [i64; WIDTH]) -> u64
    ensures { result ≡ packed_row mechanical y }
{
    pack(
        mechanical,
        number::magnitude(y[GEOMETRY]),
        number::magnitude(y[GEOMETRY_LEN]),
        number::magnitude(y[PART_NUMBER]),
        number::magnitude(y[PART_NUMBER_LEN]),
    )
}

// Whether the names in such a number are those of a placement.
fn is_named(board: &[u8], library: &[u8], e: u64, x: [i64; WIDTH]) -> bool
    ensures { result ≡ is_named board.now library.now e x }
{
    let a = e / 4_294_967_296;
    let l = e / 4_194_304 % 1_024;
    let b = a + l + e / 4_096 % 1_024;
    let m = e / 4 % 1_024;
    if rows_texts::same_texts(
        library,
        a as i64,
        l as i64,
        board,
        x[GEOMETRY],
        x[GEOMETRY_LEN],
    ) {
        return rows_texts::same_texts(
            library,
            b as i64,
            m as i64,
            board,
            x[PART_NUMBER],
            x[PART_NUMBER_LEN],
        );
    }
    false
}

// Whether such a number is a placement's entry, of this kind.
fn holds_name(board: &[u8], library: &[u8], e: u64, mechanical: bool, x: [i64; WIDTH]) -> bool
    ensures { result ≡ holds_name board.now library.now mechanical x e }
{
    if e % 4 != code_for(mechanical) {
        return false;
    }
    is_named(board, library, e, x)
}

// Some bits of a hash, others than those that tell its slot.
fn tag_of(h: u64) -> u64
    ensures { result ≡ tag_of h }
{
    h / 2_147_483_648 % 128
}

// Such a number with its name's tag behind it, so that most others are told apart without a look at their names.
fn tagged(h: u64, e: u64) -> u64
    requires { e < 2 ^ 57 }
    ensures { result ≡ tagged h e }
{
    e * 128 + tag_of(h)
}

// Whether a slot's number is a placement's entry, of this kind; h is the hash of the placement's name.
fn shows_name(
    board: &[u8],
    library: &[u8],
    h: u64,
    e: u64,
    mechanical: bool,
    x: [i64; WIDTH],
) -> bool
    ensures { result ≡ shows_by board.now library.now h mechanical x e }
{
    if e % 128 != tag_of(h) {
        return false;
    }
    holds_name(board, library, e / 128, mechanical, x)
}

// Whether a hash is in a part, of so many: by other bits than those that tell its slot and tag. In one part there are all.
pub fn is_in(h: u64, parts: u64, part: u64) -> bool
    ensures { result ≡ is_in h parts part }
{
    if parts < 2 {
        return true;
    }
    h / 17_592_186_044_416 % parts == part
}

// Puts a row's names into their slot, if their hash is in the part.
fn put_name(
    library: &[u8],
    parts: u64,
    part: u64,
    mechanical: bool,
    y: [i64; WIDTH],
    places: &mut [u64],
)
    requires { looks < length places.old }
    ensures { places.new ≡ put_name parts part library.now places.old mechanical y }
{
    let h = hash_name(library, y);
    if is_in(h, parts, part) {
        let e = pack_row(mechanical, y);
        names_slots::place(places, h, tagged(h, e));
    }
}

// Puts a row's names into their slot, if it is a component's.
fn put_row(library: &[u8], parts: u64, part: u64, y: [i64; WIDTH], places: &mut [u64])
    requires { looks < length places.old }
    ensures { places.new ≡ stocked_row parts part library.now places.old y }
{
    if rows::has_kind(y, ELECTRICAL) {
        put_name(library, parts, part, false, y, places);
        return;
    }
    if rows::has_kind(y, MECHANICAL) {
        put_name(library, parts, part, true, y, places);
    }
}

// Puts a line's names into their slot, if it is a component's.
fn put_turn(library: &[u8], parts: u64, part: u64, t: Turn, places: &mut [u64])
    requires { looks < length places.old }
    ensures { places.new ≡ stocked_by parts part library.now places.old t }
{
    let found = t.found;
    let row = t.row;
    if steps::is_row(found) {
        put_row(library, parts, part, row, places);
    }
}

// How many components there are with a line more.
fn counted(n: u64, t: Turn) -> u64
    requires { n < 2 ^ 62 }
    ensures { result ≡ counted n t }
{
    let found = t.found;
    let row = t.row;
    if steps::is_row(found) & rows::leads_component(row) {
        return n + 1;
    }
    n
}

// Puts the names of a library's components into their slots, as far as their hashes are in the part; answers how many components
// the library has in all.
pub fn fill(library: &[u8], parts: u64, part: u64, places: &mut [u64]) -> u64
    requires { (length library.now ≤ limit) × (looks < length places.old) }
    ensures value { result ≡ components_of library.now }
    ensures places_after { places.new ≡ stock_of parts part library.now places.old }
{
    let mut n = 0;
    for t in Turns::of(library) {
        if steps::stops(t.found) {
            return n;
        }
        put_turn(library, parts, part, t, places);
        n = counted(n, t);
    }
    n
}

// Whether a slot holds a placement's entry, of this kind.
pub fn has_place(
    board: &[u8],
    library: &[u8],
    places: &[u64],
    mechanical: bool,
    x: [i64; WIDTH],
) -> bool
    requires { looks < length places.now }
    ensures { result ≡ holds (shows_name board.now library.now mechanical x) places.now (key_of board.now x) }
{
    let h = hash_name(board, x);
    let from = names_slots::slot_of(h, places.len());
    for i in 0..LOOKS {
        let e = places[from + i];
        if e == 0 {
            return false;
        }
        if shows_name(board, library, h, e, mechanical, x) {
            return true;
        }
    }
    false
}
