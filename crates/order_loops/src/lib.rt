// The loop rule, one point at a time: circles of two lines, and paths that end where they began.
#![tactic(auto)]

ghost use Rattle.std.specs.Prelude.{◌≡◌};
ghost use Rattle.std.proofs.Math.IntN.{suc_ℤ};
ghost use Rattle.basics.specs.Integers.{eq_z};
ghost use Rattle.order_loops.specs.Loops.{place_at, first_label, goes_on, closes, reached, begins, loop_after, complete};
ghost use Rattle.order_loops.specs.Answers.{turns_by, went_on, next_loop, second_by, after_back};

use number::{Angle, Length};
use rows::Point;

// A place in the plane.
#[derive(Clone, Copy, PartialEq, Eq)]
pub struct Place {
    pub x: Length,
    pub y: Length,
}

// A section's points so far, with label, first place and last place: none; one; two or more and not back; back at the first; a circle.
#[derive(Clone, Copy)]
pub enum LoopState {
    NoPoint,
    OnePoint(i64, Place),
    Away(i64, Place, Place),
    Back(i64, Place),
    Round(i64),
}

// Whether b is one more than a.
fn follows(a: i64, b: i64) -> bool
    ensures { result ≡ eq_z b (suc_ℤ a) }
{
    a.checked_add(1) == Some(b)
}

// Where a point is.
fn place_at(d: Point) -> Place
    ensures { result ≡ place_at d }
{
    let x = d.x;
    let y = d.y;
    Place { x, y }
}

// Whether a point makes the whole turn of a circle.
#[tactic(auto, using(crate::proofs::LoopLaws::turns_is))]
fn turns(d: Point) -> bool
    ensures { result ≡ turns_by d }
{
    d.angle.count() == Angle::FULL_TURN as i64
}

// Whether a point with this label, not at q and not 360, goes on.
#[tactic(auto, using(crate::proofs::LoopLaws::goes_is))]
fn goes_on(label: i64, q: Place, d: Point) -> bool
    ensures { result ≡ goes_on label q d }
{
    (d.label == label) & (place_at(d) != q) & !turns(d)
}

// Whether a point is the second line of a circle that began at f.
#[tactic(auto, using(crate::proofs::LoopLaws::closes_is))]
fn closes(label: i64, f: Place, d: Point) -> bool
    ensures { result ≡ closes label f d }
{
    (d.label == label) & (place_at(d) != f) & turns(d)
}

// A loop that began at f and has come to p.
#[tactic(auto, using(crate::proofs::LoopLaws::reached_back, crate::proofs::LoopLaws::reached_away))]
fn reached(label: i64, f: Place, p: Place) -> LoopState
    ensures { result ≡ reached label f p }
{
    if p == f {
        LoopState::Back(label, f)
    } else {
        LoopState::Away(label, f, p)
    }
}

// A loop's first point, where a loop may begin.
#[tactic(auto, using(crate::proofs::LoopLaws::starts_is))]
fn begins(may: bool, label: i64, d: Point) -> Option<LoopState>
    ensures { result ≡ begins may label d }
{
    if may & (d.angle.count() == 0) {
        Some(LoopState::OnePoint(label, place_at(d)))
    } else {
        None
    }
}

// Whether a section's first loop may have this label.
#[tactic(auto, using(crate::proofs::LoopLaws::first_is))]
fn first_label(many: bool, label: i64) -> bool
    ensures { result ≡ first_label many label }
{
    (label == 0) | (!many & (label == 1))
}

// A further point of the loop, or none.
fn went_on(label: i64, f: Place, q: Place, d: Point) -> Option<LoopState>
    ensures { result ≡ went_on label f q d }
{
    if goes_on(label, q, d) {
        Some(reached(label, f, place_at(d)))
    } else {
        None
    }
}

// The first point of the next loop.
fn next_loop(many: bool, label: i64, d: Point) -> Option<LoopState>
    ensures { result ≡ next_loop many label d }
{
    begins(many & follows(label, d.label), d.label, d)
}

// The second line of a loop: of a circle, or of a path.
fn second(label: i64, f: Place, d: Point) -> Option<LoopState>
    ensures { result ≡ second_by label f d }
{
    if closes(label, f, d) {
        Some(LoopState::Round(label))
    } else {
        went_on(label, f, f, d)
    }
}

// A point after a path that is back at its first: the path goes on, or the next loop begins.
fn after_back(many: bool, label: i64, f: Place, d: Point) -> Option<LoopState>
    ensures { result ≡ after_back many label f d }
{
    if goes_on(label, f, d) {
        Some(reached(label, f, place_at(d)))
    } else {
        next_loop(many, label, d)
    }
}

// The loop rule: one more point, in a section with many loops or with one.
#[tactic(auto, unfolding(crate::specs::Loops::loop_after))]
pub fn loop_after(many: bool, l: LoopState, d: Point) -> Option<LoopState>
    ensures { result ≡ loop_after many l d }
{
    match l {
        LoopState::NoPoint => begins(first_label(many, d.label), d.label, d),
        LoopState::OnePoint(label, f) => second(label, f, d),
        LoopState::Away(label, f, q) => went_on(label, f, q, d),
        LoopState::Back(label, f) => after_back(many, label, f, d),
        LoopState::Round(label) => next_loop(many, label, d),
    }
}

// Whether the last loop has come back, or is a circle.
pub fn complete(l: LoopState) -> bool
    ensures { result ≡ complete l }
{
    matches!(l, LoopState::Back(..) | LoopState::Round(..))
}
