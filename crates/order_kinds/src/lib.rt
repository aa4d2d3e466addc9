// The kind of a line by its place, and what a line of a kind is for.
#![tactic(auto)]

ghost use Rattle.std.specs.Prelude.{◌≡◌, ◌≤◌};
ghost use Rattle.law.specs.Kinds.{data_role, role_of};
ghost use Rattle.law.specs.Records.{shape_of};
ghost use Rattle.order.specs.Places.{point_line, has_props, line_at, section_in, data_kind, key_section, key_kind};

use form::Keyword;
use law::{Role, Rules};
use order::{Phase, State};

// What the first data line of a section is for.
#[tactic(auto, using(crate::proofs::RoleLaws::first_roles))]
fn first_role(v: Rules, s: u64) -> Role
    ensures { result ≡ data_role (shape_of v s) 1 }
{
    match s {
        1 => Role::Title, // HEADER
        8 => Role::Point, // VIA_KEEPOUT
        11 | 12 => Role::Entry, // DRILLED_HOLES, NOTES
        13 => Role::Part, // PLACEMENT
        _ => Role::Lead,
    }
}

// What the second data line of a section is for, if it has one.
#[tactic(auto, using(crate::proofs::RoleLaws::second_roles))]
fn second_role(v: Rules, s: u64) -> Role
    ensures { result ≡ data_role (shape_of v s) 2 }
{
    match s {
        1 => Role::Name, // HEADER
        8 | 11 | 12 => Role::Unknown, // VIA_KEEPOUT, DRILLED_HOLES, NOTES
        13 => Role::Position, // PLACEMENT
        _ => Role::Point,
    }
}

// What the third data line of a section is for, if it has one.
#[tactic(auto, using(crate::proofs::RoleLaws::third_roles))]
fn third_role(v: Rules, s: u64) -> Role
    ensures { result ≡ data_role (shape_of v s) 3 }
{
    if has_props(v, s) {
        Role::Prop
    } else {
        Role::Unknown
    }
}

// What a line of a kind is for, unknown where no section has it. A kind is the number that a row hands to C: ten times
// the number of its section, and that of its line there.
#[tactic(auto, using(crate::proofs::RoleLaws::role_laws))]
pub fn role_of(v: Rules, kind: u64) -> Role
    ensures { result ≡ role_of v kind }
{
    if (kind < 10) | (rows::LAST_KIND < kind) {
        return Role::Unknown;
    }
    let s = kind / 10;
    match kind % 10 {
        0 => Role::Opening,
        1 => first_role(v, s),
        2 => second_role(v, s),
        3 => third_role(v, s),
        9 => Role::Closing,
        _ => Role::Unknown,
    }
}

// The line of a section that holds its points.
#[tactic(auto, using(crate::proofs::PlaceLaws::point_first, crate::proofs::PlaceLaws::point_second))]
fn point_line(v: Rules, s: u64) -> u64
    ensures { result ≡ point_line (shape_of v s) }
{
    if s == 8 { 1 } else { 2 }
}

// Whether a section has PROP lines.
#[tactic(auto, using(crate::proofs::PlaceLaws::props_is))]
fn has_props(v: Rules, s: u64) -> bool
    ensures { result ≡ has_props (shape_of v s) }
{
    s == 14
}

// Which line of its section a data line is in a phase, if one may stand.
#[tactic(auto, using(crate::proofs::PlaceLaws::line_laws))]
fn line_at(v: Rules, s: u64, p: Phase, marked: bool) -> Option<u64>
    ensures { result ≡ line_at (shape_of v s) p marked }
{
    let prop = marked & has_props(v, s);
    match p {
        Phase::AwaitTitle | Phase::AwaitLead | Phase::InList | Phase::AwaitPart => Some(1),
        Phase::AwaitName(_) | Phase::AwaitPosition => Some(2),
        Phase::HeaderFull(_) => None,
        Phase::InPoints(_) => Some(if prop { 3 } else { point_line(v, s) }),
        Phase::InProps => { if prop { Some(3) } else { None } }
    }
}

// The kind of a data line in a state, 0 where none may stand, as the contract has it; marked: its first field is the bare word
// PROP.
#[tactic(auto, using(crate::proofs::PlaceLaws::kind_laws))]
pub fn data_kind(v: Rules, st: State, marked: bool) -> u64
    requires { section_in st ≤ 15 }
    ensures { result ≡ data_kind v st marked }
{
    match st {
        State::Between(_) => 0,
        State::Inside(_, s, p) => match line_at(v, s, p, marked) {
            Some(n) => 10 * s + n,
            None => 0,
        },
    }
}

// The kind of a keyword line, 0 where no section has the keyword, as the contract has it.
#[tactic(auto, using(crate::proofs::PlaceLaws::key_laws))]
pub fn key_kind(v: Rules, k: Keyword) -> u64
    requires { key_section k ≤ 15 }
    ensures { result ≡ key_kind v k }
{
    match k {
        Keyword::Opening(s) => 10 * s,
        Keyword::Closing(s) => 10 * s + 9,
        Keyword::Unknown => 0,
    }
}
