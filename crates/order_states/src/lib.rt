// Where a file stands between two lines: which lines may stand there, and what a line does.
#![tactic(auto)]

pub mod stages;

ghost use Rattle.std.specs.Prelude.{◌≡◌};
ghost use Rattle.law.specs.Kinds.{role_of};
ghost use Rattle.order_loops.specs.Loops.{loop_after};
ghost use Rattle.law.specs.Records.{shape_of, many_loops};
ghost use Rattle.order.specs.Automaton.{refusal_of, refusal_number, accepting, after_title, start_of, stands_in, may_stand, after_point, on_or_out, among_points, moved_in, moved, stepped, type_at};

use law::refusals::Refusal;
use law::{FileType, Role, Rules};
use order::{Phase, Reason, Stage, State};
use order_loops::LoopState;
use rows::Point;

// Whether a file may end in a state.
pub fn accepting(st: State) -> bool
    ensures { result ≡ accepting st }
{
    match st {
        State::Between(g) => stages::may_end(g),
        State::Inside(..) => false,
    }
}

// Whether a section has many loops.
#[tactic(auto, using(crate::proofs::StateLaws::many_laws))]
fn many_loops(s: u64) -> bool
    ensures { result ≡ many_loops s }
{
    matches!(s, 2..=4)
}

// What a section begins with after its opening line.
#[tactic(auto, using(order::proofs::SectionStarts::start_title, order::proofs::SectionStarts::start_points, order::proofs::SectionStarts::start_parts, order::proofs::SectionStarts::start_lead, crate::proofs::StateLaws::start_listed))]
fn start_of(v: Rules, s: u64) -> Phase
    ensures { result ≡ start_of (shape_of v s) }
{
    match s {
        1 => Phase::AwaitTitle,
        8 => Phase::InPoints(LoopState::NoPoint),
        11 | 12 => Phase::InList,
        13 => Phase::AwaitPart,
        _ => Phase::AwaitLead,
    }
}

// After the title line comes, not in a library, the line with name and unit.
fn after_title(t: FileType) -> Phase
    ensures { result ≡ after_title t }
{
    match t {
        FileType::Board | FileType::Panel => Phase::AwaitName(t),
        FileType::Library => Phase::HeaderFull(t),
    }
}

// Whether a line of a role may stand in a phase.
fn stands_in(p: Phase, role: Role) -> bool
    ensures { result ≡ stands_in p role }
{
    match p {
        Phase::AwaitTitle => role == Role::Title,
        Phase::AwaitName(_) => role == Role::Name,
        Phase::HeaderFull(_) => role == Role::Closing,
        Phase::AwaitLead => role == Role::Lead,
        Phase::InPoints(_) => matches!(role, Role::Point | Role::Prop | Role::Closing),
        Phase::InProps => matches!(role, Role::Prop | Role::Closing),
        Phase::InList => matches!(role, Role::Entry | Role::Closing),
        Phase::AwaitPart => matches!(role, Role::Part | Role::Closing),
        Phase::AwaitPosition => role == Role::Position,
    }
}

// Whether a line of a kind and its role may stand in a state.
#[tactic(auto, unfolding(order::specs::Automaton::may_stand))]
pub fn may_stand(v: Rules, st: State, kind: u64, role: Role) -> bool
    requires { role ≡ role_of v kind }
    ensures { result ≡ may_stand v st kind }
{
    let section = form_layouts::section_of(v, kind);
    match st {
        State::Between(g) => (role == Role::Opening) & stages::may_open(v, g, section),
        State::Inside(_, s, p) => (section == s) & stands_in(p, role),
    }
}

// On in the section; otherwise its closing line leads out of it.
fn on_or_out(g: Stage, s: u64, stays: bool, p: Phase) -> State
    ensures { result ≡ on_or_out g s stays p }
{
    if stays {
        State::Inside(g, s, p)
    } else {
        State::Between(stages::after(g, s))
    }
}

// What a point does among points.
fn after_point(g: Stage, s: u64, l: LoopState, d: Point) -> Result<State, Reason>
    ensures { result ≡ after_point g s (loop_after (many_loops s) l d) }
{
    let m = order_loops::loop_after(many_loops(s), l, d).ok_or(Reason::BadLoop)?;
    Ok(State::Inside(g, s, Phase::InPoints(m)))
}

// What a point, PROP or closing line does among points.
fn among_points(g: Stage, s: u64, l: LoopState, role: Role, d: Point) -> Result<State, Reason>
    ensures { result ≡ among_points g s l role d }
{
    if role == Role::Point {
        return after_point(g, s, l, d);
    }
    if !order_loops::complete(l) {
        return Err(Reason::BadLoop);
    }
    Ok(on_or_out(g, s, role == Role::Prop, Phase::InProps))
}

// What a line does in a phase where it may stand, by its role.
fn moved_in(g: Stage, s: u64, p: Phase, role: Role, t: FileType, d: Point) -> Result<State, Reason>
    ensures { result ≡ moved_in g s p role t d }
{
    match p {
        Phase::AwaitTitle => Ok(State::Inside(g, s, after_title(t))),
        Phase::AwaitName(u) => Ok(State::Inside(g, s, Phase::HeaderFull(u))),
        Phase::HeaderFull(u) => Ok(State::Between(Stage::Headed(u))),
        Phase::AwaitLead => Ok(State::Inside(g, s, Phase::InPoints(LoopState::NoPoint))),
        Phase::InPoints(l) => among_points(g, s, l, role, d),
        Phase::InProps => Ok(on_or_out(g, s, role == Role::Prop, Phase::InProps)),
        Phase::InList => Ok(on_or_out(g, s, role == Role::Entry, Phase::InList)),
        Phase::AwaitPart => Ok(on_or_out(g, s, role == Role::Part, Phase::AwaitPosition)),
        Phase::AwaitPosition => Ok(State::Inside(g, s, Phase::AwaitPart)),
    }
}

// What a line of a kind and its role does where it may stand, with the type and the point in it, if its values fit.
#[tactic(auto, unfolding(order::specs::Automaton::moved))]
pub fn moved(
    v: Rules,
    st: State,
    kind: u64,
    role: Role,
    t: FileType,
    d: Point,
) -> Result<State, Reason>
    requires { role ≡ role_of v kind }
    ensures { result ≡ moved v st kind t d }
{
    match st {
        State::Between(g) => {
            let s = form_layouts::section_of(v, kind);
            Ok(State::Inside(g, s, start_of(v, s)))
        }
        State::Inside(g, s, p) => moved_in(g, s, p, role, t, d),
    }
}

// What a line does whose values fit, with the type and the point in it: the next state, or a refusal.
#[tactic(auto, unfolding(order::specs::Automaton::stepped))]
pub fn stepped(v: Rules, st: State, kind: u64, t: FileType, d: Point) -> Result<State, Reason>
    ensures { result ≡ stepped v st kind t d }
{
    let role = order_kinds::role_of(v, kind);
    if !may_stand(v, st, kind, role) {
        return Err(Reason::Misplaced);
    }
    moved(v, st, kind, role, t, d)
}

// A reason as a refusal; `fields` is that of the line's fields, where those do not fit.
pub fn refusal_of(e: Reason, fields: Refusal) -> Refusal
    ensures { result ≡ refusal_of e fields }
{
    match e {
        Reason::Misplaced => Refusal::Misplaced,
        Reason::Unfit => fields,
        Reason::BadLoop => Refusal::LoopRule,
        Reason::Repeated => Refusal::NameAgain,
    }
}

// The number of a refusal; `fields` is that of the line's fields, where those do not fit. For callers that hold numbers, which may
// be no refusal's.
pub fn refusal_number(e: Reason, fields: u64) -> u64
    ensures { result ≡ refusal_number e fields }
{
    match e {
        Reason::Misplaced => Refusal::Misplaced.number(),
        Reason::Unfit => fields,
        Reason::BadLoop => Refusal::LoopRule.number(),
        Reason::Repeated => Refusal::NameAgain.number(),
    }
}

// The file's type in a state.
pub fn type_at(st: State) -> FileType
    ensures { result ≡ type_at st }
{
    match st {
        State::Between(g) | State::Inside(g, _, _) => stages::file_of(g),
    }
}
