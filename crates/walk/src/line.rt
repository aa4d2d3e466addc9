// One line of a file in a state: which record it is, its row, and the state after it, or its refusal.
ghost use Rattle.std.specs.Prelude.{◌≡◌, true, ◌+◌, ◌^◌, ◌≤◌, ◌<◌, length, take};
ghost use Rattle.law.specs.Kinds.{role_of};
ghost use Rattle.order.specs.Places.{section_in};
ghost use Rattle.order.specs.Automaton.{may_stand};
ghost use Rattle.line_rows.specs.Rows.{refused_alone};
ghost use Rattle.walk.specs.Judging.{refused_by, free_by, moved_row, filled_by, of_kind, data_by, judged};

use crate::{Found, JudgedLine};
use law::refusals::Refusal;
use law::{Context, FileType, Role, Rules};
use line_rows::{Filling, LineKind, Stop};
use order::{Reason, State};
use rows::WIDTH;

// A refused line leaves the state as it is.
fn refused(st: State, e: Refusal) -> JudgedLine
    ensures { result ≡ refused_by st e }
{
    JudgedLine {
        found: Found::Refused(e),
        row: [0; WIDTH],
        state: st,
    }
}

// What a comment or blank line is: it stands between sections.
fn free_found(st: State) -> Found
    ensures { result ≡ (free_by st).found }
{
    match st {
        State::Between(_) => Found::Nothing,
        State::Inside(..) => Found::Refused(Refusal::Misplaced),
    }
}

// The state behind such a line is the one before it.
#[tactic(auto, using(crate::proofs::LineLaws::free_is))]
fn free(st: State) -> JudgedLine
    ensures { result ≡ free_by st }
{
    JudgedLine {
        row: [0; WIDTH],
        state: st,
        found: free_found(st),
    }
}

// What a record does: on to the next state, or its refusal.
fn taken(st: State, row: [i64; WIDTH], o: Result<State, Reason>) -> JudgedLine
    ensures { result ≡ moved_row st row o }
{
    match o {
        Ok(t) => JudgedLine {
            found: Found::Row,
            row: row,
            state: t,
        },
        Err(e) => refused(st, order_states::refusal_of(e, Refusal::Misplaced)),
    }
}

// A line of a kind that may stand, whose fields were read into a row or refused.
#[tactic(auto, using(crate::proofs::LineLaws::filled_laws))]
fn filled(v: Rules, st: State, kind: u64, role: Role, read: Result<Filling, Stop>) -> JudgedLine
    requires { (may_stand v st kind ≡ true) × (role ≡ role_of v kind) }
    ensures { result ≡ filled_by v st kind (refused_alone read) }
{
    match read {
        Ok(f) => {
            let row = f.row;
            let t = rows::file_type_in(row);
            let d = rows::point_in(row);
            taken(st, row, order_states::moved(v, st, kind, role, t, d))
        }
        Err(e) => refused(st, e.refusal),
    }
}

// A line of a kind and its role with n fields, the first of them from a place on; it starts at `base` in the file.
#[tactic(auto, using(crate::proofs::LineLaws::kind_laws))]
fn of_kind(
    v: Rules,
    st: State,
    kind: u64,
    role: Role,
    s: &[u8],
    base: usize,
    n: usize,
    from: usize,
) -> JudgedLine
    requires { (role ≡ role_of v kind) × (from ≤ length s.now) × (base + length s.now < 2 ^ 62) }
    ensures { result ≡ of_kind v st kind s.now base n from }
{
    if !order_states::may_stand(v, st, kind, role) {
        return refused(st, Refusal::Misplaced);
    }
    if n != form_layouts::field_count(v, kind) {
        return refused(st, Refusal::FieldCount);
    }
    let c = Context {
        rules: v,
        file: order_states::type_at(st),
    };
    filled(
        v,
        st,
        kind,
        role,
        line_rows::columns::fill(c, kind, s, base, from),
    )
}

// A data line of n fields: its place is its kind, and PROP itself is no field.
#[tactic(auto, using(crate::proofs::LineLaws::data_laws))]
fn data(
    v: Rules,
    st: State,
    s: &[u8],
    base: usize,
    marked: bool,
    n: usize,
    after: usize,
) -> JudgedLine
    requires { (section_in st ≤ 15) × (1 ≤ n) × (after ≤ length s.now) × (base + length s.now < 2 ^ 62) }
    ensures { result ≡ data_by v st s.now base marked n after }
{
    let kind = order_kinds::data_kind(v, st, marked);
    let role = order_kinds::role_of(v, kind);
    if role == Role::Prop {
        of_kind(v, st, kind, role, s, base, n - 1, after)
    } else {
        of_kind(v, st, kind, role, s, base, n, 0)
    }
}

// A line that starts at `base` in the file.
#[tactic(auto, using(crate::proofs::LineLaws::judged_laws))]
fn line(v: Rules, st: State, s: &[u8], base: usize) -> JudgedLine
    requires { (section_in st ≤ 15) × (base + length s.now < 2 ^ 62) }
    ensures { result ≡ judged v st base s.now }
{
    match line_rows::looks::line_kind(s) {
        Ok(LineKind::Free) => free(st),
        Ok(LineKind::Key(w, n, after)) => {
            let kind = order_kinds::key_kind(v, w);
            let role = order_kinds::role_of(v, kind);
            of_kind(v, st, kind, role, s, base, n - 1, after)
        }
        Ok(LineKind::Data(marked, n, after)) => data(v, st, s, base, marked, n, after),
        Err(e) => refused(st, e),
    }
}

// The line of `len` bytes at the front of a part of a file; the part starts at `base`.
pub fn judge_line(v: Rules, st: State, part: &[u8], base: usize, len: usize) -> JudgedLine
    requires { (section_in st ≤ 15) × (len ≤ length part.now) × (base + length part.now < 2 ^ 62) }
    ensures { result ≡ judged v st base (take len part.now) }
{
    line(v, st, &part[..len], base)
}
