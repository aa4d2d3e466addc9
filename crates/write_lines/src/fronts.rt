// What stands before a line's fields: a keyword in capitals, PROP, or nothing.
ghost use Rattle.std.specs.Prelude.{◌≡◌, ◌+◌, ◌≤◌, length};
ghost use Rattle.law.specs.Kinds.{section_of, role_of};
ghost use Rattle.number_print.specs.Printing.{Wrote};
ghost use Rattle.write_lines.specs.LineText.{mark_of, name_at, behind_of, front_text};

use law::{Role, Rules};

// The byte behind a field: a space where more fields follow.
pub(crate) fn behind(n: usize) -> u8
    ensures { result ≡ behind_of n }
{
    if n == 0 { 10 } else { 32 }
}

// How many bytes a keyword's period or PROP takes.
fn mark_len(role: Role) -> usize
    ensures { result ≡ length (mark_of role) }
{
    match role {
        Role::Opening | Role::Closing => 1,
        Role::Prop => 4,
        _ => 0,
    }
}

// A keyword's period, or PROP.
fn put_mark(out: &mut [u8], at: usize, role: Role) -> usize
    requires { at + length (mark_of role) ≤ length out.old }
    ensures { Wrote out.old out.new at result (mark_of role) }
{
    match role {
        Role::Opening | Role::Closing => write_texts::put_bytes(out, at, b"."),
        Role::Prop => write_texts::put_bytes(out, at, b"PROP"),
        _ => at,
    }
}

// What a keyword has behind its period, as a padded row.
#[tactic(auto, unfolding(form_words::specs::Padded::no_keyword))]
fn name_at(role: Role, s: u64) -> [u8; 20]
    ensures { result ≡ name_at role s }
{
    match role {
        Role::Opening => form_words::name_row(s),
        Role::Closing => form_words::closing_row(s),
        _ => *b"                    ",
    }
}

// How many bytes stand before n fields.
#[tactic(auto, using(crate::proofs::PieceLaws::front_len_laws))]
pub(crate) fn front_len(v: Rules, kind: u64, n: usize) -> usize
    ensures { result ≡ length (front_text (role_of v kind) (section_of v kind) n) }
{
    let role = order_kinds::role_of(v, kind);
    let m = mark_len(role);
    if m == 0 {
        return 0;
    }
    let name = name_at(role, form_layouts::section_of(v, kind));
    m + write_texts::padded_len(&name) + 1
}

// What stands before n fields.
pub(crate) fn put_front(out: &mut [u8], at: usize, v: Rules, kind: u64, n: usize) -> usize
    requires { at + length (front_text (role_of v kind) (section_of v kind) n) ≤ length out.old }
    ensures { Wrote out.old out.new at result (front_text (role_of v kind) (section_of v kind) n) }
{
    let role = order_kinds::role_of(v, kind);
    if mark_len(role) == 0 {
        return at;
    }
    let name = name_at(role, form_layouts::section_of(v, kind));
    let a = put_mark(out, at, role);
    let b = write_texts::put_padded(out, a, &name);
    number_print::put_byte(out, b, behind(n))
}
