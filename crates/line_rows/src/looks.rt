// What a line is.
ghost use Rattle.std.specs.Prelude.{◌≡◌};
ghost use Rattle.text_fields.specs.FirstField.{field_of};
ghost use Rattle.line_rows.specs.LineKinds.{kind_of, bare_kind, first_by};

use crate::LineKind;
use law::refusals::Refusal;

// A line by its bare first field, of n fields; the place behind the first is `after`.
fn bare_kind(w: &[u8], n: usize, after: usize) -> LineKind
    ensures { result ≡ bare_kind w.now n after }
{
    if text::begins_with(w, 46) {
        LineKind::Key(form_words::read_keyword(w), n, after)
    } else {
        LineKind::Data(form_words::is_prop(w), n, after)
    }
}

// A line of n fields by its first.
fn first_kind(s: &[u8], n: usize) -> Result<LineKind, Refusal>
    ensures { result ≡ first_by (field_of s.now) s.now n }
{
    match text_fields::field(s) {
        Ok(None) => Ok(LineKind::Free),
        Err(_) => Err(Refusal::BrokenQuoting),
        Ok(Some(f)) => {
            if f.quoted {
                Ok(LineKind::Data(false, n, f.next))
            } else {
                Ok(bare_kind(&s[f.start..f.start + f.len], n, f.next))
            }
        }
    }
}

// What a line is, or its refusal: a forbidden byte, broken quoting.
pub fn line_kind(s: &[u8]) -> Result<LineKind, Refusal>
    ensures { result ≡ kind_of s.now }
{
    if text::begins_with(s, 35) {
        return Ok(LineKind::Free);
    }
    if !text::clean(s) {
        return Err(Refusal::ForbiddenByte);
    }
    match text_fields::count_fields(s) {
        Ok(n) => first_kind(s, n),
        Err(_) => Err(Refusal::BrokenQuoting),
    }
}
