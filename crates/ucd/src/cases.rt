// Fields 12 and 14 of a line, the uppercase and the titlecase: which titlecase they give.
ghost use Rattle.std.specs.Prelude.{◌≡◌, length};
ghost use Rattle.ucd.specs.Fields.{fields, code_point_or};
ghost use Rattle.ucd.specs.Promises.{number_read, TitlecaseRead};

use crate::{LineFault, fields, numbers};
use terms::CodePoint;

// The titlecase that a line of 15 fields gives its code point, or which of fields 12 and 14 is the first that is neither empty
// nor a code point. Field 12 is read where 14 is filled too: it may be malformed.
pub fn read_titlecase(code: CodePoint, line: &[u8]) -> Result<CodePoint, LineFault>
    requires { length (fields line.now) ≡ 15 }
    ensures { TitlecaseRead code.0 line.now result }
{
    // Field 14 is sought from field 12 on, so that the fields before are not passed again.
    let from_12 = fields::from_field(line, 12);
    let uppercase = read_optional(code, fields::find_field(from_12, 0)).ok_or(LineFault::Field12)?;
    let titlecase = read_optional(uppercase, fields::find_field(from_12, 2)).ok_or(
        LineFault::Field14,
    )?;
    Ok(titlecase)
}

// The code point of a field that may be empty: `other` if it is.
#[tactic(auto, unfolding(crate::specs::Fields::code_point_or))]
fn read_optional(other: CodePoint, t: &[u8]) -> Option<CodePoint>
    ensures { number_read result ≡ code_point_or other.0 t.now }
{
    if t.is_empty() {
        Some(other)
    } else {
        numbers::read_code_point(t)
    }
}
