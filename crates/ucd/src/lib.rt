// Lines of UnicodeData.txt (document 01, "Lines of UnicodeData.txt"; UAX #44 for the fields): the properties that a line
// gives its code point, or the first of the refusals 20 to 23, 29 and 24.
//
// The definitions stand in specs/. Any octets get an answer.

#![tactic(auto)]

mod cases;
mod fields;
mod numbers;
mod parts;

ghost use Rattle.std.specs.Prelude.{◌≡◌, ◌≤◌, length};
ghost use Rattle.terms.specs.Refusals.{parts_most};
ghost use Rattle.ucd.specs.Lines.{fault_number};
ghost use Rattle.ucd.specs.Promises.{Reads};
ghost use Rattle.terms.specs.Reasons.{reason_number};

use terms::{CodePoint, Reason};

// The properties that are single code points: the code point itself and its titlecase.
#[derive(Clone, Copy)]
pub struct SimpleProperties {
    pub code: CodePoint,
    pub title: CodePoint,
}

// Why a line is not read.
#[derive(Clone, Copy, PartialEq, Eq, Debug)]
pub enum LineFault {
    Length,
    FieldCount,
    Field0,
    Field5,
    Field12,
    Field14,
}

impl From<LineFault> for Reason {
    ghost from_gives = { λ fault reason. reason_number reason ≡ fault_number fault };

    fn from(fault: LineFault) -> Reason {
        match fault {
            LineFault::Length => Reason::LineLength,
            LineFault::FieldCount => Reason::FieldCount,
            LineFault::Field0 => Reason::Field0,
            LineFault::Field5 => Reason::Field5,
            LineFault::Field12 => Reason::Field12,
            LineFault::Field14 => Reason::Field14,
        }
    }
}

// Reads a line: the simple properties, and how many parts there are, which are written to the front of a slice.
pub fn read_line(line: &[u8], parts: &mut [u32]) -> Result<(SimpleProperties, usize), LineFault>
    requires { parts_most ≤ length parts.old }
    ensures { Reads line.now parts.new result }
{
    if terms::LINE_MOST < line.len() {
        return Err(LineFault::Length);
    }
    if fields::count_fields(line) != 15 {
        return Err(LineFault::FieldCount);
    }
    let code = numbers::read_code_point(fields::find_field(line, 0)).ok_or(LineFault::Field0)?;
    let count = parts::read_parts(fields::find_field(line, 5), parts).ok_or(LineFault::Field5)?;
    let title = cases::read_titlecase(code, line)?;
    Ok((SimpleProperties { code, title }, count))
}
