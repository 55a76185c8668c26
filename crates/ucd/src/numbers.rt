// Code points in hex digits (document 01, "Lines of UnicodeData.txt"): fields 0, 12 and 14, and the parts of field 5.
ghost use Rattle.std.specs.Prelude.{◌≡◌};
ghost use Rattle.ucd.specs.Fields.{digit, digits, bounded, well_sized, code_point};
ghost use Rattle.ucd.specs.Promises.{number_read};

use terms::CodePoint;

// The code point that octets write. None: another octet than a digit, too few or too many, a leading zero, or a value above
// 10FFFF hex.
#[tactic(auto, unfolding(crate::specs::Fields::code_point))]
pub fn read_code_point(t: &[u8]) -> Option<CodePoint>
    ensures { number_read result ≡ code_point t.now }
{
    if is_well_sized(t) {
        read_digits(t)
    } else {
        None
    }
}

// Whether there are 4 to 6 octets, with no leading zero past four.
fn is_well_sized(t: &[u8]) -> bool
    ensures { result ≡ well_sized t.now }
{
    match t.len() {
        4 => true,
        5 | 6 => t[0] != b'0',
        _ => false,
    }
}

// The value of digits, if it is at most 10FFFF hex.
fn read_digits(t: &[u8]) -> Option<CodePoint>
    ensures { number_read result ≡ bounded (digits 0 t.now) }
{
    let mut value = 0;
    for &octet in t {
        value = value * 16 + read_digit(octet)?;
        if 0x10FFFF < value {
            return None;
        }
    }
    Some(CodePoint(value))
}

// The value that an octet has as a hex digit, if it is one.
fn read_digit(octet: u8) -> Option<u32>
    ensures { result ≡ digit octet }
{
    match octet {
        b'0'..=b'9' => Some(u32::from(octet - b'0')),
        b'A'..=b'F' => Some(u32::from(octet - b'A') + 10),
        _ => None,
    }
}
