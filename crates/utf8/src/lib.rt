// UTF-8 (RFC 3629): characters out of octets, and code points into octets. Judging a text asks nothing of the caller, reading
// that a character stands there, writing a code point of at most 10FFFF hex and room.

#![tactic(auto)]

mod judging;
mod sequences;

ghost use Rattle.std.specs.Prelude.{◌≡◌, true, ◌+◌, ◌%◌, ◌≤◌, length, drop};
ghost use Rattle.std.specs.Prelude.{Some};
ghost use Rattle.terms.specs.Lists.{over, there};
ghost use Rattle.utf8.specs.Utf8.{encode, decode, characters};
ghost use Rattle.utf8.specs.Promises.{character_of, Written};

use terms::{CodePoint, TextPosition};

// A character that was read: its code point, and how many octets it takes.
#[derive(Clone, Copy)]
pub struct DecodedCharacter {
    pub code: CodePoint,
    pub width: usize,
}

// The character at a position where one stands, as everywhere in a valid text: read without asking again whether it is one.
pub fn read_valid(text: &[u8], at: TextPosition) -> DecodedCharacter
    requires { there (decode (drop at.0 text.now)) ≡ true }
    ensures { Some (character_of result) ≡ decode (drop at.0 text.now) }
{
    let i = at.0;
    let first = text[i];
    let a = first as u32;
    let rest = &text[i + 1..];
    match sequences::sequence_length(first) {
        Some(1) => DecodedCharacter {
            code: CodePoint(a),
            width: 1,
        },
        Some(3) => DecodedCharacter {
            code: CodePoint(sequences::join(2, a - 0xE0, rest)),
            width: 3,
        },
        Some(4) => DecodedCharacter {
            code: CodePoint(sequences::join(3, a - 0xF0, rest)),
            width: 4,
        },
        // Two: of a character no other length is left. As the last arm it costs one comparison less.
        _ => DecodedCharacter {
            code: CodePoint(sequences::join(1, a - 0xC0, rest)),
            width: 2,
        },
    }
}

// Whether a text is UTF-8 from its start to its end.
pub fn is_valid(text: &[u8]) -> bool
    ensures { result ≡ there (characters text.now) }
{
    // Cut whole, the slice is handed on as two numbers.
    let part = &text[0..];
    judging::judge(part)
}

// How many octets a code point takes.
#[tactic(auto, unfolding(crate::specs::Utf8::encode))]
pub fn octet_count(c: CodePoint) -> usize
    ensures { result ≡ length (encode c.0) }
{
    match c.0 {
        ..=0x7F => 1,
        ..=0x7FF => 2,
        ..=0xFFFF => 3,
        _ => 4,
    }
}

// Writes a code point at the start of a slice, and answers how many octets it took.
#[tactic(auto, unfolding(crate::specs::Utf8::encode))]
pub fn write_character(c: CodePoint, out: &mut [u8]) -> usize
    requires c_bound { c.0 ≤ 0x10FFFF }
    requires c_in_bounds { length (encode c.0) ≤ length out.old }
    ensures { Written c.0 out.old result out.new }
{
    match c.0 {
        n @ ..=0x7F => put(out, &[n as u8]),
        n @ ..=0x7FF => put(out, &[(0xC0 + n / 64) as u8, trailing_octet(n)]),
        n @ ..=0xFFFF => put(
            out,
            &[
                (0xE0 + n / 4096) as u8,
                trailing_octet(n / 64),
                trailing_octet(n),
            ],
        ),
        n => {
            let first = (0xF0 + n / 262144) as u8;
            put(
                out,
                &[
                    first,
                    trailing_octet(n / 4096),
                    trailing_octet(n / 64),
                    trailing_octet(n),
                ],
            )
        }
    }
}

// Puts octets at the start of a slice, and answers how many they are.
fn put(out: &mut [u8], octets: &[u8]) -> usize
    requires { length octets.now ≤ length out.old }
    ensures count { result ≡ length octets.now }
    ensures octets { out.new ≡ over octets.now out.old }
{
    out[..octets.len()].copy_from_slice(octets);
    octets.len()
}

// The octet that continues a character with the low six bits of a number.
fn trailing_octet(bits: u32) -> u8
    ensures { result ≡ 0x80 + bits % 64 }
{
    (0x80 + bits % 64) as u8
}
