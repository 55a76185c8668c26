// Field 5 of a line: the parts of a decomposition, after an optional tag.
ghost use Rattle.std.specs.Prelude.{◌≡◌, ◌≤◌, length};
ghost use Rattle.terms.specs.Lists.{all};
ghost use Rattle.terms.specs.Refusals.{parts_most};
ghost use Rattle.ucd.specs.Fields.{cut, tag, letter, some_parts, decomposition};
ghost use Rattle.ucd.specs.Promises.{Listed};

use crate::{fields, numbers};

// Between the parts.
const SPACE: u8 = b' ';

// Writes the parts that field 5 gives to a slice, and answers how many there are. None: no list of 1 to PARTS_MOST code
// points with single spaces between.
pub fn read_parts(t: &[u8], parts: &mut [u32]) -> Option<usize>
    requires { parts_most ≤ length parts.old }
    ensures { Listed (decomposition t.now) result parts.new }
{
    if t.is_empty() {
        return Some(0);
    }
    let n = fields::piece_end(t, 0, SPACE);
    if !is_tag(&t[..n]) {
        return read_listed(t, parts);
    }
    if n == t.len() {
        return None;
    }
    read_listed(&t[n + 1..], parts)
}

// Writes the code points between spaces to a slice, and answers how many there are.
fn read_listed(t: &[u8], parts: &mut [u32]) -> Option<usize>
    requires { parts_most ≤ length parts.old }
    ensures { Listed (some_parts (cut 0x20 t.now)) result parts.new }
{
    let mut count = 0;
    for piece in t.split(|&o| o == SPACE) {
        if count == terms::PARTS_MOST {
            return None;
        }
        parts[count] = numbers::read_code_point(piece)?.0;
        count += 1;
    }
    Some(count)
}

// Whether octets are a tag: letters in angle brackets.
fn is_tag(t: &[u8]) -> bool
    ensures { result ≡ tag t.now }
{
    match t {
        [b'<', name @ .., b'>'] => !name.is_empty() && has_letters_only(name),
        _ => false,
    }
}

// Whether every octet is a letter.
fn has_letters_only(t: &[u8]) -> bool
    ensures { result ≡ all letter t.now }
{
    t.iter().all(|&o| is_letter(o))
}

// Whether an octet is a letter, A-Z or a-z.
fn is_letter(o: u8) -> bool
    ensures { result ≡ letter o }
{
    o.is_ascii_alphabetic()
}
