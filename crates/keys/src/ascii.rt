// The key of a text under collation 2.
ghost use Rattle.std.specs.Prelude.{◌≡◌, map, ◌≤◌, length};
ghost use Rattle.terms.specs.Lists.{over};
ghost use Rattle.keys.specs.Keys.{upper};

use terms::{KeyPosition, TextPosition};

// Writes the key of a text under collation 2. Two places, each of its own kind, advance together: so not a `for`.
pub fn write_ascii(text: &[u8], key: &mut [u8])
    requires { length text.now ≤ length key.old }
    ensures { key.new ≡ over (map upper text.now) key.old }
{
    let mut at = TextPosition(0);
    let mut end = KeyPosition(0);
    while at.0 < text.len() {
        let i = at.0;
        let j = end.0;
        key[j] = raised(text[i]);
        at.0 += 1;
        end.0 += 1;
    }
}

// An octet a to z raised to A to Z.
fn raised(octet: u8) -> u8
    ensures { result ≡ upper octet }
{
    match octet {
        b'a'..=b'z' => octet - 0x20,
        _ => octet,
    }
}
