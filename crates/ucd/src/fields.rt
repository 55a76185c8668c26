// Cutting octets into pieces between separators: the fields of a line, and the parts of field 5.
ghost use Rattle.std.specs.Prelude.{◌≡◌, ◌+◌, ◌≤◌, ◌<◌, length, drop};
ghost use Rattle.ucd.specs.Fields.{fields, field};
ghost use Rattle.ucd.specs.Promises.{piece_end};

// Between the fields of a line.
pub const SEMICOLON: u8 = b';';

// Where the piece that starts at a place ends: at the next separator, or at the end. Not by `position`, nor by a slice for each
// piece: a line then takes a third longer to read.
pub fn piece_end(t: &[u8], start: usize, separator: u8) -> usize
    requires { start ≤ length t.now }
    ensures { result ≡ start + piece_end separator (drop start t.now) }
{
    for i in start..t.len() {
        if t[i] == separator {
            return i;
        }
    }
    t.len()
}

// How many fields a line has.
pub fn count_fields(line: &[u8]) -> usize
    ensures { result ≡ length (fields line.now) }
{
    // Not by `filter` and `count`, whose jump at each octet takes as long as all else that is read of a line.
    let mut n = 1;
    for &o in line {
        if o == SEMICOLON {
            n += 1;
        }
    }
    n
}

// A field of a line that has it.
pub fn find_field(line: &[u8], k: usize) -> &[u8]
    requires { k < length (fields line.now) }
    ensures { result.now ≡ field k line.now }
{
    let rest = from_field(line, k);
    &rest[..piece_end(rest, 0, SEMICOLON)]
}

// A line from a field on that it has: a line of the fields that are left.
pub fn from_field(line: &[u8], k: usize) -> &[u8]
    requires { k < length (fields line.now) }
    ensures { fields result.now ≡ drop k (fields line.now) }
{
    let mut start = 0;
    for _ in 0..k {
        start = piece_end(line, start, SEMICOLON) + 1;
    }
    &line[start..]
}
