// What the octets of ASCII become where that is one octet of ASCII, for two lookups: the published steps on most letters of a text,
// in a row that is made once of an accepted table and its pages.
ghost use Rattle.std.specs.Prelude.{◌<◌};
ghost use Rattle.table.specs.Table.{table, mapping_of};
ghost use Rattle.pages.specs.Pages.{pages};
ghost use Rattle.decompose.specs.TableCheck.{Usable};
ghost use Rattle.decompose.specs.Plain.{Plain, PlainRow};

use terms::CodePoint;

// The first code point after those of ASCII.
const ASCII_END: u32 = 0x80;

// What the row has for every other octet: none of ASCII, so that one test of what was read tells.
const NOT_PLAIN: u8 = 0x80;

// What each octet of ASCII becomes that becomes one octet of ASCII; 80 hex for every other octet.
pub fn plain_row(entries: &[u32], pool: &[u32], presence: &[u64], ranks: &[u64]) -> [u8; 256]
    requires { Usable (table entries.now pool.now) (pages presence.now ranks.now) }
    ensures { PlainRow (mapping_of (table entries.now pool.now)) result }
{
    let mut row = [NOT_PLAIN; 256];
    for c in 0..ASCII_END {
        row[c as usize] = plain_octet(CodePoint(c), entries, pool, presence, ranks);
    }
    row
}

// The octet that a code point of ASCII becomes, if it becomes one of ASCII.
fn plain_octet(c: CodePoint, entries: &[u32], pool: &[u32], presence: &[u64], ranks: &[u64]) -> u8
    requires usable { Usable (table entries.now pool.now) (pages presence.now ranks.now) }
    requires c_bound { c.0 < 0x80 }
    ensures { Plain (mapping_of (table entries.now pool.now)) c.0 result }
{
    let place = pages::find_entry(entries, pool, presence, ranks, c);
    let title = crate::title_of(c, place, entries);
    if ASCII_END <= title.0 {
        return NOT_PLAIN;
    }
    // No code point of ASCII is a syllable: it decomposes only if the entries say parts.
    let parts = crate::title_parts(c, place, entries, pool, presence, ranks);
    if parts.len() != 0 {
        return NOT_PLAIN;
    }
    title.0 as u8
}
