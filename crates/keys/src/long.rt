// Writing the key of a long text under collation 3. Most octets of most long texts are of ASCII and become one octet of ASCII: a row
// that is made once for a text has it for each, and the table is asked for all other characters.
ghost use Rattle.std.specs.Prelude.{◌≡◌, true, ◌≤◌, ◌<◌, length, get_or};
ghost use Rattle.terms.specs.Lists.{there};
ghost use Rattle.terms.specs.Refusals.{text_most};
ghost use Rattle.utf8.specs.Utf8.{characters};
ghost use Rattle.table.specs.Table.{table, mapping_of};
ghost use Rattle.pages.specs.Pages.{pages};
ghost use Rattle.decompose.specs.Plain.{PlainRow};
ghost use Rattle.decompose.specs.TableCheck.{Usable};
ghost use Rattle.keys.specs.Keys.{unicode_prepared, room_for};
ghost use Rattle.keys.specs.Walks.{WalkedTo, PlainWalked};

use crate::writing::{Progress, write_characters};
use terms::{KeyPosition, TextPosition};

// The lowest octet that is none of ASCII.
const ASCII_END: u8 = 0x80;

// Writes the key of a valid text, with the row of what octets become.
pub fn write_by_row(
    row: &[u8; 256],
    text: &[u8],
    entries: &[u32],
    pool: &[u32],
    presence: &[u64],
    ranks: &[u64],
    key: &mut [u8],
) -> Progress
    requires plain_row { PlainRow (mapping_of (table entries.now pool.now)) row.now }
    requires text_len_bound { length text.now ≤ text_most }
    requires usable { Usable (table entries.now pool.now) (pages presence.now ranks.now) }
    requires text_value { there (characters text.now) ≡ true }
    requires text_in_bounds { room_for
        (unicode_prepared (mapping_of (table entries.now pool.now)) text.now (characters text.now)) ≤ length
        key.old }
    ensures { WalkedTo (mapping_of (table entries.now pool.now)) text.now
        (length text.now) key.old result key.new }
{
    let mut at = TextPosition(0);
    let mut end = KeyPosition(0);
    let mut lookups: u64 = 0;
    // No `for`: a step is as long as the run that was written.
    while at.0 < text.len() {
        let from = at.0;
        let free = end.0;
        let written = write_run(
            row,
            &text[from..],
            entries,
            pool,
            presence,
            ranks,
            &mut key[free..],
        );
        at.0 += written.at.0;
        end.0 += written.end.0;
        lookups += written.lookups;
    }
    Progress { at, end, lookups }
}

// The same of some octets that a valid text begins with: of those that the row has, or of the characters before the next octet of
// ASCII.
fn write_run(
    row: &[u8; 256],
    text: &[u8],
    entries: &[u32],
    pool: &[u32],
    presence: &[u64],
    ranks: &[u64],
    key: &mut [u8],
) -> Progress
    requires plain_row { PlainRow (mapping_of (table entries.now pool.now)) row.now }
    requires text_len_bound { length text.now ≤ text_most }
    requires usable { Usable (table entries.now pool.now) (pages presence.now ranks.now) }
    requires text_value { there (characters text.now) ≡ true }
    requires text_in_bounds { room_for
        (unicode_prepared (mapping_of (table entries.now pool.now)) text.now (characters text.now)) ≤ length
        key.old }
    requires text_nonzero { 0 < length text.now }
    ensures { WalkedTo (mapping_of (table entries.now pool.now)) text.now 1
        key.old result key.new }
{
    let run = write_plain(row, text, key);
    if run != 0 {
        return Progress {
            at: TextPosition(run),
            end: KeyPosition(run),
            lookups: 2 * run as u64,
        };
    }
    let stop = TextPosition(past_others(text));
    write_characters(text, stop, entries, pool, presence, ranks, key)
}

// Writes what the row has for the octets that a text begins with, up to the first for which it has none, and answers how many.
fn write_plain(row: &[u8; 256], text: &[u8], key: &mut [u8]) -> usize
    ensures { PlainWalked row.now text.now key.old result key.new }
{
    let most = text.len().min(key.len());
    for i in 0..most {
        let octet = row_octet(row, text[i]);
        if ASCII_END <= octet {
            return i;
        }
        key[i] = octet;
    }
    most
}

// What the row has for an octet.
fn row_octet(row: &[u8; 256], octet: u8) -> u8
    ensures { (octet < 256) × (result ≡ get_or row.now octet 0) }
{
    row[octet as usize]
}

// A place after the first octet where one of ASCII stands, so that a character begins there, or the text's end. Any place would be
// right; with the first one, runs are long.
fn past_others(text: &[u8]) -> usize
    requires { 0 < length text.now }
    ensures { (1 ≤ result) × (result ≤ length text.now) }
{
    for i in 1..text.len() {
        if text[i] < ASCII_END {
            return i;
        }
    }
    text.len()
}
