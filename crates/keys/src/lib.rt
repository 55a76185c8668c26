// Keys of the collations (document 01, "The collations", "Preparation"): the size and the octets of one text's key.
//
// The functions work on an accepted table, a text within the limit and enough room, and say so; `shown_part` takes anything.

#![tactic(auto)]

mod ascii;
mod long;
mod unicode;
mod writing;

ghost use Rattle.std.specs.Prelude.{◌≡◌, [], ◌∷◌, ◌≤◌, length};
ghost use Rattle.terms.specs.Refusals.{text_most};
ghost use Rattle.utf8.specs.Utf8.{characters};
ghost use Rattle.table.specs.Table.{table, mapping_of};
ghost use Rattle.pages.specs.Pages.{pages};
ghost use Rattle.decompose.specs.TableCheck.{Usable};
ghost use Rattle.keys.specs.Keys.{unicode_prepared, prepared, UsableUnder, room_for};
ghost use Rattle.keys.specs.Summaries.{summary_numbers, prepared_numbers, place_number, shown_at, roomy, KeyFilled};
ghost use Rattle.keys.specs.Summaries.{TrialFilled};

use crate::writing::Progress;
use terms::{Collation, TextPosition};

// From so many octets on it pays to ask the table for all of ASCII first.
pub const LONG_TEXT: usize = 512;

// Where a key stands: it is the text itself, or stands at the start of the key buffer.
#[derive(Clone, Copy)]
pub enum KeyPlace {
    Text,
    Buffer,
}

// What preparing a text came to. The two numbers stand apart: as neighbours they are added up both at once in the walk that sizes a
// key, 16 octets loaded where two times 8 were stored, and it waits at each character.
#[derive(Clone, Copy)]
pub struct Summary {
    // The length of the key, in octets.
    pub key_length: usize,
    // Whether the text is valid (always so under collations 1 and 2).
    pub valid: bool,
    // Where the key stands.
    pub place: KeyPlace,
    // The lookup count.
    pub lookups: u64,
}

// What preparing a text comes to, with nothing written.
pub fn size_key(
    collation: Collation,
    text: &[u8],
    entries: &[u32],
    pool: &[u32],
    presence: &[u64],
    ranks: &[u64],
) -> Summary
    requires text_len_bound { length text.now ≤ text_most }
    requires usable_under { UsableUnder collation (table entries.now pool.now) (pages presence.now ranks.now) }
    ensures { summary_numbers result ≡ prepared_numbers
        (prepared collation (mapping_of (table entries.now pool.now)) text.now) }
{
    match collation {
        Collation::Octet => plain(text.len(), KeyPlace::Text),
        Collation::AsciiCasemap => plain(text.len(), KeyPlace::Buffer),
        Collation::UnicodeCasemap => {
            // An invalid text is its own key.
            if utf8::is_valid(text) {
                return unicode::size_unicode(text, entries, pool, presence, ranks);
            }
            unicode::kept(text.len())
        }
    }
}

// What preparing a text of so many octets comes to where no table is read.
fn plain(text_length: usize, place: KeyPlace) -> Summary
    ensures { summary_numbers result ≡ 1 ∷ 0 ∷ text_length ∷ place_number place ∷ [] }
{
    Summary {
        key_length: text_length,
        lookups: 0,
        valid: true,
        place,
    }
}

// Prepares a text in one walk, its key not being sized first: the buffer has room for it.
pub fn fill_key(
    collation: Collation,
    text: &[u8],
    entries: &[u32],
    pool: &[u32],
    presence: &[u64],
    ranks: &[u64],
    key: &mut [u8],
) -> Summary
    requires text_len_bound { length text.now ≤ text_most }
    requires usable_under { UsableUnder collation (table entries.now pool.now) (pages presence.now ranks.now) }
    requires text_in_bounds { room_for (prepared collation (mapping_of (table entries.now pool.now)) text.now) ≤ length key.old }
    ensures { KeyFilled (prepared collation (mapping_of (table entries.now pool.now))
        text.now) key.old result key.new }
{
    match collation {
        Collation::Octet => plain(text.len(), KeyPlace::Text),
        Collation::AsciiCasemap => {
            ascii::write_ascii(text, key);
            plain(text.len(), KeyPlace::Buffer)
        }
        Collation::UnicodeCasemap => fill_unicode(text, entries, pool, presence, ranks, key),
    }
}

// Whether a key buffer has room for any key of a text of so many octets, so that no key needs to be sized.
pub fn is_roomy(collation: Collation, text_length: usize, room: usize) -> bool
    ensures { result ≡ roomy collation text_length room }
{
    terms::reads_table(collation) && text_length <= room / terms::EXPANSION_MOST
}

// As `fill_unicode`, and quicker on a short text: short enough to be inlined, with no row. It may be given any text.
pub fn fill_short(
    text: &[u8],
    entries: &[u32],
    pool: &[u32],
    presence: &[u64],
    ranks: &[u64],
    key: &mut [u8],
) -> Summary
    requires text_len_bound { length text.now ≤ text_most }
    requires usable { Usable (table entries.now pool.now) (pages presence.now ranks.now) }
    requires text_in_bounds { room_for
        (unicode_prepared (mapping_of (table entries.now pool.now)) text.now (characters text.now)) ≤ length
        key.old }
    ensures { KeyFilled (unicode_prepared (mapping_of (table entries.now pool.now))
        text.now (characters text.now)) key.old result key.new }
{
    // An invalid text leaves the buffer, so the text is read to its end before the first octet is written.
    if utf8::is_valid(text) {
        let end = TextPosition(text.len());
        let written = writing::write_characters(text, end, entries, pool, presence, ranks, key);
        return buffered(written);
    }
    unicode::kept(text.len())
}

// What preparing a valid text under collation 3 came to, once its key is written to the end.
fn buffered(written: Progress) -> Summary
    ensures { summary_numbers result ≡ 1 ∷ written.lookups ∷ written.end.0 ∷ 1 ∷ [] }
{
    Summary {
        key_length: written.end.0,
        lookups: written.lookups,
        valid: true,
        place: KeyPlace::Buffer,
    }
}

// Prepares a text under collation 3 into any buffer, in one walk, as long as that has room for any character. No summary if the
// buffer might have been too short: what it then holds is no key.
pub fn try_filling(
    text: &[u8],
    entries: &[u32],
    pool: &[u32],
    presence: &[u64],
    ranks: &[u64],
    key: &mut [u8],
) -> Option<Summary>
    requires text_len_bound { length text.now ≤ text_most }
    requires usable { Usable (table entries.now pool.now) (pages presence.now ranks.now) }
    ensures { TrialFilled (unicode_prepared (mapping_of (table entries.now pool.now))
        text.now (characters text.now)) key.old result key.new }
{
    if utf8::is_valid(text) {
        let written = writing::write_while_roomy(text, entries, pool, presence, ranks, key);
        if written.at.0 < text.len() {
            return None;
        }
        return Some(buffered(written));
    }
    Some(unicode::kept(text.len()))
}

// Prepares a text under collation 3 in one walk, its key not being sized first: the buffer has room for it.
pub fn fill_unicode(
    text: &[u8],
    entries: &[u32],
    pool: &[u32],
    presence: &[u64],
    ranks: &[u64],
    key: &mut [u8],
) -> Summary
    requires text_len_bound { length text.now ≤ text_most }
    requires usable { Usable (table entries.now pool.now) (pages presence.now ranks.now) }
    requires text_in_bounds { room_for
        (unicode_prepared (mapping_of (table entries.now pool.now)) text.now (characters text.now)) ≤ length
        key.old }
    ensures { KeyFilled (unicode_prepared (mapping_of (table entries.now pool.now))
        text.now (characters text.now)) key.old result key.new }
{
    if text.len() < LONG_TEXT {
        return fill_short(text, entries, pool, presence, ranks, key);
    }
    if utf8::is_valid(text) {
        let row = decompose::plain_row(entries, pool, presence, ranks);
        let written = long::write_by_row(&row, text, entries, pool, presence, ranks, key);
        return buffered(written);
    }
    unicode::kept(text.len())
}

// The key that a prepared text's summary shows.
pub fn shown_part<'a>(text: &'a [u8], key: &'a [u8], summary: Summary) -> &'a [u8]
    ensures { result.now ≡ shown_at summary.place summary.key_length text.now key.now }
{
    let shown = match summary.place {
        KeyPlace::Text => text,
        KeyPlace::Buffer => key,
    };
    if summary.key_length <= shown.len() {
        &shown[..summary.key_length]
    } else {
        &text[..0]
    }
}
