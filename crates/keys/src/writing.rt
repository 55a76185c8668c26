// Writing the key of a valid text under collation 3, by the published steps, character by character.
ghost use Rattle.std.specs.Prelude.{◌≡◌, true, ◌≤◌, length};
ghost use Rattle.terms.specs.Lists.{there};
ghost use Rattle.terms.specs.Refusals.{text_most};
ghost use Rattle.utf8.specs.Utf8.{characters};
ghost use Rattle.table.specs.Table.{table, mapping_of};
ghost use Rattle.pages.specs.Pages.{pages};
ghost use Rattle.decompose.specs.TableCheck.{Usable};
ghost use Rattle.keys.specs.Walks.{RoomTo, Walked, WalkedTo};

use terms::{KeyPosition, TextPosition};

// How far a text is written.
#[derive(Clone, Copy)]
pub struct Progress {
    // The octets of the text that were read, all characters whole.
    pub at: TextPosition,
    // The octets of the key that were written.
    pub end: KeyPosition,
    // The lookups so far.
    pub lookups: u64,
}

// Writes the key of a valid text's characters that begin before `stop`, where the buffer has room for them.
//
// All keys under collation 3 are written below here. Each slice is cut once at the top, whole: so the calls below take it as two
// numbers, where one that is handed on as it was lent is copied in memory.
pub fn write_characters(
    text: &[u8],
    stop: TextPosition,
    entries: &[u32],
    pool: &[u32],
    presence: &[u64],
    ranks: &[u64],
    key: &mut [u8],
) -> Progress
    requires text_len_bound { length text.now ≤ text_most }
    requires usable { Usable (table entries.now pool.now) (pages presence.now ranks.now) }
    requires text_value { there (characters text.now) ≡ true }
    requires stop_in_bounds { stop.0 ≤ length text.now }
    requires room_to { RoomTo (mapping_of (table entries.now pool.now)) text.now stop.0 (length key.old) }
    ensures { WalkedTo (mapping_of (table entries.now pool.now)) text.now stop.0
        key.old result key.new }
{
    let text_part = &text[0..];
    let entries_part = &entries[0..];
    let pool_part = &pool[0..];
    let presence_part = &presence[0..];
    let ranks_part = &ranks[0..];
    let key_part = &mut key[0..];
    walk(
        text_part,
        stop,
        entries_part,
        pool_part,
        presence_part,
        ranks_part,
        key_part,
    )
}

// The same, character by character.
fn walk(
    text: &[u8],
    stop: TextPosition,
    entries: &[u32],
    pool: &[u32],
    presence: &[u64],
    ranks: &[u64],
    key: &mut [u8],
) -> Progress
    requires text_len_bound { length text.now ≤ text_most }
    requires usable { Usable (table entries.now pool.now) (pages presence.now ranks.now) }
    requires text_value { there (characters text.now) ≡ true }
    requires stop_in_bounds { stop.0 ≤ length text.now }
    requires room_to { RoomTo (mapping_of (table entries.now pool.now)) text.now stop.0 (length key.old) }
    ensures { WalkedTo (mapping_of (table entries.now pool.now)) text.now stop.0
        key.old result key.new }
{
    let mut at = TextPosition(0);
    let mut end = KeyPosition(0);
    let mut lookups: u64 = 0;
    // No `for`: a step is as wide as the character that was read there.
    while at.0 < stop.0 {
        let character = utf8::read_valid(text, at);
        let free = end.0;
        let written = decompose::write_expansion(
            character.code,
            entries,
            pool,
            presence,
            ranks,
            &mut key[free..],
        );
        at.0 += character.width;
        end.0 += written.octets;
        lookups += written.asks;
    }
    Progress { at, end, lookups }
}

// Writes the key of a valid text as far as the buffer has room for any character.
pub fn write_while_roomy(
    text: &[u8],
    entries: &[u32],
    pool: &[u32],
    presence: &[u64],
    ranks: &[u64],
    key: &mut [u8],
) -> Progress
    requires text_len_bound { length text.now ≤ text_most }
    requires usable { Usable (table entries.now pool.now) (pages presence.now ranks.now) }
    requires text_value { there (characters text.now) ≡ true }
    ensures { Walked (mapping_of (table entries.now pool.now)) text.now
        key.old result key.new }
{
    let mut at = TextPosition(0);
    let mut end = KeyPosition(0);
    let mut lookups: u64 = 0;
    // No `for`: a step is as long as what there was room for.
    while at.0 < text.len() {
        let from = at.0;
        let free = end.0;
        // An octet begins at most one character, which comes to so many octets at most.
        let most = (key.len() - free) / terms::EXPANSION_MOST;
        if most == 0 {
            return Progress { at, end, lookups };
        }
        let stop = most.min(text.len() - from);
        let written = write_characters(
            &text[from..],
            TextPosition(stop),
            entries,
            pool,
            presence,
            ranks,
            &mut key[free..],
        );
        at.0 += written.at.0;
        end.0 += written.end.0;
        lookups += written.lookups;
    }
    Progress { at, end, lookups }
}
