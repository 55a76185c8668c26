// The size of a text's key under collation 3, by the published steps, character by character; and what an invalid text comes to.
ghost use Rattle.std.specs.Prelude.{◌≡◌, true, [], ◌∷◌, ◌≤◌, length};
ghost use Rattle.terms.specs.Lists.{there};
ghost use Rattle.terms.specs.Refusals.{text_most};
ghost use Rattle.utf8.specs.Utf8.{characters};
ghost use Rattle.table.specs.Table.{table, mapping_of};
ghost use Rattle.pages.specs.Pages.{pages};
ghost use Rattle.decompose.specs.TableCheck.{Usable};
ghost use Rattle.keys.specs.Keys.{unicode_prepared};
ghost use Rattle.keys.specs.Summaries.{summary_numbers, prepared_numbers};

use super::{KeyPlace, Summary};
use terms::{KeyPosition, TextPosition};

// What preparing a valid text under collation 3 comes to.
pub fn size_unicode(
    text: &[u8],
    entries: &[u32],
    pool: &[u32],
    presence: &[u64],
    ranks: &[u64],
) -> Summary
    requires text_len_bound { length text.now ≤ text_most }
    requires usable { Usable (table entries.now pool.now) (pages presence.now ranks.now) }
    requires text_value { there (characters text.now) ≡ true }
    ensures { summary_numbers result ≡ prepared_numbers (unicode_prepared
        (mapping_of (table entries.now pool.now)) text.now
        (characters text.now)) }
{
    let mut at = TextPosition(0);
    let mut end = KeyPosition(0);
    let mut lookups: u64 = 0;
    // No `for`: a step is as wide as the character that was read there.
    while at.0 < text.len() {
        let character = utf8::read_valid(text, at);
        let sized = decompose::size_expansion(character.code, entries, pool, presence, ranks);
        at.0 += character.width;
        end.0 += sized.octets;
        lookups += sized.asks;
    }
    Summary {
        key_length: end.0,
        lookups,
        valid: true,
        place: KeyPlace::Buffer,
    }
}

// What preparing an invalid text of so many octets comes to: it is its own key.
pub fn kept(text_length: usize) -> Summary
    ensures { summary_numbers result ≡ 0 ∷ 0 ∷ text_length ∷ 0 ∷ [] }
{
    Summary {
        key_length: text_length,
        lookups: 0,
        valid: false,
        place: KeyPlace::Text,
    }
}
