// Octet strings one after another in a slice, each by where it ends (document 02, request 3: "Keys stand in a lent store one
// after another"): whether numbers can be such ends, whether arrays have room for the numbers of keys, and putting one key.
//
// The checks take anything; `put_key` works on an accepted table with its pages, a text within the limit and enough room, and
// says so.

#![tactic(auto)]

mod ends;
mod rooms;

ghost use Rattle.std.specs.Prelude.{◌≡◌, ◌≤◌, length};
ghost use Rattle.terms.specs.Refusals.{text_most};
ghost use Rattle.table.specs.Table.{table, mapping_of};
ghost use Rattle.pages.specs.Pages.{pages};
ghost use Rattle.keys.specs.Keys.{prepared, key_of, UsableUnder};
ghost use Rattle.storing.specs.Stored.{KeyPut};

pub use ends::check_ends;
use keys::{KeyPlace, Summary};
pub use rooms::check_arrays;
use terms::Collation;

// Puts the key of a text at the start of a slice that has room for it, and answers what preparing the text came to.
pub fn put_key(
    collation: Collation,
    text: &[u8],
    entries: &[u32],
    pool: &[u32],
    presence: &[u64],
    ranks: &[u64],
    out: &mut [u8],
) -> Summary
    requires text_len_bound { length text.now ≤ text_most }
    requires usable_under { UsableUnder collation (table entries.now pool.now) (pages presence.now ranks.now) }
    requires text_in_bounds { length (key_of collation (mapping_of (table entries.now pool.now)) text.now) ≤ length out.old }
    ensures { KeyPut (prepared collation (mapping_of (table entries.now pool.now))
        text.now) out.old result out.new }
{
    let summary = keys::fill_key(collation, text, entries, pool, presence, ranks, out);
    // A key that is the text itself is copied.
    if let KeyPlace::Text = summary.place {
        octets::put_octets(text, out);
    }
    summary
}
