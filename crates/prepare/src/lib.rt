// Calls that prepare texts (document 01, "Preparation", "Refusal numbers"): their checks, and the keys left in the key buffers.
//
// `prepare` and `shown_key` take any arguments at all: `prepare` is its check, which fills the pages, and then what is left of the
// call; `prepare_accepted` asks for a table that is accepted already and its pages. The functions of the module filling work
// where 1 to 7 and 15 were passed, and say so: comparing calls stand on `check_call`, `check_texts` and `fill_two`.

#![tactic(auto)]

mod checks;
mod filling;

ghost use Rattle.std.specs.Prelude.{◌≡◌};
ghost use Rattle.terms.specs.Collations.{collation_of};
ghost use Rattle.table.specs.Table.{table};
ghost use Rattle.pages.specs.Pages.{pages};
ghost use Rattle.prepare.specs.Calls.{one_call, UsableBy};
ghost use Rattle.prepare.specs.Preparing.{shown_key, Prepares, PreparesPaging};

pub use checks::{check_call, check_texts};
pub use filling::fill_two;
use filling::{fill_one, fill_one_apart};
use keys::Summary;
use terms::Refusal;

// Prepares a text under a collation: its key is left at the start of the key buffer, if it belongs there.
pub fn prepare(
    collation: u32,
    text: &[u8],
    entries: &[u32],
    pool: &[u32],
    presence: &mut [u64],
    ranks: &mut [u64],
    key: &mut [u8],
) -> Result<Summary, Refusal>
    ensures { PreparesPaging (one_call (collation_of collation) text.now entries.now
        pool.now presence.old ranks.old key.old) result key.new
        (pages presence.new ranks.new) }
{
    let known = check_call(collation, text.len(), 0, entries, pool, presence, ranks)?;
    // Beside the check the quick way saves nothing.
    fill_one_apart(known, text, entries, pool, presence, ranks, key)
}

// As `prepare`, over a table that is accepted already, with its pages.
pub fn prepare_accepted(
    collation: u32,
    text: &[u8],
    entries: &[u32],
    pool: &[u32],
    presence: &[u64],
    ranks: &[u64],
    key: &mut [u8],
) -> Result<Summary, Refusal>
    requires { UsableBy (collation_of collation) (table entries.now pool.now) (pages presence.now ranks.now) }
    ensures { Prepares (one_call (collation_of collation) text.now entries.now pool.now
        presence.now ranks.now key.old) result key.new }
{
    let known = check_texts(collation, text.len(), 0)?;
    fill_one(known, text, entries, pool, presence, ranks, key)
}

// The key of a text after it was prepared, as a part of the text or of the key buffer; empty on a refusal. Of a preparation
// of other slices: so many octets of these, and none where there are fewer.
pub fn shown_key<'a>(
    text: &'a [u8],
    key: &'a [u8],
    preparation: Result<Summary, Refusal>,
) -> &'a [u8]
    ensures { result.now ≡ shown_key preparation text.now key.now }
{
    match preparation {
        Ok(summary) => keys::shown_part(text, key, summary),
        Err(_) => &text[..0],
    }
}
