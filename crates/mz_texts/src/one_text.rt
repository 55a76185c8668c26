// The calls on one text.
ghost use Rattle.std.specs.Prelude.{[], ◌∷◌};
ghost use Rattle.terms.specs.Collations.{collation_of};
ghost use Rattle.table.specs.Table.{table};
ghost use Rattle.pages.specs.Pages.{pages};
ghost use Rattle.prepare.specs.Calls.{one_call, UsableBy};
ghost use Rattle.prepare.specs.Preparing.{prepared_values};
ghost use Rattle.mz_texts.specs.Promises.{RowAnswered, RowPaging};

use crate::rows::preparation_row;

// Prepares a text under a collation: its key is left at the start of the key buffer, if it belongs there.
pub fn mz_prepare(
    collation: u32,
    text: &[u8],
    entries: &[u32],
    pool: &[u32],
    presence: &mut [u64],
    ranks: &mut [u64],
    key: &mut [u8],
    answer: &mut [u64; 7],
)
    ensures { RowPaging 4 prepared_values
        (one_call (collation_of collation) text.now entries.now pool.now
        presence.old ranks.old key.old) answer.new (key.new ∷ [])
        (pages presence.new ranks.new) }
{
    let preparation = prepare::prepare(collation, text, entries, pool, presence, ranks, key);
    *answer = preparation_row(preparation);
}

// As `mz_prepare`, over a table that is accepted already, with its pages.
pub fn mz_prepare_accepted(
    collation: u32,
    text: &[u8],
    entries: &[u32],
    pool: &[u32],
    presence: &[u64],
    ranks: &[u64],
    key: &mut [u8],
    answer: &mut [u64; 7],
)
    requires { UsableBy (collation_of collation) (table entries.now pool.now) (pages presence.now ranks.now) }
    ensures { RowAnswered 4 prepared_values
        (one_call (collation_of collation) text.now entries.now pool.now
        presence.now ranks.now key.old) answer.new (key.new ∷ []) }
{
    let preparation = prepare::prepare_accepted(
        collation, text, entries, pool, presence, ranks, key,
    );
    *answer = preparation_row(preparation);
}
