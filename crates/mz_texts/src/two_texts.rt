// The calls on two texts. Each leaves both keys, each in its own buffer.
ghost use Rattle.std.specs.Prelude.{[], ◌∷◌};
ghost use Rattle.terms.specs.Collations.{collation_of};
ghost use Rattle.table.specs.Table.{table};
ghost use Rattle.pages.specs.Pages.{pages};
ghost use Rattle.prepare.specs.Calls.{two_call, UsableBy};
ghost use Rattle.compare.specs.Compare.{equality_values, order_values};
ghost use Rattle.search.specs.Substring.{sought_values};
ghost use Rattle.mz_texts.specs.Promises.{RowAnswered, RowPaging};

use crate::rows::{equality_row, order_row, substring_row};

// Whether two texts are equal under a collation.
pub fn mz_equal(
    collation: u32,
    first: &[u8],
    second: &[u8],
    entries: &[u32],
    pool: &[u32],
    presence: &mut [u64],
    ranks: &mut [u64],
    first_key: &mut [u8],
    second_key: &mut [u8],
    answer: &mut [u64; 4],
)
    ensures { RowPaging 1 equality_values (two_call (collation_of collation) first.now second.now
        entries.now pool.now presence.old ranks.old first_key.old
        second_key.old) answer.new (first_key.new ∷ second_key.new ∷ [])
        (pages presence.new ranks.new) }
{
    let equality = compare::equal(
        collation, first, second, entries, pool, presence, ranks, first_key, second_key,
    );
    *answer = equality_row(equality);
}

// How two texts are ordered under a collation.
pub fn mz_order(
    collation: u32,
    first: &[u8],
    second: &[u8],
    entries: &[u32],
    pool: &[u32],
    presence: &mut [u64],
    ranks: &mut [u64],
    first_key: &mut [u8],
    second_key: &mut [u8],
    answer: &mut [u64; 4],
)
    ensures { RowPaging 1 order_values (two_call (collation_of collation) first.now second.now
        entries.now pool.now presence.old ranks.old first_key.old
        second_key.old) answer.new (first_key.new ∷ second_key.new ∷ [])
        (pages presence.new ranks.new) }
{
    let ordered = compare::order(
        collation, first, second, entries, pool, presence, ranks, first_key, second_key,
    );
    *answer = order_row(ordered);
}

// Seeks the first text in the second under a collation.
pub fn mz_substring(
    collation: u32,
    first: &[u8],
    second: &[u8],
    entries: &[u32],
    pool: &[u32],
    presence: &mut [u64],
    ranks: &mut [u64],
    first_key: &mut [u8],
    second_key: &mut [u8],
    answer: &mut [u64; 8],
)
    ensures { RowPaging 5 sought_values (two_call (collation_of collation) first.now second.now
        entries.now pool.now presence.old ranks.old first_key.old
        second_key.old) answer.new (first_key.new ∷ second_key.new ∷ [])
        (pages presence.new ranks.new) }
{
    let sought = search::substring(
        collation, first, second, entries, pool, presence, ranks, first_key, second_key,
    );
    *answer = substring_row(sought);
}

// As `mz_equal`, over a table that is accepted already, with its pages.
pub fn mz_equal_accepted(
    collation: u32,
    first: &[u8],
    second: &[u8],
    entries: &[u32],
    pool: &[u32],
    presence: &[u64],
    ranks: &[u64],
    first_key: &mut [u8],
    second_key: &mut [u8],
    answer: &mut [u64; 4],
)
    requires { UsableBy (collation_of collation) (table entries.now pool.now) (pages presence.now ranks.now) }
    ensures { RowAnswered 1 equality_values (two_call (collation_of collation) first.now second.now
        entries.now pool.now presence.now ranks.now first_key.old
        second_key.old) answer.new (first_key.new ∷ second_key.new ∷ []) }
{
    let equality = compare::equal_accepted(
        collation, first, second, entries, pool, presence, ranks, first_key, second_key,
    );
    *answer = equality_row(equality);
}

// As `mz_order`, over a table that is accepted already, with its pages.
pub fn mz_order_accepted(
    collation: u32,
    first: &[u8],
    second: &[u8],
    entries: &[u32],
    pool: &[u32],
    presence: &[u64],
    ranks: &[u64],
    first_key: &mut [u8],
    second_key: &mut [u8],
    answer: &mut [u64; 4],
)
    requires { UsableBy (collation_of collation) (table entries.now pool.now) (pages presence.now ranks.now) }
    ensures { RowAnswered 1 order_values (two_call (collation_of collation) first.now second.now
        entries.now pool.now presence.now ranks.now first_key.old
        second_key.old) answer.new (first_key.new ∷ second_key.new ∷ []) }
{
    let ordered = compare::order_accepted(
        collation, first, second, entries, pool, presence, ranks, first_key, second_key,
    );
    *answer = order_row(ordered);
}

// As `mz_substring`, over a table that is accepted already, with its pages.
pub fn mz_substring_accepted(
    collation: u32,
    first: &[u8],
    second: &[u8],
    entries: &[u32],
    pool: &[u32],
    presence: &[u64],
    ranks: &[u64],
    first_key: &mut [u8],
    second_key: &mut [u8],
    answer: &mut [u64; 8],
)
    requires { UsableBy (collation_of collation) (table entries.now pool.now) (pages presence.now ranks.now) }
    ensures { RowAnswered 5 sought_values (two_call (collation_of collation) first.now second.now
        entries.now pool.now presence.now ranks.now first_key.old
        second_key.old) answer.new (first_key.new ∷ second_key.new ∷ []) }
{
    let sought = search::substring_accepted(
        collation, first, second, entries, pool, presence, ranks, first_key, second_key,
    );
    *answer = substring_row(sought);
}
