// The calls on two texts. Each leaves both keys, each in its own buffer.
ghost use Rattle.std.specs.Prelude.{[], ◌∷◌};
ghost use Rattle.terms.specs.Collations.{collation_of};
ghost use Rattle.table.specs.Table.{table};
ghost use Rattle.pages.specs.Pages.{pages};
ghost use Rattle.prepare.specs.Calls.{two_call, UsableBy};
ghost use Rattle.compare.specs.Compare.{equality_values, order_values};
ghost use Rattle.search.specs.Substring.{sought_values};
ghost use Rattle.mz_texts.specs.Promises.{RowAnswered, RowPaging};

// Whether two texts are equal under a collation.
#[unsafe(no_mangle)]
pub extern "C" fn mz_equal(
    collation: u32,
    first: &[u8],
    second: &[u8],
    entries: &[u32],
    pool: &[u32],
    presence: &mut [u64],
    ranks: &mut [u64],
    first_key: &mut [u8],
    second_key: &mut [u8],
    answer: &mut [u64; 4],
)
    ensures { RowPaging 1 equality_values (two_call (collation_of collation) first.now second.now
        entries.now pool.now presence.old ranks.old first_key.old
        second_key.old) answer.new (first_key.new ∷ second_key.new ∷ [])
        (pages presence.new ranks.new) }
{
    mz_texts::two_texts::mz_equal(
        collation, first, second, entries, pool, presence, ranks, first_key, second_key, answer,
    );
}

// How two texts are ordered under a collation.
#[unsafe(no_mangle)]
pub extern "C" fn mz_order(
    collation: u32,
    first: &[u8],
    second: &[u8],
    entries: &[u32],
    pool: &[u32],
    presence: &mut [u64],
    ranks: &mut [u64],
    first_key: &mut [u8],
    second_key: &mut [u8],
    answer: &mut [u64; 4],
)
    ensures { RowPaging 1 order_values (two_call (collation_of collation) first.now second.now
        entries.now pool.now presence.old ranks.old first_key.old
        second_key.old) answer.new (first_key.new ∷ second_key.new ∷ [])
        (pages presence.new ranks.new) }
{
    mz_texts::two_texts::mz_order(
        collation, first, second, entries, pool, presence, ranks, first_key, second_key, answer,
    );
}

// Seeks the first text in the second under a collation.
#[unsafe(no_mangle)]
pub extern "C" fn mz_substring(
    collation: u32,
    first: &[u8],
    second: &[u8],
    entries: &[u32],
    pool: &[u32],
    presence: &mut [u64],
    ranks: &mut [u64],
    first_key: &mut [u8],
    second_key: &mut [u8],
    answer: &mut [u64; 8],
)
    ensures { RowPaging 5 sought_values (two_call (collation_of collation) first.now second.now
        entries.now pool.now presence.old ranks.old first_key.old
        second_key.old) answer.new (first_key.new ∷ second_key.new ∷ [])
        (pages presence.new ranks.new) }
{
    mz_texts::two_texts::mz_substring(
        collation, first, second, entries, pool, presence, ranks, first_key, second_key, answer,
    );
}

// As `mz_equal`, over a table that is accepted already, with its pages.
#[unsafe(no_mangle)]
pub extern "C" fn mz_equal_accepted(
    collation: u32,
    first: &[u8],
    second: &[u8],
    entries: &[u32],
    pool: &[u32],
    presence: &[u64],
    ranks: &[u64],
    first_key: &mut [u8],
    second_key: &mut [u8],
    answer: &mut [u64; 4],
)
    requires { UsableBy (collation_of collation) (table entries.now pool.now) (pages presence.now ranks.now) }
    ensures { RowAnswered 1 equality_values (two_call (collation_of collation) first.now second.now
        entries.now pool.now presence.now ranks.now first_key.old
        second_key.old) answer.new (first_key.new ∷ second_key.new ∷ []) }
{
    mz_texts::two_texts::mz_equal_accepted(
        collation, first, second, entries, pool, presence, ranks, first_key, second_key, answer,
    );
}

// As `mz_order`, over a table that is accepted already, with its pages.
#[unsafe(no_mangle)]
pub extern "C" fn mz_order_accepted(
    collation: u32,
    first: &[u8],
    second: &[u8],
    entries: &[u32],
    pool: &[u32],
    presence: &[u64],
    ranks: &[u64],
    first_key: &mut [u8],
    second_key: &mut [u8],
    answer: &mut [u64; 4],
)
    requires { UsableBy (collation_of collation) (table entries.now pool.now) (pages presence.now ranks.now) }
    ensures { RowAnswered 1 order_values (two_call (collation_of collation) first.now second.now
        entries.now pool.now presence.now ranks.now first_key.old
        second_key.old) answer.new (first_key.new ∷ second_key.new ∷ []) }
{
    mz_texts::two_texts::mz_order_accepted(
        collation, first, second, entries, pool, presence, ranks, first_key, second_key, answer,
    );
}

// As `mz_substring`, over a table that is accepted already, with its pages.
#[unsafe(no_mangle)]
pub extern "C" fn mz_substring_accepted(
    collation: u32,
    first: &[u8],
    second: &[u8],
    entries: &[u32],
    pool: &[u32],
    presence: &[u64],
    ranks: &[u64],
    first_key: &mut [u8],
    second_key: &mut [u8],
    answer: &mut [u64; 8],
)
    requires { UsableBy (collation_of collation) (table entries.now pool.now) (pages presence.now ranks.now) }
    ensures { RowAnswered 5 sought_values (two_call (collation_of collation) first.now second.now
        entries.now pool.now presence.now ranks.now first_key.old
        second_key.old) answer.new (first_key.new ∷ second_key.new ∷ []) }
{
    mz_texts::two_texts::mz_substring_accepted(
        collation, first, second, entries, pool, presence, ranks, first_key, second_key, answer,
    );
}
