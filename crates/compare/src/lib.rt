// Equality and order of two texts under a collation (document 01, "The collations").
//
// `equal` and `order` take any arguments at all; the `_accepted` ones ask for a table that is accepted already and its pages.

#![tactic(auto)]

ghost use Rattle.std.specs.Prelude.{◌≡◌, [], ◌∷◌, ◌≤◌, length};
ghost use Rattle.std.specs.Prelude.{Some};
ghost use Rattle.terms.specs.Collations.{collation_of};
ghost use Rattle.terms.specs.Refusals.{text_most};
ghost use Rattle.octets.specs.Order.{order_of, compared_order};
ghost use Rattle.table.specs.Table.{table};
ghost use Rattle.pages.specs.Pages.{pages};
ghost use Rattle.keys.specs.Keys.{UsableUnder};
ghost use Rattle.keys.specs.Summaries.{shown_at};
ghost use Rattle.prepare.specs.Calls.{two_call, Called, CalledPaging, CalledReady, UsableBy};
ghost use Rattle.compare.specs.Compare.{order_outcome, equality_outcome, order_values, equality_values, equality_by};

use keys::Summary;
use std::cmp::Ordering;
use terms::{Collation, Refusal};

// Whether two texts are equal under a collation. Both keys are left as by `prepare`, each in its own buffer.
pub fn equal(
    collation: u32,
    first: &[u8],
    second: &[u8],
    entries: &[u32],
    pool: &[u32],
    presence: &mut [u64],
    ranks: &mut [u64],
    first_key: &mut [u8],
    second_key: &mut [u8],
) -> Result<bool, Refusal>
    ensures { CalledPaging equality_outcome equality_values (two_call (collation_of collation) first.now
        second.now entries.now pool.now presence.old ranks.old
        first_key.old
        second_key.old) result (first_key.new ∷ second_key.new ∷ [])
        (pages presence.new ranks.new) }
{
    equality_of(order(
        collation, first, second, entries, pool, presence, ranks, first_key, second_key,
    ))
}

// As `equal`, over a table that is accepted already, with its pages.
pub fn equal_accepted(
    collation: u32,
    first: &[u8],
    second: &[u8],
    entries: &[u32],
    pool: &[u32],
    presence: &[u64],
    ranks: &[u64],
    first_key: &mut [u8],
    second_key: &mut [u8],
) -> Result<bool, Refusal>
    requires { UsableBy (collation_of collation) (table entries.now pool.now) (pages presence.now ranks.now) }
    ensures { Called equality_outcome equality_values (two_call (collation_of collation) first.now
        second.now entries.now pool.now presence.now ranks.now
        first_key.old
        second_key.old) result (first_key.new ∷ second_key.new ∷ []) }
{
    equality_of(order_accepted(
        collation, first, second, entries, pool, presence, ranks, first_key, second_key,
    ))
}

// How two texts are ordered under a collation. Both keys are left as by `prepare`, each in its own buffer.
pub fn order(
    collation: u32,
    first: &[u8],
    second: &[u8],
    entries: &[u32],
    pool: &[u32],
    presence: &mut [u64],
    ranks: &mut [u64],
    first_key: &mut [u8],
    second_key: &mut [u8],
) -> Result<Ordering, Refusal>
    ensures { CalledPaging order_outcome order_values (two_call (collation_of collation) first.now
        second.now entries.now pool.now presence.old ranks.old
        first_key.old
        second_key.old) result (first_key.new ∷ second_key.new ∷ [])
        (pages presence.new ranks.new) }
{
    prepare::check_call(
        collation,
        first.len(),
        second.len(),
        entries,
        pool,
        presence,
        ranks,
    )?;
    order_accepted(
        collation, first, second, entries, pool, presence, ranks, first_key, second_key,
    )
}

// As `order`, over a table that is accepted already, with its pages.
pub fn order_accepted(
    collation: u32,
    first: &[u8],
    second: &[u8],
    entries: &[u32],
    pool: &[u32],
    presence: &[u64],
    ranks: &[u64],
    first_key: &mut [u8],
    second_key: &mut [u8],
) -> Result<Ordering, Refusal>
    requires { UsableBy (collation_of collation) (table entries.now pool.now) (pages presence.now ranks.now) }
    ensures { Called order_outcome order_values (two_call (collation_of collation) first.now
        second.now entries.now pool.now presence.now ranks.now
        first_key.old
        second_key.old) result (first_key.new ∷ second_key.new ∷ []) }
{
    let known = prepare::check_texts(collation, first.len(), second.len())?;
    order_ready(
        known, first, second, entries, pool, presence, ranks, first_key, second_key,
    )
}

// Orders two texts where 1 to 7 and 15 were passed.
fn order_ready(
    collation: Collation,
    first: &[u8],
    second: &[u8],
    entries: &[u32],
    pool: &[u32],
    presence: &[u64],
    ranks: &[u64],
    first_key: &mut [u8],
    second_key: &mut [u8],
) -> Result<Ordering, Refusal>
    requires first_len_bound { length first.now ≤ text_most }
    requires second_len_bound { length second.now ≤ text_most }
    requires usable_under { UsableUnder collation (table entries.now pool.now) (pages presence.now ranks.now) }
    ensures { CalledReady order_outcome order_values (two_call (Some collation) first.now second.now
        entries.now pool.now presence.now ranks.now first_key.old
        second_key.old) result (first_key.new ∷ second_key.new ∷ []) }
{
    let (one, two) = prepare::fill_two(
        collation, first, second, entries, pool, presence, ranks, first_key, second_key,
    )?;
    Ok(order_shown(first, first_key, one, second, second_key, two))
}

// Equality by an order: keys are equal where neither is less.
fn equality_of(ordered: Result<Ordering, Refusal>) -> Result<bool, Refusal>
    ensures { result ≡ equality_by ordered }
{
    Ok(ordered?.is_eq())
}

// The order of the keys that two prepared texts show.
fn order_shown<'a, 'b>(
    first: &'a [u8],
    first_key: &'a [u8],
    one: Summary,
    second: &'b [u8],
    second_key: &'b [u8],
    two: Summary,
) -> Ordering
    ensures { compared_order result ≡ order_of
        (shown_at one.place one.key_length first.now first_key.now)
        (shown_at two.place two.key_length second.now second_key.now) }
{
    let a = keys::shown_part(first, first_key, one);
    let b = keys::shown_part(second, second_key, two);
    octets::compare_octets(a, b)
}
