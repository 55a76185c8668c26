// Calls that passed 1 to 7 and 15: only 8 is left, and then the keys are written.
ghost use Rattle.std.specs.Prelude.{◌≡◌, [], ◌∷◌, ◌≤◌, length, take};
ghost use Rattle.std.specs.Prelude.{Some};
ghost use Rattle.terms.specs.Lists.{over};
ghost use Rattle.terms.specs.Refusals.{text_most};
ghost use Rattle.terms.specs.declared.Collation.TheVariants.{UnicodeCasemap};
ghost use Rattle.table.specs.Table.{table};
ghost use Rattle.pages.specs.Pages.{pages};
ghost use Rattle.decompose.specs.TableCheck.{Usable};
ghost use Rattle.keys.specs.Keys.{UsableUnder};
ghost use Rattle.prepare.specs.Calls.{one_call, two_call, CalledReady};
ghost use Rattle.prepare.specs.Preparing.{prepared_values, pair_outcome, PreparesReady};
ghost use Rattle.prepare.specs.Promises.{needed_at, brief};

use crate::checks::check_room;
use keys::{
    KeyPlace, Summary, fill_key, fill_short, fill_unicode, is_roomy, size_key, try_filling,
};
use terms::{Collation, Refusal};

// The most octets of a text that is brief.
const BRIEF_MOST: usize = 64;

// The octets beside that a brief text's key is first written to: nearly all such keys fit.
const BESIDE_OCTETS: usize = 1280;

// Prepares a text.
pub fn fill_one(
    collation: Collation,
    text: &[u8],
    entries: &[u32],
    pool: &[u32],
    presence: &[u64],
    ranks: &[u64],
    key: &mut [u8],
) -> Result<Summary, Refusal>
    requires text_len_bound { length text.now ≤ text_most }
    requires usable_under { UsableUnder collation (table entries.now pool.now) (pages presence.now ranks.now) }
    ensures { PreparesReady
        (one_call (Some collation) text.now entries.now pool.now
        presence.now ranks.now key.old) result key.new }
{
    if is_roomy(collation, text.len(), key.len()) {
        if text.len() < keys::LONG_TEXT {
            return Ok(fill_short(text, entries, pool, presence, ranks, key));
        }
    }
    // The answer is moved, since that of the quick way would else stand in memory, in the same place.
    let other = fill_one_apart(collation, text, entries, pool, presence, ranks, key)?;
    Ok(other)
}

// The same with no quick way. It is called from two places, so that it stays apart and the quick way is inlined.
pub fn fill_one_apart(
    collation: Collation,
    text: &[u8],
    entries: &[u32],
    pool: &[u32],
    presence: &[u64],
    ranks: &[u64],
    key: &mut [u8],
) -> Result<Summary, Refusal>
    requires text_len_bound { length text.now ≤ text_most }
    requires usable_under { UsableUnder collation (table entries.now pool.now) (pages presence.now ranks.now) }
    ensures { PreparesReady
        (one_call (Some collation) text.now entries.now pool.now
        presence.now ranks.now key.old) result key.new }
{
    if is_roomy(collation, text.len(), key.len()) {
        return Ok(fill_unicode(text, entries, pool, presence, ranks, key));
    }
    if is_brief(collation, text.len()) {
        return fill_brief(text, entries, pool, presence, ranks, key);
    }
    fill_sized(collation, text, entries, pool, presence, ranks, key)
}

// Whether a text of so many octets is brief: its key is first written beside.
fn is_brief(collation: Collation, text_length: usize) -> bool
    ensures { result ≡ brief collation text_length }
{
    terms::reads_table(collation) && text_length <= BRIEF_MOST
}

// Prepares a text under collation 3. A key that may not fit is first written beside, so that a short buffer stays unchanged and
// the text is walked once.
fn fill_brief(
    text: &[u8],
    entries: &[u32],
    pool: &[u32],
    presence: &[u64],
    ranks: &[u64],
    key: &mut [u8],
) -> Result<Summary, Refusal>
    requires text_len_bound { length text.now ≤ text_most }
    requires usable { Usable (table entries.now pool.now) (pages presence.now ranks.now) }
    ensures { PreparesReady
        (one_call (Some UnicodeCasemap) text.now entries.now pool.now
        presence.now ranks.now key.old) result key.new }
{
    let mut beside = [0u8; BESIDE_OCTETS];
    if let Some(summary) = try_filling(text, entries, pool, presence, ranks, &mut beside) {
        check_room(1, summary, key.len())?;
        put_beside(&beside, summary, key);
        return Ok(summary);
    }
    fill_sized(
        Collation::UnicodeCasemap,
        text,
        entries,
        pool,
        presence,
        ranks,
        key,
    )
}

// Puts a key that was written beside into its buffer, if it belongs there.
fn put_beside(beside: &[u8], summary: Summary, key: &mut [u8])
    requires key_length_in_bounds { needed_at summary.place summary.key_length ≤ length beside.now }
    requires key_length_in_bounds_2 { needed_at summary.place summary.key_length ≤ length key.old }
    ensures { key.new ≡ over (take (needed_at summary.place summary.key_length) beside.now)
        key.old }
{
    if let KeyPlace::Buffer = summary.place {
        octets::put_octets(&beside[..summary.key_length], key);
    }
}

// Prepares a text, its key being sized before it is written.
fn fill_sized(
    collation: Collation,
    text: &[u8],
    entries: &[u32],
    pool: &[u32],
    presence: &[u64],
    ranks: &[u64],
    key: &mut [u8],
) -> Result<Summary, Refusal>
    requires text_len_bound { length text.now ≤ text_most }
    requires usable_under { UsableUnder collation (table entries.now pool.now) (pages presence.now ranks.now) }
    ensures { PreparesReady
        (one_call (Some collation) text.now entries.now pool.now
        presence.now ranks.now key.old) result key.new }
{
    let summary = size_key(collation, text, entries, pool, presence, ranks);
    check_room(1, summary, key.len())?;
    fill_key(collation, text, entries, pool, presence, ranks, key);
    Ok(summary)
}

// Prepares two texts.
pub fn fill_two(
    collation: Collation,
    first: &[u8],
    second: &[u8],
    entries: &[u32],
    pool: &[u32],
    presence: &[u64],
    ranks: &[u64],
    first_key: &mut [u8],
    second_key: &mut [u8],
) -> Result<(Summary, Summary), Refusal>
    requires first_len_bound { length first.now ≤ text_most }
    requires second_len_bound { length second.now ≤ text_most }
    requires usable_under { UsableUnder collation (table entries.now pool.now) (pages presence.now ranks.now) }
    ensures { CalledReady pair_outcome prepared_values (two_call (Some collation) first.now
        second.now entries.now pool.now presence.now ranks.now
        first_key.old
        second_key.old) result (first_key.new ∷ second_key.new ∷ []) }
{
    if is_roomy(collation, first.len(), first_key.len()) {
        if is_roomy(collation, second.len(), second_key.len()) {
            if first.len() < keys::LONG_TEXT {
                if second.len() < keys::LONG_TEXT {
                    let one = fill_short(first, entries, pool, presence, ranks, first_key);
                    let two = fill_short(second, entries, pool, presence, ranks, second_key);
                    return Ok((one, two));
                }
            }
            let one = fill_unicode(first, entries, pool, presence, ranks, first_key);
            let two = fill_unicode(second, entries, pool, presence, ranks, second_key);
            return Ok((one, two));
        }
    }
    fill_two_sized(
        collation, first, second, entries, pool, presence, ranks, first_key, second_key,
    )
}

// The same, both keys being sized before the first octet is written.
fn fill_two_sized(
    collation: Collation,
    first: &[u8],
    second: &[u8],
    entries: &[u32],
    pool: &[u32],
    presence: &[u64],
    ranks: &[u64],
    first_key: &mut [u8],
    second_key: &mut [u8],
) -> Result<(Summary, Summary), Refusal>
    requires first_len_bound { length first.now ≤ text_most }
    requires second_len_bound { length second.now ≤ text_most }
    requires usable_under { UsableUnder collation (table entries.now pool.now) (pages presence.now ranks.now) }
    ensures { CalledReady pair_outcome prepared_values (two_call (Some collation) first.now
        second.now entries.now pool.now presence.now ranks.now
        first_key.old
        second_key.old) result (first_key.new ∷ second_key.new ∷ []) }
{
    let one = size_key(collation, first, entries, pool, presence, ranks);
    let two = size_key(collation, second, entries, pool, presence, ranks);
    check_room(1, one, first_key.len())?;
    check_room(2, two, second_key.len())?;
    fill_key(collation, first, entries, pool, presence, ranks, first_key);
    fill_key(
        collation, second, entries, pool, presence, ranks, second_key,
    );
    Ok((one, two))
}
