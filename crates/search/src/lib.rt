// Substring search under a collation (document 01, "The substring answer").
//
// `substring` takes any arguments at all; `substring_accepted` asks for a table that is accepted already and its pages.

#![tactic(auto)]

mod covering;

ghost use Rattle.std.specs.Prelude.{◌≡◌, [], ◌∷◌, ◌≤◌, length};
ghost use Rattle.std.specs.Prelude.{Some};
ghost use Rattle.terms.specs.Collations.{collation_of};
ghost use Rattle.terms.specs.Refusals.{text_most};
ghost use Rattle.table.specs.Table.{table, mapping_of};
ghost use Rattle.pages.specs.Pages.{pages};
ghost use Rattle.keys.specs.Keys.{UsableUnder};
ghost use Rattle.prepare.specs.Calls.{two_call, Called, CalledPaging, CalledReady, UsableBy};
ghost use Rattle.occurrence.specs.Occurrence.{occurrence};
ghost use Rattle.search.specs.Covering.{span};
ghost use Rattle.search.specs.Substring.{hit_numbers, substring_outcome, text_run, hit_values, found_values, substring_values};
ghost use Rattle.search.specs.Substring.{sought_values};
ghost use Rattle.search.specs.Promises.{Shows, Seekable, Hits};

use covering::{Run, cover};
use keys::Summary;
use terms::{Collation, KeyPosition, Refusal, TextPosition};

// Where the first text's key occurs in the second's, and the run of whole characters of the second text that covers it.
#[derive(Clone, Copy)]
pub struct Hit {
    pub key_start: KeyPosition,
    pub key_end: KeyPosition,
    pub text_start: TextPosition,
    pub text_end: TextPosition,
}

// Seeks the first text in the second under a collation. Both keys are left as by `prepare`, each in its own buffer.
pub fn substring(
    collation: u32,
    first: &[u8],
    second: &[u8],
    entries: &[u32],
    pool: &[u32],
    presence: &mut [u64],
    ranks: &mut [u64],
    first_key: &mut [u8],
    second_key: &mut [u8],
) -> Result<Option<Hit>, Refusal>
    ensures { CalledPaging substring_outcome sought_values (two_call (collation_of collation) first.now
        second.now entries.now pool.now presence.old ranks.old
        first_key.old
        second_key.old) result (first_key.new ∷ second_key.new ∷ [])
        (pages presence.new ranks.new) }
{
    prepare::check_call(
        collation,
        first.len(),
        second.len(),
        entries,
        pool,
        presence,
        ranks,
    )?;
    substring_accepted(
        collation, first, second, entries, pool, presence, ranks, first_key, second_key,
    )
}

// As `substring`, over a table that is accepted already, with its pages.
pub fn substring_accepted(
    collation: u32,
    first: &[u8],
    second: &[u8],
    entries: &[u32],
    pool: &[u32],
    presence: &[u64],
    ranks: &[u64],
    first_key: &mut [u8],
    second_key: &mut [u8],
) -> Result<Option<Hit>, Refusal>
    requires { UsableBy (collation_of collation) (table entries.now pool.now) (pages presence.now ranks.now) }
    ensures { Called substring_outcome sought_values (two_call (collation_of collation) first.now
        second.now entries.now pool.now presence.now ranks.now
        first_key.old
        second_key.old) result (first_key.new ∷ second_key.new ∷ []) }
{
    let known = prepare::check_texts(collation, first.len(), second.len())?;
    seek_ready(
        known, first, second, entries, pool, presence, ranks, first_key, second_key,
    )
}

// Seeks the first text in the second where 1 to 7 and 15 were passed.
fn seek_ready(
    collation: Collation,
    first: &[u8],
    second: &[u8],
    entries: &[u32],
    pool: &[u32],
    presence: &[u64],
    ranks: &[u64],
    first_key: &mut [u8],
    second_key: &mut [u8],
) -> Result<Option<Hit>, Refusal>
    requires first_len_bound { length first.now ≤ text_most }
    requires second_len_bound { length second.now ≤ text_most }
    requires usable_under { UsableUnder collation (table entries.now pool.now) (pages presence.now ranks.now) }
    ensures { CalledReady substring_outcome sought_values (two_call (Some collation) first.now
        second.now entries.now pool.now presence.now ranks.now
        first_key.old
        second_key.old) result (first_key.new ∷ second_key.new ∷ []) }
{
    let (one, two) = prepare::fill_two(
        collation, first, second, entries, pool, presence, ranks, first_key, second_key,
    )?;
    Ok(seek_shown(
        collation, first, first_key, one, second, second_key, two, entries, pool, presence, ranks,
    ))
}

// The first text sought in the second, over the keys that the two prepared texts show.
fn seek_shown<'a, 'b>(
    collation: Collation,
    first: &'a [u8],
    first_key: &'a [u8],
    one: Summary,
    second: &'b [u8],
    second_key: &'b [u8],
    two: Summary,
    entries: &[u32],
    pool: &[u32],
    presence: &[u64],
    ranks: &[u64],
) -> Option<Hit>
    requires usable_under { UsableUnder collation (table entries.now pool.now) (pages presence.now ranks.now) }
    requires shows { Shows collation (mapping_of (table entries.now pool.now)) first.now first_key.now one second.now
        second_key.now two }
    ensures { hit_numbers result ≡ substring_values collation
        (mapping_of (table entries.now pool.now)) first.now second.now }
{
    if first.is_empty() {
        return Some(Hit {
            key_start: KeyPosition(0),
            key_end: KeyPosition(0),
            text_start: TextPosition(0),
            text_end: TextPosition(0),
        });
    }
    let needle = keys::shown_part(first, first_key, one);
    let hay = keys::shown_part(second, second_key, two);
    seek_key(
        collation, needle, hay, second, two.valid, entries, pool, presence, ranks,
    )
}

// A key that is not empty sought in the second text's key.
fn seek_key(
    collation: Collation,
    needle: &[u8],
    hay: &[u8],
    second: &[u8],
    valid: bool,
    entries: &[u32],
    pool: &[u32],
    presence: &[u64],
    ranks: &[u64],
) -> Option<Hit>
    requires usable_under { UsableUnder collation (table entries.now pool.now) (pages presence.now ranks.now) }
    requires seekable { Seekable collation (mapping_of (table entries.now pool.now)) needle.now hay.now second.now valid }
    ensures { hit_numbers result ≡ found_values collation
        (mapping_of (table entries.now pool.now)) second.now (length needle.now)
        (occurrence needle.now hay.now) }
{
    let start = occurrence::find(needle, hay)?;
    let end = KeyPosition(start.0 + needle.len());
    Some(hit_at(
        collation, second, valid, entries, pool, presence, ranks, start, end,
    ))
}

// A hit at a part of the second text's key, with the run of the text that covers it.
fn hit_at(
    collation: Collation,
    second: &[u8],
    valid: bool,
    entries: &[u32],
    pool: &[u32],
    presence: &[u64],
    ranks: &[u64],
    start: KeyPosition,
    end: KeyPosition,
) -> Hit
    requires usable_under { UsableUnder collation (table entries.now pool.now) (pages presence.now ranks.now) }
    requires hits { Hits collation (mapping_of (table entries.now pool.now)) second.now valid start.0 end.0 }
    ensures { hit_numbers (Some result) ≡ hit_values (span start.0 end.0) (text_run collation
        (mapping_of (table entries.now pool.now)) second.now (span start.0 end.0)) }
{
    let run = if terms::reads_table(collation) && valid {
        cover(second, entries, pool, presence, ranks, start, end)
    } else {
        Run {
            start: TextPosition(start.0),
            end: TextPosition(end.0),
        }
    };
    Hit {
        key_start: start,
        key_end: end,
        text_start: run.start,
        text_end: run.end,
    }
}
