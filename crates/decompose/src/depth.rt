// Check 7 (document 01, "Refusal numbers"; document 02, request 4): how deep and how large the code point of each entry unfolds,
// and each syllable.
ghost use Rattle.std.specs.Prelude.{◌≡◌, false, not, [], ◌+◌, ◌≤◌};
ghost use Rattle.std.specs.Prelude.{None};
ghost use Rattle.terms.specs.Refusals.{answer, check_outcome};
ghost use Rattle.table.specs.Table.{table, refused_at, form_refusal, mapping_of};
ghost use Rattle.hangul.specs.Hangul.{s_base, syllable};
ghost use Rattle.decompose.specs.TableCheck.{faulty_syllable, level_fault};
ghost use Rattle.decompose.specs.Promises.{jamo_levels, measured, largest, Listed};

use table::layout;
use terms::{CodePoint, Reason, Refusal};

// The most levels of a jamo in an accepted table: a syllable has one more.
const JAMO_LEVELS: usize = terms::LEVELS_MOST - 1;

// Whether 7 refuses a table of the form.
pub fn check_levels(entries: &[u32], pool: &[u32]) -> Result<(), Refusal>
    requires { form_refusal (table entries.now pool.now) ≡ None }
    ensures { check_outcome result ≡ answer (refused_at 7 (level_fault (table entries.now pool.now))) [] }
{
    let count = layout::entry_count(entries);
    for i in 0..count {
        let parts = table::parts_at(entries, pool, i);
        // A code point with no parts unfolds into itself.
        if parts.len() != 0 {
            let measurement = measure(
                terms::LEVELS_MOST,
                layout::code_at(entries, i),
                parts,
                terms::FULL_MOST,
                entries,
                pool,
            );
            if measurement.is_none() {
                return Err(table::refused_at(Reason::Level.number(), i));
            }
        }
    }
    if !syllables_fit(entries, pool) {
        return Err(table::refused_at(Reason::Level.number(), count));
    }
    Ok(())
}

// Whether every syllable unfolds within 8 levels into at most 32 code points. All combinations of jamo are syllables: so the
// largest leading consonant, the largest vowel beside it, and what these leave for trailing consonants decide for all.
fn syllables_fit(entries: &[u32], pool: &[u32]) -> bool
    requires { form_refusal (table entries.now pool.now) ≡ None }
    ensures { result ≡ not (faulty_syllable (mapping_of (table entries.now pool.now))) }
{
    let leading = measure_largest(
        hangul::L_BASE,
        hangul::L_COUNT,
        terms::FULL_MOST,
        entries,
        pool,
    );
    let Some(first) = leading else {
        return false;
    };
    let room = terms::FULL_MOST - first;
    let vowel = measure_largest(hangul::V_BASE, hangul::V_COUNT, room, entries, pool);
    let Some(second) = vowel else {
        return false;
    };
    let trailing = measure_largest(
        hangul::T_BASE + 1,
        hangul::T_COUNT - 1,
        room - second,
        entries,
        pool,
    );
    trailing.is_some()
}

// The largest measurement of so many jamo from one on, if each fits.
fn measure_largest(
    from: u32,
    count: u32,
    room: usize,
    entries: &[u32],
    pool: &[u32],
) -> Option<usize>
    requires pool_value { form_refusal (table entries.now pool.now) ≡ None }
    requires count_bound { from + count ≤ s_base }
    ensures { result ≡ largest (mapping_of (table entries.now pool.now)) room from count }
{
    let mut most = 0;
    for i in 0..count {
        most = most.max(measure_jamo(CodePoint(from + i), room, entries, pool)?);
    }
    Some(most)
}

// How many code points a jamo unfolds into, if it leaves a level for a syllable and they are at most `room`.
fn measure_jamo(c: CodePoint, room: usize, entries: &[u32], pool: &[u32]) -> Option<usize>
    requires pool_value { form_refusal (table entries.now pool.now) ≡ None }
    requires c_value { syllable c.0 ≡ false }
    ensures { result ≡ measured (mapping_of (table entries.now pool.now)) jamo_levels room c.0 }
{
    let parts = table::entry_parts(entries, pool, c);
    if parts.len() != 0 {
        return measure(JAMO_LEVELS, c, parts, room, entries, pool);
    }
    if room == 0 {
        return None;
    }
    Some(1)
}

// How many code points a code point unfolds into of which the entries say these parts, or none of a syllable, if within the levels
// left and into at most `room`.
fn measure(
    levels_left: usize,
    c: CodePoint,
    parts: &[u32],
    room: usize,
    entries: &[u32],
    pool: &[u32],
) -> Option<usize>
    requires pool_value { form_refusal (table entries.now pool.now) ≡ None }
    requires listed { Listed (mapping_of (table entries.now pool.now)) c.0 parts.now }
    ensures { result ≡ measured (mapping_of (table entries.now pool.now)) levels_left room c.0 }
{
    if parts.len() == 0 {
        let jamo = hangul::jamo_of(c);
        let by_rule = hangul::parts_among(c, &jamo);
        return measure(levels_left, c, by_rule, room, entries, pool);
    }
    if levels_left == 0 {
        return None;
    }
    let mut total = 0;
    for &number in parts {
        let part = CodePoint(number);
        let inner = table::entry_parts(entries, pool, part);
        // Most parts are whole, and a call costs more than counting one.
        if !crate::decomposes(part, inner) {
            if total == room {
                return None;
            }
            total += 1;
        } else {
            total += measure(levels_left - 1, part, inner, room - total, entries, pool)?;
        }
    }
    Some(total)
}
