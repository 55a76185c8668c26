// The checks of a line that are more than a comparison: 28, which looks at the state and the sizes of the slices, and of what the
// line gives 25 and 27.
ghost use Rattle.std.specs.Prelude.{◌≡◌, ◌≤◌, ◌&&◌, length};
ghost use Rattle.terms.specs.CodePoints.{scalar};
ghost use Rattle.terms.specs.Lists.{all};
ghost use Rattle.terms.specs.Refusals.{parts_most};
ghost use Rattle.table.specs.Layout.{entry_count};
ghost use Rattle.ucd.specs.Lines.{with_parts, says_nothing};
ghost use Rattle.builder.specs.Builder.{built, overfull, impossible, barred, crowded};
ghost use Rattle.builder.specs.Promises.{UsedFits};

use crate::LineState;
use table::layout;
use ucd::SimpleProperties;

// The most that the state's third number can be: one more than the highest code point.
const NEXT_MOST: usize = 0x110000;

// Whether no line can have left this state in these slices.
pub fn is_impossible(state: LineState, entries: &[u32], pool: &[u32]) -> bool
    ensures { result ≡ impossible state (entry_count entries.now) (length pool.now) }
{
    is_overfull(state.entries_used, state.pool_used, entries, pool) || NEXT_MOST < state.next
}

// Whether there is no room for what a line gives, or a limit is passed.
pub fn is_crowded(
    state: LineState,
    simple: SimpleProperties,
    parts: &[u32],
    entries: &[u32],
    pool: &[u32],
) -> bool
    requires used_fits { UsedFits (built state entries.now pool.now) }
    requires parts_len_bound { length parts.now ≤ parts_most }
    ensures { result ≡ crowded state (entry_count entries.now) (length pool.now)
        (with_parts simple parts.now) }
{
    !says_nothing(simple, parts)
        && is_overfull(
            state.entries_used + 1,
            state.pool_used + parts.len(),
            entries,
            pool,
        )
}

// Whether so many entries and pool numbers are more than the slices hold, or than may be.
fn is_overfull(used: usize, filled: usize, entries: &[u32], pool: &[u32]) -> bool
    ensures { result ≡ overfull used filled (entry_count entries.now) (length pool.now) }
{
    layout::entry_count(entries) < used
        || terms::ENTRIES_MOST < used
        || pool.len() < filled
        || terms::POOL_MOST < filled
}

// Whether a line with a mapping has a surrogate, or is for a syllable.
pub fn is_barred(simple: SimpleProperties, parts: &[u32]) -> bool
    ensures { result ≡ barred (with_parts simple parts.now) }
{
    !says_nothing(simple, parts)
        && (!is_scalar_only(simple, parts) || hangul::is_syllable(simple.code))
}

// Whether no code point of a line is a surrogate.
fn is_scalar_only(simple: SimpleProperties, parts: &[u32]) -> bool
    ensures { result ≡ scalar simple.code.0 && scalar simple.title.0 && all scalar parts.now }
{
    terms::is_scalar(simple.code.0)
        && terms::is_scalar(simple.title.0)
        && parts.iter().all(|&c| terms::is_scalar(c))
}

// Whether a line says nothing: its titlecase is itself, and it has no parts.
pub fn says_nothing(simple: SimpleProperties, parts: &[u32]) -> bool
    ensures { result ≡ says_nothing (with_parts simple parts.now) }
{
    simple.title.0 == simple.code.0 && parts.is_empty()
}
