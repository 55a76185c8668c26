// What a line that is not refused leaves: an entry and its parts, and the state.
ghost use Rattle.std.specs.Prelude.{◌≡◌, false, ◌+◌, ◌≤◌, length};
ghost use Rattle.terms.specs.Lists.{put_at};
ghost use Rattle.terms.specs.Refusals.{parts_most};
ghost use Rattle.table.specs.Layout.{entry_count};
ghost use Rattle.ucd.specs.Lines.{with_parts};
ghost use Rattle.builder.specs.Builder.{built, crowded, added};

use crate::{LineState, checks};
use table::layout;
use ucd::SimpleProperties;

// Appends the entry of a line and its parts; a line that says nothing only moves the last code point.
pub fn store(
    state: LineState,
    simple: SimpleProperties,
    parts: &[u32],
    entries: &mut [u32],
    pool: &mut [u32],
) -> LineState
    requires parts_len_bound { length parts.now ≤ parts_most }
    requires parts_value { crowded state (entry_count entries.old) (length pool.old) (with_parts simple parts.now) ≡ false }
    ensures { built result entries.new pool.new
        ≡ added (built state entries.old pool.old) (with_parts simple parts.now) }
{
    let next = simple.code.0 as usize + 1;
    if checks::says_nothing(simple, parts) {
        return LineState { next, ..state };
    }
    layout::put_entry(
        entries,
        state.entries_used,
        simple.code,
        simple.title,
        state.pool_used as u32,
        parts.len() as u32,
    );
    put_at(parts, pool, state.pool_used);
    LineState {
        entries_used: state.entries_used + 1,
        pool_used: state.pool_used + parts.len(),
        next,
    }
}

// Writes numbers into a slice at a place.
fn put_at(numbers: &[u32], out: &mut [u32], at: usize)
    requires { at + length numbers.now ≤ length out.old }
    ensures { out.new ≡ put_at at numbers.now out.old }
{
    // Not by `copy_from_slice`, which calls memmove.
    for i in 0..numbers.len() {
        out[at + i] = numbers[i];
    }
}
