// A table from lines of UnicodeData.txt (document 01, "Lines of UnicodeData.txt"): each line is read by the crate ucd, and
// its entry and parts are stored here.
//
// The definitions stand in specs/. No public function has a `requires`: any state, any octets and any slices get an answer, and
// nothing is written unless the line is not refused.

#![tactic(auto)]

mod checks;
mod storing;

ghost use Rattle.std.specs.Prelude.{◌≡◌, ◌≤◌, length};
ghost use Rattle.terms.specs.Refusals.{parts_most, refusal};
ghost use Rattle.ucd.specs.Lines.{with_parts};
ghost use Rattle.builder.specs.Builder.{built, refused_line, Added};
ghost use Rattle.builder.specs.Promises.{UsedFits, AddedGiven};
ghost use Rattle.terms.specs.Reasons.{reason_number};

use terms::{Reason, Refusal};
use ucd::SimpleProperties;

// The builder's state: entries used, pool numbers used, and one more than the last code point, or 0. All zeros is fresh.
#[derive(Clone, Copy)]
pub struct LineState {
    pub entries_used: usize,
    pub pool_used: usize,
    pub next: usize,
}

// Why a line is refused, with the state that came in.
#[derive(Clone, Copy)]
pub struct RefusedLine {
    pub refusal: Refusal,
    pub state: LineState,
}

// Adds one line, without its line end: one entry and its parts, or only the last code point, or nothing on a refusal. Answers
// the state afterwards.
pub fn add_line(
    state: LineState,
    line: &[u8],
    entries: &mut [u32],
    pool: &mut [u32],
) -> Result<LineState, RefusedLine>
    ensures { Added (built state entries.old pool.old) line.now
        result entries.new pool.new }
{
    if checks::is_impossible(state, entries, pool) {
        return Err(refused(Reason::State, state));
    }
    let mut parts = [0; terms::PARTS_MOST];
    match ucd::read_line(line, &mut parts) {
        Ok((simple, count)) => add_given(state, simple, &parts[..count], entries, pool),
        Err(fault) => Err(refused(Reason::from(fault), state)),
    }
}

// Adds what a line gives, unless 25, 26 or 27 applies.
fn add_given(
    state: LineState,
    simple: SimpleProperties,
    parts: &[u32],
    entries: &mut [u32],
    pool: &mut [u32],
) -> Result<LineState, RefusedLine>
    requires used_fits { UsedFits (built state entries.old pool.old) }
    requires parts_len_bound { length parts.now ≤ parts_most }
    ensures { AddedGiven (built state entries.old pool.old) (with_parts simple parts.now)
        result entries.new pool.new }
{
    if checks::is_barred(simple, parts) {
        return Err(refused(Reason::Surrogate, state));
    }
    if (simple.code.0 as usize) < state.next {
        return Err(refused(Reason::Order, state));
    }
    if checks::is_crowded(state, simple, parts, entries, pool) {
        return Err(refused(Reason::TableRoom, state));
    }
    Ok(storing::store(state, simple, parts, entries, pool))
}

// A line refused by its number, with the state that came in.
fn refused(reason: Reason, state: LineState) -> RefusedLine
    ensures { result ≡ refused_line (refusal (reason_number reason) 0 0) state }
{
    RefusedLine {
        refusal: Refusal {
            number: reason.number(),
            place: 0,
            detail: 0,
        },
        state,
    }
}
