// The library's answers on tables as rows of numbers: refusal number (0 if not refused), place, detail, and then the values
// of the call.
ghost use Rattle.std.specs.Prelude.{◌≡◌};
ghost use Rattle.terms.specs.Refusals.{row, check_outcome};
ghost use Rattle.builder.specs.Builder.{line_outcome, state_after};
ghost use Rattle.mz_tables.specs.Promises.{line_row};

use builder::{LineState, RefusedLine};
use terms::Refusal;

// The row of a table check.
pub fn check_row(check: Result<(), Refusal>) -> [u64; 3]
    ensures { result ≡ row 0 (check_outcome check) }
{
    match check {
        Ok(()) => [0; 3],
        Err(r) => terms::refused_row(r),
    }
}

// The row of a line: the state that comes back, on a refusal too.
pub fn line_row(line: Result<LineState, RefusedLine>) -> [u64; 6]
    ensures { result ≡ line_row (line_outcome line) (state_after line) }
{
    match line {
        Ok(after) => [
            0,
            0,
            0,
            after.entries_used as u64,
            after.pool_used as u64,
            after.next as u64,
        ],
        Err(e) => [
            e.refusal.number as u64,
            e.refusal.place as u64,
            e.refusal.detail,
            e.state.entries_used as u64,
            e.state.pool_used as u64,
            e.state.next as u64,
        ],
    }
}
