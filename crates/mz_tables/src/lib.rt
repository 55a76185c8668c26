// The calls of the C interface on a table (include/mundeziwa.h), and its number: each function calls one of the library's and
// stores the answer as a row of numbers. mz_tables_c exports them.
//
// All take any arguments at all. That pointers and lengths are what the header says of them is the C caller's part: no proof
// sees it.

#![tactic(auto)]

mod rows;

ghost use Rattle.std.specs.Prelude.{◌≡◌};
ghost use Rattle.terms.specs.Refusals.{row};
ghost use Rattle.table.specs.Table.{table};
ghost use Rattle.decompose.specs.TableCheck.{table_answer};
ghost use Rattle.builder.specs.Builder.{built};
ghost use Rattle.mz_tables.specs.Promises.{interface_number, state_of, LineAdded};

use builder::LineState;
use rows::{check_row, line_row};

// The number of the interface: another where a call's parameters or rows are others.
pub const INTERFACE: u32 = 2;

// The number of the interface.
pub fn mz_interface() -> u32
    ensures { result ≡ interface_number }
{
    INTERFACE
}

// Whether a table is accepted.
pub fn mz_check_table(entries: &[u32], pool: &[u32], answer: &mut [u64; 3])
    ensures { answer.new ≡ row 0 (table_answer (table entries.now pool.now)) }
{
    *answer = check_row(decompose::check_table(entries, pool));
}

// Adds one line of UnicodeData.txt, without its line end, to a table that is being built.
pub fn mz_add_line(
    entries_used: u64,
    pool_used: u64,
    next: u64,
    line: &[u8],
    entries: &mut [u32],
    pool: &mut [u32],
    answer: &mut [u64; 6],
)
    ensures { LineAdded
        (built (state_of entries_used pool_used next) entries.old pool.old) line.now
        answer.new (table entries.new pool.new) }
{
    let state = LineState {
        entries_used: entries_used as usize,
        pool_used: pool_used as usize,
        next: next as usize,
    };
    *answer = line_row(builder::add_line(state, line, entries, pool));
}
