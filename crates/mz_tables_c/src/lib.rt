// For C (include/mundeziwa.h), the calls on a table and the number of the interface: each function calls the one of its name
// in mz_tables, and promises what that promises.

#![tactic(auto)]

ghost use Rattle.std.specs.Prelude.{◌≡◌};
ghost use Rattle.terms.specs.Refusals.{row};
ghost use Rattle.table.specs.Table.{table};
ghost use Rattle.decompose.specs.TableCheck.{table_answer};
ghost use Rattle.builder.specs.Builder.{built};
ghost use Rattle.mz_tables.specs.Promises.{interface_number, state_of, LineAdded};

// The number of the interface.
#[unsafe(no_mangle)]
pub extern "C" fn mz_interface() -> u32
    ensures { result ≡ interface_number }
{
    mz_tables::mz_interface()
}

// Whether a table is accepted.
#[unsafe(no_mangle)]
pub extern "C" fn mz_check_table(entries: &[u32], pool: &[u32], answer: &mut [u64; 3])
    ensures { answer.new ≡ row 0 (table_answer (table entries.now pool.now)) }
{
    mz_tables::mz_check_table(entries, pool, answer);
}

// Adds one line of UnicodeData.txt, without its line end, to a table that is being built.
#[unsafe(no_mangle)]
pub extern "C" fn mz_add_line(
    entries_used: u64,
    pool_used: u64,
    next: u64,
    line: &[u8],
    entries: &mut [u32],
    pool: &mut [u32],
    answer: &mut [u64; 6],
)
    ensures { LineAdded
        (built (state_of entries_used pool_used next) entries.old pool.old) line.now
        answer.new (table entries.new pool.new) }
{
    mz_tables::mz_add_line(entries_used, pool_used, next, line, entries, pool, answer);
}
