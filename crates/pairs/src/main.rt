// The program `pairs` (document 01, "The program `pairs`"): it builds its table from `ucd.txt`, then prints for each line of
// standard input how its two texts are ordered.
//
// What a program reads and writes can't stand in a contract: here every function is proved safe and ending, and what is
// decided of a line, and the words that are printed, are contracts of the crates pairing, builder and decompose.

#![tactic(auto)]

mod answers;
mod growing;
mod output;
mod reader;

ghost use Rattle.std.specs.Prelude.{◌≡◌, None};
ghost use Rattle.table.specs.Table.{table};
ghost use Rattle.decompose.specs.TableCheck.{table_refusal};
ghost use Rattle.builder.specs.Builder.{built};
ghost use Rattle.builder.specs.Promises.{UsedFits};

use builder::LineState;
use std::io::{Read, Write};
use std::rt::Files;

// Room for what is read of an input at once, in octets.
const INPUT_OCTETS: usize = 65536;

// Room for the table: 1,024 entries, and 2,048 pool numbers.
const ENTRY_NUMBERS: usize = 1024 * table::layout::ENTRY_WIDTH;

const POOL_NUMBERS: usize = 2048;

fn main(rt: HostRuntime) {
    let mut input = rt.stdin();
    let mut printed = rt.stdout();
    let mut buffer = [0; INPUT_OCTETS];
    let mut entries = [0; ENTRY_NUMBERS];
    let mut pool = [0; POOL_NUMBERS];
    build(
        &rt,
        &mut input,
        &mut printed,
        &mut buffer,
        &mut entries,
        &mut pool,
    );
}

// Builds the table in the lent slices, and goes on if no line is refused.
fn build<F: Files, R: Read, W: Write>(
    files: &F,
    input: &mut R,
    printed: &mut W,
    buffer: &mut [u8],
    entries: &mut [u32],
    pool: &mut [u32],
) {
    match growing::grow_from(files, "ucd.txt", buffer, entries, pool) {
        Ok(state) => start(state, input, printed, buffer, entries, pool),
        Err(none) => output::refuse_table(printed, none.number()),
    }
}

// Cuts the slices to what is used.
fn start<R: Read, W: Write>(
    state: LineState,
    input: &mut R,
    printed: &mut W,
    buffer: &mut [u8],
    entries: &[u32],
    pool: &[u32],
)
    requires { UsedFits (built state entries.now pool.now) }
{
    let used = table::layout::first_entries(entries, state.entries_used);
    run(input, printed, buffer, used, &pool[..state.pool_used]);
}

// Checks the table once, and answers all lines.
fn run<R: Read, W: Write>(
    input: &mut R,
    printed: &mut W,
    buffer: &mut [u8],
    entries: &[u32],
    pool: &[u32],
) {
    match decompose::check_table(entries, pool) {
        Ok(()) => answer(input, printed, buffer, entries, pool),
        Err(refusal) => output::refuse_table(printed, refusal.number),
    }
}

// Fills the pages of an accepted table, and answers all lines.
fn answer<R: Read, W: Write>(
    input: &mut R,
    printed: &mut W,
    buffer: &mut [u8],
    entries: &[u32],
    pool: &[u32],
)
    requires { table_refusal (table entries.now pool.now) ≡ None }
{
    let mut presence = [0; terms::PAGES_MOST];
    let mut ranks = [0; terms::PAGES_MOST];
    pages::fill_pages(entries, &mut presence, &mut ranks);
    answers::answer_all(input, printed, buffer, entries, pool, &presence, &ranks);
}
