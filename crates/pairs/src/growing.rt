// The table from the lines of a file.
ghost use Rattle.std.specs.Prelude.{◌≡◌, ℕ, length};
ghost use Rattle.builder.specs.Builder.{built};
ghost use Rattle.builder.specs.Promises.{UsedFits};
ghost use Rattle.pairs.specs.Reading.{Stands, Goes, printed_number, GrownFits, AddedFits};

use crate::reader;
use crate::reader::{Next, Reader};
use builder::LineState;
use std::fs::File;
use std::io::Read;
use std::rt::Files;
use terms::Reason;

// Why the lines of a file make no table.
#[derive(Clone, Copy, PartialEq, Eq, Debug)]
pub enum NoTable {
    // The file can't be read.
    Unreadable,
    // A line is refused, by its number.
    Refused(u32),
}

impl NoTable {
    // The number that is printed: the refusal's, or 0.
    pub fn number(self) -> u32
        ensures { result ≡ printed_number self }
    {
        match self {
            NoTable::Unreadable => 0,
            NoTable::Refused(number) => number,
        }
    }
}

// What becomes of one line more.
#[derive(Drop)]
pub enum Added {
    Taken(LineState, Reader),
    Done(Result<LineState, NoTable>),
}

// Adds the lines of a file to a fresh table. An error is the first line's that is refused, or the file's.
pub fn grow_from<F: Files>(
    files: &F,
    path: &str,
    buffer: &mut [u8],
    entries: &mut [u32],
    pool: &mut [u32],
) -> Result<LineState, NoTable>
    ensures { GrownFits entries.new pool.new result }
{
    let mut file = File::open(files, path).map_err(|_| NoTable::Unreadable)?;
    grow(&mut file, buffer, entries, pool)
}

// Adds all lines.
fn grow<R: Read>(
    input: &mut R,
    buffer: &mut [u8],
    entries: &mut [u32],
    pool: &mut [u32],
) -> Result<LineState, NoTable>
    ensures { GrownFits entries.new pool.new result }
{
    let mut reader = Reader::new();
    let mut state = LineState {
        entries_used: 0,
        pool_used: 0,
        next: 0,
    };
    // No `for`: how many lines there are is known at the end.
    loop {
        match add_next(input, buffer, reader, state, entries, pool) {
            Added::Taken(after, rest) => {
                state = after;
                reader = rest;
            }
            Added::Done(grown) => return grown,
        }
    }
}

// Adds the next line.
fn add_next<R: Read>(
    input: &mut R,
    buffer: &mut [u8],
    reader: Reader,
    state: LineState,
    entries: &mut [u32],
    pool: &mut [u32],
) -> Added
    requires { Stands (length buffer.old) reader × UsedFits (built state entries.old pool.old) }
    ensures { AddedFits (length buffer.old) reader.left entries.new pool.new result }
{
    match reader::next_line(input, buffer, reader) {
        Next::Line(start, end, rest) => add_read(&buffer[start..end], rest, state, entries, pool),
        Next::Long(_) => Added::Done(Err(NoTable::Refused(Reason::LineLength.number()))),
        Next::Failed(_) => Added::Done(Err(NoTable::Unreadable)),
        Next::End => Added::Done(Ok(state)),
    }
}

// Adds a line that was read.
fn add_read(
    line: &[u8],
    rest: Reader,
    state: LineState,
    entries: &mut [u32],
    pool: &mut [u32],
) -> Added
    requires { UsedFits (built state entries.old pool.old) }
    ensures { (n bound : ℕ) → Goes n bound rest → AddedFits n bound entries.new pool.new result }
{
    match builder::add_line(state, line, entries, pool) {
        Ok(after) => Added::Taken(after, rest),
        Err(refused) => Added::Done(Err(NoTable::Refused(refused.refusal.number))),
    }
}
