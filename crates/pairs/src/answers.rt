// The answers for the lines of standard input.
ghost use Rattle.std.specs.Prelude.{◌≤◌, length};
ghost use Rattle.table.specs.Table.{table};
ghost use Rattle.pages.specs.Pages.{pages};
ghost use Rattle.decompose.specs.TableCheck.{Usable};
ghost use Rattle.pairs.specs.Reading.{Stands, Answers, lines_most};

use crate::reader::{Next, Reader};
use crate::{output, reader};
use std::cmp::Ordering;
use std::io::{Read, Write};
use terms::{Reason, Refusal};

// Room for what is printed, in octets, before it is written.
const OUTPUT_OCTETS: usize = 65536;

// Room for a key, in octets.
const KEY_OCTETS: usize = 12288;

// The answer for the next line.
#[derive(Drop)]
pub enum Answered {
    Answer(Result<Ordering, Refusal>, Reader),
    // A read failed, which is taken as the end of what can be read.
    Nothing(Reader),
    End,
}

// Answers every line of an input: the heading, a line for each, and the count.
pub fn answer_all<R: Read, W: Write>(
    input: &mut R,
    printed: &mut W,
    buffer: &mut [u8],
    entries: &[u32],
    pool: &[u32],
    presence: &[u64],
    ranks: &[u64],
)
    requires { Usable (table entries.now pool.now) (pages presence.now ranks.now) }
{
    let mut out = [0; OUTPUT_OCTETS];
    let mut first = [0; KEY_OCTETS];
    let mut second = [0; KEY_OCTETS];
    answer_lines(
        input,
        printed,
        buffer,
        entries,
        pool,
        presence,
        ranks,
        &mut first,
        &mut second,
        &mut out,
    );
}

// The same, with the key buffers and the output buffer lent.
fn answer_lines<R: Read, W: Write>(
    input: &mut R,
    printed: &mut W,
    buffer: &mut [u8],
    entries: &[u32],
    pool: &[u32],
    presence: &[u64],
    ranks: &[u64],
    first_key: &mut [u8],
    second_key: &mut [u8],
    out: &mut [u8],
)
    requires { Usable (table entries.now pool.now) (pages presence.now ranks.now) × (lines_most ≤ length out.old) }
{
    let mut reader = Reader::new();
    let mut output = output::start(out);
    let mut count = 0;
    // No `for`: how many lines there are is known at the end.
    loop {
        match answer_next(
            input, buffer, reader, entries, pool, presence, ranks, first_key, second_key,
        ) {
            Answered::Answer(answer, rest) => {
                output = output::add_answer(printed, answer, out, output);
                if output.failed {
                    return;
                }
                count += 1;
                reader = rest;
            }
            Answered::Nothing(rest) => reader = rest,
            Answered::End => {
                output::finish(printed, count, out, output);
                return;
            }
        }
    }
}

// The answer for the next line.
fn answer_next<R: Read>(
    input: &mut R,
    buffer: &mut [u8],
    reader: Reader,
    entries: &[u32],
    pool: &[u32],
    presence: &[u64],
    ranks: &[u64],
    first_key: &mut [u8],
    second_key: &mut [u8],
) -> Answered
    requires { Stands (length buffer.old) reader × Usable (table entries.now pool.now) (pages presence.now ranks.now) }
    ensures { Answers (length buffer.old) reader.left result }
{
    match reader::next_line(input, buffer, reader) {
        Next::Line(start, end, rest) => {
            let line = &buffer[start..end];
            let answer = pairing::judge(
                line, entries, pool, presence, ranks, first_key, second_key,
            );
            Answered::Answer(answer, rest)
        }
        Next::Long(rest) => Answered::Answer(
            Err(pairing::refuse(Reason::TextLength.number())),
            rest,
        ),
        Next::Failed(rest) => Answered::Nothing(rest),
        Next::End => Answered::End,
    }
}
