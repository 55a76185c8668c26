// What is printed, collected in a lent buffer and written when that is nearly full and at the end.
ghost use Rattle.std.specs.Prelude.{◌≤◌, length};
ghost use Rattle.pairs.specs.Reading.{HasRoom, lines_most};

use std::cmp::Ordering;
use std::io::Write;
use terms::Refusal;

// How much of the buffer is used, and whether a write failed.
#[derive(Drop)]
pub struct Output {
    pub used: usize,
    pub failed: bool,
}

// The heading.
pub fn start(out: &mut [u8]) -> Output
    requires { lines_most ≤ length out.old }
    ensures { HasRoom (length out.old) result }
{
    let end = pairing::put_heading(out);
    Output {
        used: end,
        failed: false,
    }
}

// One answer more. What was collected is written if no other line fits.
pub fn add_answer<W: Write>(
    printed: &mut W,
    answer: Result<Ordering, Refusal>,
    out: &mut [u8],
    output: Output,
) -> Output
    requires { HasRoom (length out.old) output }
    ensures { HasRoom (length out.old) result }
{
    let used = output.used;
    let end = used + pairing::put_answer(answer, &mut out[used..]);
    if pairing::WORDS_MOST <= out.len() - end {
        return Output {
            used: end,
            failed: output.failed,
        };
    }
    let is_written = write_front(printed, out, end);
    Output {
        used: 0,
        failed: !is_written,
    }
}

// The count of the lines, and all that was collected is written.
pub fn finish<W: Write>(printed: &mut W, count: u64, out: &mut [u8], output: Output)
    requires { HasRoom (length out.old) output }
{
    let used = output.used;
    let end = used + pairing::put_count(count, &mut out[used..]);
    write_front(printed, out, end);
}

// The only line where a data line or the table is refused.
pub fn refuse_table<W: Write>(printed: &mut W, number: u32) {
    let mut words = [0; pairing::WORDS_MOST];
    let end = pairing::put_table_refusal(number, &mut words);
    write_front(printed, &words, end);
}

// Writes the first octets of a buffer.
fn write_front<W: Write>(printed: &mut W, out: &[u8], end: usize) -> bool
    requires { end ≤ length out.now }
{
    printed.write_all(&out[..end]).is_ok()
}
