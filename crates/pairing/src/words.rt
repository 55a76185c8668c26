// The lines that `pairs` prints, each written at the start of a lent slice.
//
// Each function asks for room for WORDS_MOST octets, more than any line has, and answers how many octets it wrote.
ghost use Rattle.std.specs.Prelude.{◌+◌, ◌≤◌, length};
ghost use Rattle.octets.specs.Put.{Puts};
ghost use Rattle.pairing.specs.Words.{words_most, decimal, numbered, answer_line, heading_line, count_line, table_line};

use octets::put_octets;
use std::cmp::Ordering;
use terms::Refusal;

// Room for any of these lines, in octets.
pub const WORDS_MOST: usize = 35;

// Writes the line of an answer.
pub fn put_answer(answer: Result<Ordering, Refusal>, out: &mut [u8]) -> usize
    requires { words_most ≤ length out.old }
    ensures { Puts (answer_line answer) out.old result out.new }
{
    match answer {
        Ok(Ordering::Less) => put_octets(b"less\n", out),
        Ok(Ordering::Equal) => put_octets(b"equal\n", out),
        Ok(Ordering::Greater) => put_octets(b"greater\n", out),
        Err(r) => put_numbered(b"refused ", u64::from(r.number), out),
    }
}

// Writes the line that comes first.
pub fn put_heading(out: &mut [u8]) -> usize
    requires { words_most ≤ length out.old }
    ensures { Puts heading_line out.old result out.new }
{
    put_octets(b"collation i;unicode-casemap\n", out)
}

// Writes the line that comes last: how many lines were read.
pub fn put_count(count: u64, out: &mut [u8]) -> usize
    requires { words_most ≤ length out.old }
    ensures { Puts (count_line count) out.old result out.new }
{
    put_numbered(b"pairs ", count, out)
}

// Writes the only line where a data line or the table is refused, or the file can't be read (0).
pub fn put_table_refusal(number: u32, out: &mut [u8]) -> usize
    requires { words_most ≤ length out.old }
    ensures { Puts (table_line number) out.old result out.new }
{
    put_numbered(b"table refused ", u64::from(number), out)
}

// Writes a word, a number in decimal, and the line end.
fn put_numbered(word: &[u8], n: u64, out: &mut [u8]) -> usize
    requires { length word.now + 21 ≤ length out.old }
    ensures { Puts (numbered word.now n) out.old result out.new }
{
    let at = put_octets(word, out);
    let end = at + put_decimal(n, &mut out[at..]);
    out[end] = b'\n';
    end + 1
}

// Writes a number in decimal. By hand, since std's `write!` promises nothing of what stands in a slice after it, and
// `put_count` does.
fn put_decimal(n: u64, out: &mut [u8]) -> usize
    requires { length (decimal n) ≤ length out.old }
    ensures { Puts (decimal n) out.old result out.new }
{
    if n < 10 {
        out[0] = b'0' + n as u8;
        return 1;
    }
    let at = put_decimal(n / 10, out);
    out[at] = b'0' + (n % 10) as u8;
    at + 1
}
