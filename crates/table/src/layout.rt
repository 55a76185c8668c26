// The layout of the entries: "four 32-bit numbers each", code point, titlecase, pool start and count. No other file reads or
// writes a number of an entry, or knows how many an entry has.
//
// Each function is a line or two, so that it is inlined where it is called.
ghost use Rattle.std.specs.Prelude.{◌≡◌, ◌<◌, ◌≤◌, eqb};
ghost use Rattle.table.specs.Layout.{entry_width, entry, entry_count, whole_entries, number_at, code_at, title_at, start_at};
ghost use Rattle.table.specs.Layout.{count_at, put_entry, first_entries};

use terms::CodePoint;

// How many numbers an entry has.
pub const ENTRY_WIDTH: usize = 4;

// The number of whole entries.
#[tactic(auto, unfolding(crate::specs::Layout::entry_count))]
pub fn entry_count(entries: &[u32]) -> usize
    ensures { result ≡ entry_count entries.now }
{
    entries.len() / ENTRY_WIDTH
}

// Whether there is no whole entry. Not by the count: the compiler would read the length twice.
#[tactic(auto, unfolding(crate::specs::Layout::entry_count))]
pub fn has_no_entry(entries: &[u32]) -> bool
    ensures { result ≡ eqb (entry_count entries.now) 0 }
{
    entries.len() < ENTRY_WIDTH
}

// Whether a slice is whole entries, and nothing is left over.
#[tactic(auto, unfolding(crate::specs::Layout::whole_entries))]
pub fn has_whole_entries(entries: &[u32]) -> bool
    ensures { result ≡ whole_entries entries.now }
{
    entries.len() % ENTRY_WIDTH == 0
}

// The code point of an entry.
pub fn code_at(entries: &[u32], i: usize) -> CodePoint
    requires { i < entry_count entries.now }
    ensures { result.0 ≡ code_at entries.now i }
{
    CodePoint(number_at(entries, i, 0))
}

// The titlecase of an entry.
pub fn title_at(entries: &[u32], i: usize) -> CodePoint
    requires { i < entry_count entries.now }
    ensures { result.0 ≡ title_at entries.now i }
{
    CodePoint(number_at(entries, i, 1))
}

// The pool start of an entry.
pub fn start_at(entries: &[u32], i: usize) -> u32
    requires { i < entry_count entries.now }
    ensures { result ≡ start_at entries.now i }
{
    number_at(entries, i, 2)
}

// The count of an entry.
pub fn count_at(entries: &[u32], i: usize) -> u32
    requires { i < entry_count entries.now }
    ensures { result ≡ count_at entries.now i }
{
    number_at(entries, i, 3)
}

// Writes an entry.
#[tactic(auto, unfolding(crate::specs::Layout::entry_count, crate::specs::Layout::put_entry))]
pub fn put_entry(
    entries: &mut [u32],
    i: usize,
    code: CodePoint,
    title: CodePoint,
    start: u32,
    count: u32,
)
    requires { i < entry_count entries.old }
    ensures { entries.new ≡ put_entry i (entry code.0 title.0 start count) entries.old }
{
    let at = i * ENTRY_WIDTH;
    entries[at..at + ENTRY_WIDTH].copy_from_slice(&[code.0, title.0, start, count]);
}

// The first n entries.
#[tactic(auto, unfolding(crate::specs::Layout::entry_count, crate::specs::Layout::first_entries))]
pub fn first_entries<'a>(entries: &'a [u32], n: usize) -> &'a [u32]
    requires { n ≤ entry_count entries.now }
    ensures { result.now ≡ first_entries n entries.now }
{
    let end = n * ENTRY_WIDTH;
    &entries[..end]
}

// Number j of an entry.
#[tactic(auto, unfolding(crate::specs::Layout::entry_count, crate::specs::Layout::number_at))]
fn number_at(entries: &[u32], i: usize, j: usize) -> u32
    requires i_bound { i < entry_count entries.now }
    requires j_lt_entry_width { j < entry_width }
    ensures { result ≡ number_at entries.now i j }
{
    entries[i * ENTRY_WIDTH + j]
}
