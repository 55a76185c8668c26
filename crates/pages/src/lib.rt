// Paged presence bits (document 02, request 6): a bit for each code point that has an entry, in pages of 64, and the number of
// entries before each page. An entry's place is the page's number and the count of ones below the code point's bit.
//
// `fill_pages` asks for entries that ascend and for two slices that are long enough; the functions that look up, for a table of
// the form with pages so filled.

#![tactic(auto)]

ghost use Rattle.std.specs.Prelude.{◌≡◌, true, ◌*◌, ◌/◌, ◌%◌, ◌^◌, ◌≤◌, ◌<◌, eqb, length};
ghost use Rattle.std.specs.Int.Count.{ones};
ghost use Rattle.terms.specs.CodePoints.{scalar};
ghost use Rattle.terms.specs.Refusals.{pages_most};
ghost use Rattle.table.specs.Table.{table, entry_of, entry_parts};
ghost use Rattle.table.specs.Promises.{Ascending};
ghost use Rattle.pages.specs.Pages.{pages, page_size, filled};
ghost use Rattle.pages.specs.Promises.{Findable, Parted, PageRead};

use table::layout;
use terms::CodePoint;

// How many code points a page has.
const PAGE_SIZE: u32 = 64;

// What reading a page came to: its presence bits, and the first entry after it.
#[derive(Clone, Copy)]
pub struct Page {
    pub word: u64,
    pub next: usize,
}

// Fills both page slices afresh.
pub fn fill_pages(entries: &[u32], presence: &mut [u64], ranks: &mut [u64])
    requires ascending { Ascending entries.now }
    requires pages_most_in_bounds { pages_most ≤ length presence.old }
    requires pages_most_in_bounds_2 { pages_most ≤ length ranks.old }
    ensures { pages presence.new ranks.new ≡ filled entries.now
        (pages presence.old ranks.old) }
{
    let mut next = 0;
    for page in 0..terms::PAGES_MOST {
        let read = read_page(entries, next, page);
        presence[page] = read.word;
        ranks[page] = next as u64;
        next = read.next;
    }
}

// The entry of a code point.
pub fn find_entry(
    entries: &[u32],
    pool: &[u32],
    presence: &[u64],
    ranks: &[u64],
    c: CodePoint,
) -> Option<usize>
    requires findable { Findable (table entries.now pool.now) (pages presence.now ranks.now) }
    requires c_value { scalar c.0 ≡ true }
    ensures { result ≡ entry_of entries.now c.0 }
{
    let page = (c.0 / PAGE_SIZE) as usize;
    let bit = c.0 % PAGE_SIZE;
    let word = presence[page];
    if has_bit(word, bit) {
        Some(ranks[page] as usize + ones_below(word, bit) as usize)
    } else {
        None
    }
}

// Whether a bit of a word is set.
fn has_bit(word: u64, bit: u32) -> bool
    requires { bit < page_size }
    ensures { result ≡ eqb (word / 2 ^ bit % 2) 1 }
{
    (word >> bit) % 2 == 1
}

// How many bits of a word are set below one: the word masked below it, by the language's count of ones.
#[tactic(auto, using(crate::proofs::Masks::mask_below))]
fn ones_below(word: u64, bit: u32) -> u32
    requires { bit < page_size }
    ensures { result ≡ ones (word % 2 ^ bit) }
{
    (word & ((1 << bit) - 1)).count_ones()
}

// The decomposition that the entry of a code point says, as a part of the pool; empty if it has none.
pub fn entry_parts<'a>(
    entries: &[u32],
    pool: &'a [u32],
    presence: &[u64],
    ranks: &[u64],
    c: CodePoint,
) -> &'a [u32]
    requires findable { Findable (table entries.now pool.now) (pages presence.now ranks.now) }
    requires c_value { scalar c.0 ≡ true }
    ensures { result.now ≡ entry_parts (table entries.now pool.now) c.0 }
{
    match find_entry(entries, pool, presence, ranks, c) {
        Some(i) => table::parts_at(entries, pool, i),
        None => &[],
    }
}

// Reads a page whose first entry, if it has one, is entry `from`.
fn read_page(entries: &[u32], from: usize, page: usize) -> Page
    requires ascending { Ascending entries.now }
    requires page_lt_pages_most { page < pages_most }
    requires parted { Parted entries.now (page * page_size) from }
    ensures { PageRead entries.now page result }
{
    let count = layout::entry_count(entries);
    let mut word = 0;
    for i in from..count {
        let c = layout::code_at(entries, i);
        if (c.0 / PAGE_SIZE) as usize != page {
            return Page { word, next: i };
        }
        word += 1 << (c.0 % PAGE_SIZE);
    }
    Page { word, next: count }
}
