// The mapping table (document 01, "The mapping table"): two lent slices, the entries and the pool.
//
// `check_form` takes any two slices. The functions that look up ask for the form, which it decides.

#![tactic(auto)]

mod faults;
pub mod layout;

ghost use Rattle.std.specs.Prelude.{◌≡◌, [], ◌<◌};
ghost use Rattle.std.specs.Prelude.{None, Some};
ghost use Rattle.terms.specs.Refusals.{refusal, answer, check_outcome};
ghost use Rattle.table.specs.Layout.{entry_count};
ghost use Rattle.table.specs.Table.{table, form_refusal, entry_of, parts_in, entry_parts};
ghost use Rattle.table.specs.Promises.{Ascending, Candidates};

use terms::{CodePoint, Reason, Refusal};

// Whether two slices have the form of a table: one of 3 to 6, or accepted so far.
pub fn check_form(entries: &[u32], pool: &[u32]) -> Result<(), Refusal>
    ensures { check_outcome result ≡ answer (form_refusal (table entries.now pool.now)) [] }
{
    if faults::is_faulty_size(entries, pool) {
        return Err(Refusal {
            number: Reason::TableSize.number(),
            place: 0,
            detail: 0,
        });
    }
    if let Some(i) = faults::faulty_code(entries) {
        return Err(refused_at(Reason::CodePoint.number(), i));
    }
    if let Some(i) = faults::faulty_entry(entries, pool) {
        return Err(refused_at(Reason::Entry.number(), i));
    }
    if let Some(i) = faults::faulty_number(pool) {
        return Err(refused_at(Reason::PoolNumber.number(), i));
    }
    Ok(())
}

// The decomposition that the entry of a code point says, as a part of the pool; empty if it has none. By a search, for the check of
// a table, which comes before its pages.
pub fn entry_parts<'a>(entries: &[u32], pool: &'a [u32], c: CodePoint) -> &'a [u32]
    requires { form_refusal (table entries.now pool.now) ≡ None }
    ensures { result.now ≡ entry_parts (table entries.now pool.now) c.0 }
{
    let count = within_reach(entries, c);
    if count == 0 {
        return &pool[..0];
    }
    if let Some(i) = find_among(entries, c, 0, count) {
        return parts_at(entries, pool, i);
    }
    &pool[..0]
}

// The decomposition that an entry says, as a part of the pool.
pub fn parts_at<'a>(entries: &[u32], pool: &'a [u32], i: usize) -> &'a [u32]
    requires pool_value { form_refusal (table entries.now pool.now) ≡ None }
    requires i_bound { i < entry_count entries.now }
    ensures { result.now ≡ parts_in (table entries.now pool.now) (Some i) }
{
    let start = layout::start_at(entries, i) as usize;
    let end = start + layout::count_at(entries, i) as usize;
    &pool[start..end]
}

// A refusal that names a place.
pub fn refused_at(number: u32, i: usize) -> Refusal
    ensures { result ≡ refusal number 0 i }
{
    Refusal {
        number,
        place: 0,
        detail: i as u64,
    }
}

// How many entries can be the one of a code point or stand before it: the code points ascend, so none is further from the first
// entry than its code point from the first one's.
fn within_reach(entries: &[u32], sought: CodePoint) -> usize
    requires { Ascending entries.now }
    ensures { Candidates entries.now sought.0 0 result }
{
    if layout::has_no_entry(entries) {
        return 0;
    }
    let least = layout::code_at(entries, 0);
    if sought.0 < least.0 {
        return 0;
    }
    let reach = (sought.0 - least.0) as usize + 1;
    reach.min(layout::entry_count(entries))
}

// The entry of a code point among the `size` from `low` on. A turn asks one question, not also whether this is the one: parts are
// the same letters and marks again and again, and their ways are soon foreseen. Not by `partition_point`: an entry is four numbers
// of a flat slice (the C interface), which no slice of std has as one element.
fn find_among(entries: &[u32], sought: CodePoint, low: usize, size: usize) -> Option<usize>
    requires ascending { Ascending entries.now }
    requires size_nonzero { 0 < size }
    requires candidates { Candidates entries.now sought.0 low size }
    ensures { result ≡ entry_of entries.now sought.0 }
{
    let mut first = low;
    let mut left = size;
    while 1 < left {
        let half = left / 2;
        let middle = first + half;
        let there = layout::code_at(entries, middle);
        if there.0 <= sought.0 {
            first = middle;
        }
        left -= half;
    }
    let found = layout::code_at(entries, first);
    if found.0 == sought.0 {
        Some(first)
    } else {
        None
    }
}
