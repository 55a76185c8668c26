// What 3 to 6 find in a table (document 01, "Refusal numbers"), each by itself: whether a thing is faulty, and the lowest that
// is.
ghost use Rattle.std.specs.Prelude.{◌≡◌, ◌<◌, ◌≤◌, length};
ghost use Rattle.terms.specs.Lists.{lowest};
ghost use Rattle.terms.specs.Refusals.{entries_most};
ghost use Rattle.table.specs.Layout.{entry_count};
ghost use Rattle.table.specs.Table.{table, counts_below, faulty_size, faulty_code, faulty_entry, entry_fault, faulty_number};

use crate::layout;

// Whether a slice has a length that 3 refuses.
pub fn is_faulty_size(entries: &[u32], pool: &[u32]) -> bool
    ensures { result ≡ faulty_size (table entries.now pool.now) }
{
    !layout::has_whole_entries(entries)
        || terms::ENTRIES_MOST < layout::entry_count(entries)
        || terms::POOL_MOST < pool.len()
}

// The lowest entry that 4 refuses.
pub fn faulty_code(entries: &[u32]) -> Option<usize>
    ensures { result ≡ lowest (faulty_code entries.now) (entry_count entries.now) }
{
    for i in 0..layout::entry_count(entries) {
        if is_faulty_code(entries, i) {
            return Some(i);
        }
    }
    None
}

// Whether 4 refuses an entry.
fn is_faulty_code(entries: &[u32], i: usize) -> bool
    requires { i < entry_count entries.now }
    ensures { result ≡ faulty_code entries.now i }
{
    let code = layout::code_at(entries, i);
    let title = layout::title_at(entries, i);
    !terms::is_scalar(code.0)
        || !terms::is_scalar(title.0)
        || hangul::is_syllable(code)
        || (i != 0 && code.0 <= layout::code_at(entries, i - 1).0)
}

// Where 5 finds a fault: the lowest entry, or the number of entries if the pool is longer than all counts.
pub fn faulty_entry(entries: &[u32], pool: &[u32]) -> Option<usize>
    requires { entry_count entries.now ≤ entries_most }
    ensures { result ≡ entry_fault (table entries.now pool.now) }
{
    let count = layout::entry_count(entries);
    let mut sum: usize = 0;
    for i in 0..count {
        if is_faulty_entry(entries, pool, i, sum) {
            return Some(i);
        }
        sum += layout::count_at(entries, i) as usize;
    }
    if sum < pool.len() { Some(count) } else { None }
}

// Whether 5 refuses an entry, `sum` being the sum of all earlier counts.
fn is_faulty_entry(entries: &[u32], pool: &[u32], i: usize, sum: usize) -> bool
    requires i_bound { i < entry_count entries.now }
    requires sum_value { sum ≡ counts_below entries.now i }
    ensures { result ≡ faulty_entry (table entries.now pool.now) i }
{
    let start = layout::start_at(entries, i) as usize;
    let count = layout::count_at(entries, i) as usize;
    terms::PARTS_MOST < count
        || start != sum
        || pool.len() < start + count
        || (count == 0 && layout::title_at(entries, i).0 == layout::code_at(entries, i).0)
}

// The lowest pool number that 6 refuses.
pub fn faulty_number(pool: &[u32]) -> Option<usize>
    ensures { result ≡ lowest (faulty_number pool.now) (length pool.now) }
{
    pool.iter().position(|&number| !terms::is_scalar(number))
}
