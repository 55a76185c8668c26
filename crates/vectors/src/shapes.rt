// Chains of entries in two lent slices.
ghost use Rattle.std.specs.Prelude.{◌*◌, ◌≤◌, length};

use table::layout;
use terms::CodePoint;

// The code point of a chain's first entry; entry i has the i-th after it.
pub const FIRST: u32 = 0x100;

// n entries, each decomposing into so many times the next code point.
#[tactic(auto, unfolding(table::specs::Layout::entry_count))]
pub fn put_chain(entries: &mut [u32], pool: &mut [u32], n: u32, parts: u32)
    requires n_bound { n ≤ 16384 }
    requires parts_bound { parts ≤ 32 }
    requires entries_room { n * 4 ≤ length entries.old }
    requires pool_room { n * parts ≤ length pool.old }
{
    for i in 0..n {
        let code = CodePoint(FIRST + i);
        let start = i * parts;
        layout::put_entry(entries, i as usize, code, code, start, parts);
        pool[start as usize..(start + parts) as usize].fill(FIRST + i + 1);
    }
}
