// A line of the program `pairs` and what it prints for it (document 01, "The program `pairs`").
//
// What the program reads and writes can't stand in a contract, so all that it decides is decided here, over lent slices.

#![tactic(auto)]

mod words;

ghost use Rattle.std.specs.Prelude.{◌≡◌, [], ◌∷◌, ◌<◌, length};
ghost use Rattle.terms.specs.Refusals.{refusal};
ghost use Rattle.table.specs.Table.{table};
ghost use Rattle.pages.specs.Pages.{pages};
ghost use Rattle.decompose.specs.TableCheck.{Usable};
ghost use Rattle.prepare.specs.Calls.{Called};
ghost use Rattle.compare.specs.Compare.{order_outcome, order_values};
ghost use Rattle.pairing.specs.Pairing.{tab_of, call_around};
ghost use Rattle.pairing.specs.Promises.{Judges};

use std::cmp::Ordering;
use terms::{Reason, Refusal};
pub use words::{WORDS_MOST, put_answer, put_count, put_heading, put_table_refusal};

// The longest line that is taken, in octets: two texts of terms::TEXT_MOST and the tab.
pub const PAIR_MOST: usize = 8193;

// Between the texts of a line.
const TAB: u8 = b'\t';

// How the two texts of a line are ordered, or which number refuses it, over a table that is accepted, with its pages. The keys
// are left as by `compare::order` where the texts are compared; else both buffers stay.
pub fn judge(
    line: &[u8],
    entries: &[u32],
    pool: &[u32],
    presence: &[u64],
    ranks: &[u64],
    first_key: &mut [u8],
    second_key: &mut [u8],
) -> Result<Ordering, Refusal>
    requires { Usable (table entries.now pool.now) (pages presence.now ranks.now) }
    ensures { Judges line.now (table entries.now pool.now)
        (pages presence.now ranks.now) first_key.old second_key.old result
        (first_key.new ∷ second_key.new ∷ []) }
{
    if PAIR_MOST < line.len() {
        return Err(refuse(Reason::TextLength.number()));
    }
    let at = find_tab(line).ok_or(refuse(Reason::NoTab.number()))?;
    order_around(
        line, at, entries, pool, presence, ranks, first_key, second_key,
    )
}

// How the text before a place of a line and the text after it are ordered.
fn order_around(
    line: &[u8],
    at: usize,
    entries: &[u32],
    pool: &[u32],
    presence: &[u64],
    ranks: &[u64],
    first_key: &mut [u8],
    second_key: &mut [u8],
) -> Result<Ordering, Refusal>
    requires { (at < length line.now) × Usable (table entries.now pool.now) (pages presence.now ranks.now) }
    ensures { Called order_outcome order_values (call_around line.now
        (table entries.now pool.now) (pages presence.now ranks.now)
        first_key.old second_key.old at) result (first_key.new ∷ second_key.new ∷ []) }
{
    compare::order_accepted(
        terms::UNICODE_CASEMAP,
        &line[..at],
        &line[at + 1..],
        entries,
        pool,
        presence,
        ranks,
        first_key,
        second_key,
    )
}

// The refusal of a line by its number alone: place and detail are 0.
pub fn refuse(number: u32) -> Refusal
    ensures { result ≡ refusal number 0 0 }
{
    Refusal {
        number,
        place: 0,
        detail: 0,
    }
}

// Where the first tab of a line stands, if there is one.
fn find_tab(line: &[u8]) -> Option<usize>
    ensures { result ≡ tab_of line.now }
{
    for i in 0..line.len() {
        if line[i] == TAB {
            return Some(i);
        }
    }
    None
}
