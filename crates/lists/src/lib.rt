// Which names two lists share (document 02, request 3).
//
// A list is kind 1 records, one after another. `find_shared` takes any arguments at all; the `_accepted` one asks for a table
// that is accepted already and its pages. The definitions stand in specs/, and those of what keys share in the crate partners.

#![tactic(auto)]

mod checks;
mod filling;
mod names;
mod putting;

ghost use Rattle.std.specs.Prelude.{◌≡◌, [], ◌∷◌};
ghost use Rattle.terms.specs.Collations.{collation_of};
ghost use Rattle.table.specs.Table.{table};
ghost use Rattle.pages.specs.Pages.{pages};
ghost use Rattle.prepare.specs.Calls.{UsableBy};
ghost use Rattle.lists.specs.Lists.{lists_call, lists_refusal, Shares, SharesPaging};

use checks::check_lists;
use filling::fill_lists;
use terms::Refusal;

// What two lists share.
#[derive(Clone, Copy)]
pub struct Totals {
    // Names in each list.
    pub first_names: usize,
    pub second_names: usize,
    // Equal pairs across them.
    pub equal_pairs: u64,
    // Names of the first list with any partner in the second.
    pub partnered: usize,
}

// Finds which names two lists share. The keys of all names are left in the store, the lowest partner of each name of the first
// list in partners, and the first list's positions in key order in positions.
pub fn find_shared(
    collation: u32,
    first: &[u8],
    second: &[u8],
    entries: &[u32],
    pool: &[u32],
    presence: &mut [u64],
    ranks: &mut [u64],
    store: &mut [u8],
    partners: &mut [u32],
    positions: &mut [u32],
) -> Result<Totals, Refusal>
    ensures { let c = lists_call (collation_of collation) first.now second.now
        entries.now pool.now presence.old ranks.old store.old
        partners.old positions.old in
        SharesPaging c result (store.new ∷ partners.new ∷ positions.new ∷ [])
        (pages presence.new ranks.new) }
{
    let checked = check_lists(collation, first, second)?;
    // Two empty texts pass 2, so that only the checks of the table and of the pages are left to this call.
    prepare::check_call(collation, 0, 0, entries, pool, presence, ranks)?;
    fill_lists(
        checked.collation,
        first,
        second,
        checked.first,
        checked.second,
        entries,
        pool,
        presence,
        ranks,
        store,
        partners,
        positions,
    )
}

// As `find_shared`, over a table that is accepted already, with its pages.
pub fn find_shared_accepted(
    collation: u32,
    first: &[u8],
    second: &[u8],
    entries: &[u32],
    pool: &[u32],
    presence: &[u64],
    ranks: &[u64],
    store: &mut [u8],
    partners: &mut [u32],
    positions: &mut [u32],
) -> Result<Totals, Refusal>
    requires { UsableBy (collation_of collation) (table entries.now pool.now) (pages presence.now ranks.now) }
    ensures { let c = lists_call (collation_of collation) first.now second.now
        entries.now pool.now presence.now ranks.now store.old
        partners.old positions.old in
        Shares (lists_refusal c) c result (store.new ∷ partners.new ∷ positions.new ∷ []) }
{
    let checked = check_lists(collation, first, second)?;
    fill_lists(
        checked.collation,
        first,
        second,
        checked.first,
        checked.second,
        entries,
        pool,
        presence,
        ranks,
        store,
        partners,
        positions,
    )
}
