// The checks of a call on texts: 1 to 7 and 15, before any key is looked at, and 8 for a key that was sized.
ghost use Rattle.std.specs.Prelude.{◌≡◌, ◌||◌, ltb};
ghost use Rattle.terms.specs.Collations.{collation_of};
ghost use Rattle.terms.specs.Refusals.{pages_most, refusal};
ghost use Rattle.std.specs.Result.{result_err};
ghost use Rattle.table.specs.Table.{table};
ghost use Rattle.pages.specs.Pages.{pages};
ghost use Rattle.prepare.specs.Promises.{ChecksTexts, ChecksPaging, ChecksTable, room_needed};
ghost use Rattle.terms.specs.Reasons.{reason_number};

use keys::{KeyPlace, Summary};
use terms::{Collation, Reason, Refusal};

// Whether a call on texts of these lengths passes 1 to 7 and 15. The pages are filled then, where the collation reads the table.
pub fn check_call(
    collation: u32,
    first_length: usize,
    second_length: usize,
    entries: &[u32],
    pool: &[u32],
    presence: &mut [u64],
    ranks: &mut [u64],
) -> Result<Collation, Refusal>
    ensures { ChecksPaging (collation_of collation) first_length second_length
        (table entries.now pool.now) (pages presence.old ranks.old) result
        (pages presence.new ranks.new) }
{
    let known = check_texts(collation, first_length, second_length)?;
    check_table_under(known, entries, pool, presence, ranks)?;
    Ok(known)
}

// Whether a call passes 1 and 2.
pub fn check_texts(
    collation: u32,
    first_length: usize,
    second_length: usize,
) -> Result<Collation, Refusal>
    ensures { ChecksTexts (collation_of collation) first_length second_length result }
{
    let Some(known) = terms::collation_of(collation) else {
        return Err(refused(Reason::Collation, 0, 0));
    };
    if terms::TEXT_MOST < first_length {
        return Err(refused(Reason::TextLength, 1, first_length));
    }
    if terms::TEXT_MOST < second_length {
        return Err(refused(Reason::TextLength, 2, second_length));
    }
    Ok(known)
}

// Whether a table passes 3 to 7 and the page slices 15, and then fills these: a collation that doesn't read the table asks for
// neither, and leaves them.
fn check_table_under(
    collation: Collation,
    entries: &[u32],
    pool: &[u32],
    presence: &mut [u64],
    ranks: &mut [u64],
) -> Result<(), Refusal>
    ensures { ChecksTable collation (table entries.now pool.now)
        (pages presence.old ranks.old) result (pages presence.new ranks.new) }
{
    if !terms::reads_table(collation) {
        return Ok(());
    }
    decompose::check_table(entries, pool)?;
    if is_short(presence.len(), ranks.len()) {
        return Err(refused(Reason::Pages, 0, 0));
    }
    pages::fill_pages(entries, presence, ranks);
    Ok(())
}

// Whether a page slice is too short, by the lengths of both.
fn is_short(presence: usize, ranks: usize) -> bool
    ensures { result ≡ (ltb presence pages_most || ltb ranks pages_most) }
{
    presence < terms::PAGES_MOST || ranks < terms::PAGES_MOST
}

// Whether a key has room: 8, with the length needed. A key that is the text itself needs none.
pub fn check_room(place: u32, summary: Summary, room: usize) -> Result<(), Refusal>
    ensures { result_err result ≡ room_needed place room summary }
{
    match summary.place {
        KeyPlace::Buffer if room < summary.key_length => Err(refused(
            Reason::Room,
            place,
            summary.key_length,
        )),
        _ => Ok(()),
    }
}

// A refusal by its three numbers.
fn refused(reason: Reason, place: u32, detail: usize) -> Refusal
    ensures { result ≡ refusal (reason_number reason) place detail }
{
    Refusal {
        number: reason.number(),
        place,
        detail: detail as u64,
    }
}
