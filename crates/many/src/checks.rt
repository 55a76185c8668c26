// The checks of a call on many texts before the table's: 1, 14, 36, 2.
ghost use Rattle.std.specs.Prelude.{◌≡◌, ◌<◌, length};
ghost use Rattle.terms.specs.Collations.{collation_of};
ghost use Rattle.terms.specs.Lists.{lowest};
ghost use Rattle.terms.specs.Refusals.{refusal};
ghost use Rattle.many.specs.Many.{long_text};
ghost use Rattle.many.specs.Promises.{ChecksMany};
ghost use Rattle.terms.specs.Reasons.{reason_number};

use terms::{Collation, Reason, Refusal};

// Whether a call on many texts in a slice of so many octets passes 1, 14, 36 and 2.
pub fn check_many(collation: u32, octets: usize, ends: &[usize]) -> Result<Collation, Refusal>
    ensures { ChecksMany (collation_of collation) octets ends.now result }
{
    let Some(known) = terms::collation_of(collation) else {
        return Err(refused(Reason::Collation, 0, 0));
    };
    storing::check_ends(octets, ends)?;
    match long_text(ends) {
        Some(i) => Err(refused(Reason::TextLength, 1, i)),
        None => Ok(known),
    }
}

// The lowest number of a text over the limit.
fn long_text(ends: &[usize]) -> Option<usize>
    ensures { result ≡ lowest (long_text ends.now) (length ends.now) }
{
    for i in 0..ends.len() {
        if is_long(ends, i) {
            return Some(i);
        }
    }
    None
}

// Whether a text is over the limit.
fn is_long(ends: &[usize], i: usize) -> bool
    requires { i < length ends.now }
    ensures { result ≡ long_text ends.now i }
{
    let start = if i == 0 { 0 } else { ends[i - 1] };
    terms::TEXT_MOST < ends[i].saturating_sub(start)
}

// A refusal by its three numbers.
fn refused(reason: Reason, place: u32, detail: usize) -> Refusal
    ensures { result ≡ refusal (reason_number reason) place detail }
{
    Refusal {
        number: reason.number(),
        place,
        detail: detail as u64,
    }
}
