// Whether numbers can be the ends of octet strings in a slice: 14 and 36.
ghost use Rattle.std.specs.Prelude.{◌≡◌, [], ◌∷◌, ◌<◌, length};
ghost use Rattle.std.specs.Result.{result_err};
ghost use Rattle.terms.specs.Lists.{lowest};
ghost use Rattle.terms.specs.Refusals.{refusal};
ghost use Rattle.storing.specs.Ends.{faulty_end, ends_refusal};
ghost use Rattle.terms.specs.Reasons.{reason_number};

use terms::{Reason, Refusal};

// Whether numbers can be the ends of octet strings in a slice of so many octets.
pub fn check_ends(octets: usize, ends: &[usize]) -> Result<(), Refusal>
    ensures { result_err result ≡ ends_refusal octets ends.now }
{
    if terms::ENDS_MOST < ends.len() {
        return Err(refused(Reason::Count, 0));
    }
    match faulty_end(octets, ends) {
        Some(i) => Err(refused(Reason::End, i)),
        None => Ok(()),
    }
}

// The lowest number whose end is at fault.
fn faulty_end(octets: usize, ends: &[usize]) -> Option<usize>
    ensures { result ≡ lowest (faulty_end octets ends.now) (length ends.now) }
{
    for i in 0..ends.len() {
        if is_faulty_end(octets, ends, i) {
            return Some(i);
        }
    }
    None
}

// Whether an end is below the one before it, or past the octets.
fn is_faulty_end(octets: usize, ends: &[usize], i: usize) -> bool
    requires { i < length ends.now }
    ensures { result ≡ faulty_end octets ends.now i }
{
    octets < ends[i] || (i != 0 && ends[i] < ends[i - 1])
}

// A refusal of a lone slice, with its detail.
fn refused(reason: Reason, detail: usize) -> Refusal
    ensures { result ≡ refusal (reason_number reason) 1 detail }
{
    Refusal {
        number: reason.number(),
        place: 1,
        detail: detail as u64,
    }
}
