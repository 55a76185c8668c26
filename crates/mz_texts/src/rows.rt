// The library's answers on texts as rows of numbers: refusal number (0 if not refused), place, detail, and then the values of
// the call.
ghost use Rattle.std.specs.Prelude.{◌≡◌};
ghost use Rattle.terms.specs.Refusals.{row};
ghost use Rattle.keys.specs.Summaries.{place_number};
ghost use Rattle.prepare.specs.Preparing.{preparation_outcome};
ghost use Rattle.compare.specs.Compare.{equality_outcome, order_outcome};
ghost use Rattle.search.specs.Substring.{substring_outcome};

use keys::{KeyPlace, Summary};
use search::Hit;
use std::cmp::Ordering;
use terms::Refusal;

// The row of a preparation: valid, lookups, length of the key, where it stands.
pub fn preparation_row(preparation: Result<Summary, Refusal>) -> [u64; 7]
    ensures { result ≡ row 4 (preparation_outcome preparation) }
{
    match preparation {
        Ok(s) => {
            let valid = u64::from(s.valid);
            let stands = place_number(s.place);
            [0, 0, 0, valid, s.lookups, s.key_length as u64, stands]
        }
        Err(r) => terms::refused_row(r),
    }
}

// The row of an equality: 1 match, 2 no-match.
pub fn equality_row(equality: Result<bool, Refusal>) -> [u64; 4]
    ensures { result ≡ row 1 (equality_outcome equality) }
{
    match equality {
        Ok(true) => [0, 0, 0, 1],
        Ok(false) => [0, 0, 0, 2],
        Err(r) => terms::refused_row(r),
    }
}

// The row of an order: 1 less, 2 equal, 3 greater.
pub fn order_row(ordered: Result<Ordering, Refusal>) -> [u64; 4]
    ensures { result ≡ row 1 (order_outcome ordered) }
{
    match ordered {
        Ok(Ordering::Less) => [0, 0, 0, 1],
        Ok(Ordering::Equal) => [0, 0, 0, 2],
        Ok(Ordering::Greater) => [0, 0, 0, 3],
        Err(r) => terms::refused_row(r), // no order
    }
}

// The row of a substring answer: 1 match, 2 no-match; start and end in the key, start and end in the text.
pub fn substring_row(sought: Result<Option<Hit>, Refusal>) -> [u64; 8]
    ensures { result ≡ row 5 (substring_outcome sought) }
{
    match sought {
        Ok(Some(hit)) => [
            0,
            0,
            0,
            1,
            hit.key_start.0 as u64,
            hit.key_end.0 as u64,
            hit.text_start.0 as u64,
            hit.text_end.0 as u64,
        ],
        Ok(None) => [0, 0, 0, 2, 0, 0, 0, 0],
        Err(r) => terms::refused_row(r),
    }
}

// Where a key stands, as a number: 0 it is the text, 1 the start of the buffer.
fn place_number(place: KeyPlace) -> u64
    ensures { result ≡ place_number place }
{
    match place {
        KeyPlace::Text => 0,
        KeyPlace::Buffer => 1,
    }
}
