// The lowest occurrence of one list of octets in another.
//
// `find` takes any two slices. What it remembers of the needle is a table of at most ROWS_MOST rows: the periods of its
// fronts that repeat three times or more (after Galil and Seiferas, 1983). That the table has room for them all is proved, so
// there is no slower search to fall back on. That the time grows with the sum of the lengths is no part of a contract: it is
// measured.

#![tactic(auto)]

mod filter;
mod matches;
mod places;
mod rows;

ghost use Rattle.std.specs.Prelude.{◌≡◌};
ghost use Rattle.occurrence.specs.Occurrence.{occurrence};
ghost use Rattle.occurrence.specs.Promises.{place_found};

use rows::{ROWS_MOST, Row, Rows};
use terms::KeyPosition;

// The lowest place of the hay from which the needle stands, if it stands anywhere.
pub fn find(needle: &[u8], hay: &[u8]) -> Option<KeyPosition>
    ensures { place_found result ≡ occurrence needle.now hay.now }
{
    let mut rows = Rows {
        rows: [Row {
            period: 0,
            reach: 0,
        }; ROWS_MOST],
        count: 0,
    };
    rows.note(needle);
    places::search(needle, hay, &rows)
}
