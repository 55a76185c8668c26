// The places of the hay, from the lowest on.
ghost use Rattle.std.specs.Prelude.{◌≡◌};
ghost use Rattle.occurrence.specs.Rows.{Noted};
ghost use Rattle.occurrence.specs.Occurrence.{occurrence};
ghost use Rattle.occurrence.specs.Promises.{place_found, periods, reaches};

use crate::filter::{Place, skip};
use crate::matches::extend;
use crate::rows::Rows;
use terms::KeyPosition;

// The lowest place of the hay from which the needle stands, by the needle's rows.
pub fn search(needle: &[u8], hay: &[u8], rows: &Rows) -> Option<KeyPosition>
    requires { Noted needle.now (periods rows.now) (reaches rows.now) rows.now.count }
    ensures { place_found result ≡ occurrence needle.now hay.now }
{
    let m = needle.len();
    if hay.len() < m {
        return None;
    }
    if m == 0 {
        return Some(KeyPosition(0));
    }
    let last = hay.len() - m;
    let mut j = 0;
    let mut i = 0;
    let mut looked = 0;
    // How far to go on differs from place to place, so not a `for`.
    while j <= last {
        if i == 0 {
            Place { at: j, looked } = skip(needle, hay, Place { at: j, looked });
        }
        i = extend(needle, hay, j, i, m);
        if i == m {
            return Some(KeyPosition(j));
        }
        let s = rows.least_shift(i);
        i = s.kept;
        j += s.by;
    }
    None
}
