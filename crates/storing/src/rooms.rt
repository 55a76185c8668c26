// Room for the numbers of keys: 8.
ghost use Rattle.std.specs.Prelude.{◌≡◌};
ghost use Rattle.std.specs.Result.{result_err};
ghost use Rattle.storing.specs.Rooms.{arrays_check};

use terms::{Reason, Refusal};

// Whether two arrays have room for a number for each of so many names: 8, with the number of these.
pub fn check_arrays(one: usize, two: usize, names: usize) -> Result<(), Refusal>
    ensures { result_err result ≡ arrays_check one two names }
{
    if one < names || two < names {
        return Err(Refusal {
            number: Reason::Room.number(),
            place: 0,
            detail: names as u64,
        });
    }
    Ok(())
}
