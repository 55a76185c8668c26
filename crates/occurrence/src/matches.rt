// Matches of the needle's octets, one by one.
ghost use Rattle.std.specs.Prelude.{◌+◌, ◌≤◌, length};
ghost use Rattle.occurrence.specs.Matches.{Matched, Extended};

// How many of the first `most` octets of x stand in y from place j on; i of them are known to.
pub fn extend(x: &[u8], y: &[u8], j: usize, i: usize, most: usize) -> usize
    requires { (i ≤ most) × (most ≤ length x.now) × (j + most ≤ length y.now) × Matched x.now y.now j i }
    ensures { Extended x.now y.now j most result }
{
    for k in i..most {
        if x[k] != y[j + k] {
            return k;
        }
    }
    most
}
