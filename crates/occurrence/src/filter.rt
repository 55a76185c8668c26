// Places of the hay from which the needle doesn't stand, told by its first, middle and last octet.
//
// A block of places is passed over at once where no place of it has all three, and no block is looked at twice.
ghost use Rattle.std.specs.Prelude.{◌≡◌, true, ◌+◌, ◌≤◌, ◌<◌, length};
ghost use Rattle.occurrence.specs.Matches.{block, Skipped};

// The places of a block.
const BLOCK: usize = 64;

// A place of the hay, and the end of the last block that was looked at.
#[derive(Clone, Copy)]
pub struct Place {
    pub at: usize,
    pub looked: usize,
}

// On to a place from which the needle may stand.
pub fn skip(needle: &[u8], hay: &[u8], from: Place) -> Place
    requires { (0 < length needle.now) × (from.at + length needle.now ≤ length hay.now) }
    ensures { Skipped needle.now hay.now from.at result.at }
{
    let Place { at, looked } = from;
    if looked <= at {
        let next = skip_blocks(needle, hay, at);
        let end = next + BLOCK;
        return Place {
            at: skip_places(needle, hay, next, end),
            looked: end,
        };
    }
    Place {
        at: skip_places(needle, hay, at, looked),
        looked,
    }
}

// On by blocks.
fn skip_blocks(needle: &[u8], hay: &[u8], j: usize) -> usize
    requires { (0 < length needle.now) × (j + length needle.now ≤ length hay.now) }
    ensures { Skipped needle.now hay.now j result }
{
    let last = hay.len() - needle.len();
    // A step of a block, and the place where it ends is the answer, so not a `for`.
    let mut at = j;
    while BLOCK <= last - at && is_clear(needle, hay, at) {
        at += BLOCK;
    }
    at
}

// Whether no place of the block from j on has the three octets.
fn is_clear(needle: &[u8], hay: &[u8], j: usize) -> bool
    requires { (0 < length needle.now) × (j + block + length needle.now ≤ length hay.now) }
    ensures { result ≡ true → Skipped needle.now hay.now j (j + block) }
{
    let far = needle.len() - 1;
    let half = needle.len() / 2;
    let first = needle[0];
    let middle = needle[half];
    let last = needle[far];
    let mut least = u8::MAX;
    for k in 0..BLOCK {
        let d = (hay[j + k] ^ first) | (hay[j + half + k] ^ middle) | (hay[j + far + k] ^ last);
        least = least.min(d);
    }
    0 < least
}

// On place by place, to the end at most.
fn skip_places(needle: &[u8], hay: &[u8], j: usize, end: usize) -> usize
    requires { (0 < length needle.now) × (j + length needle.now ≤ length hay.now) }
    ensures { Skipped needle.now hay.now j result }
{
    let far = needle.len() - 1;
    let half = needle.len() / 2;
    let first = needle[0];
    let middle = needle[half];
    let last = needle[far];
    let stop = end.min(hay.len() - needle.len());
    // Not a `for`: where most places are kept, that takes half as long again (`make bench`, "that letter second").
    let mut at = j;
    while at < stop {
        let d = (hay[at] ^ first) | (hay[at + half] ^ middle) | (hay[at + far] ^ last);
        if d == 0 {
            return at;
        }
        at += 1;
    }
    at
}
