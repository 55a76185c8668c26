// Lines of an input, each shown as a place in a lent buffer.
//
// A line ends at 0A, which alone is cut off; a last line without it counts unless it is empty. A line that is longer than the
// buffer is answered as such, once, as soon as that is known; what is left of it is passed over by the next call.
ghost use Rattle.std.specs.Prelude.{◌≡◌, ◌≢◌, ℕ, suc, ◌≤◌, ◌<◌, length, slice_index};
ghost use Rattle.pairs.specs.Reading.{Stands, Goes, Steps, Nexts};

use std::io::Read;

// Ends a line.
const LINE_FEED: u8 = 0x0A;

// Where a reader starts to count down: more than any input has lines and reads.
const STEPS_MOST: u64 = 1152921504606846976;

// Where a reader stands.
#[derive(Clone, Copy)]
pub struct Reader {
    // In the buffer: where the next line starts, up to where no line end was seen, and where the octets that were read end.
    pub at: usize,
    pub seen: usize,
    pub end: usize,
    // The input has ended, or a read has failed.
    pub ended: bool,
    // What comes up to the next line end belongs to a line that was answered as too long.
    pub skipping: bool,
    // Falls with each line and each read, so that every loop over lines ends.
    pub left: u64,
}

// What comes next in an input.
#[derive(Drop)]
pub enum Next {
    // A line, from the first place of the buffer up to the second.
    Line(usize, usize, Reader),
    // A line that is longer than the buffer.
    Long(Reader),
    // A read failed; what was read before is still to come.
    Failed(Reader),
    End,
}

// What one step comes to.
#[derive(Drop)]
pub enum Step {
    Answer(Next),
    // Nothing yet.
    More(Reader),
}

impl Reader {
    // At the start of an input.
    pub fn new() -> Self
        ensures { Stands 0 result × (result.left ≡ 1152921504606846976) }
    {
        Self {
            at: 0,
            seen: 0,
            end: 0,
            ended: false,
            skipping: false,
            left: STEPS_MOST,
        }
    }
}

// What comes next.
pub fn next_line<R: Read>(input: &mut R, buffer: &mut [u8], reader: Reader) -> Next
    requires { Stands (length buffer.old) reader }
    ensures { Nexts (length buffer.old) reader.left result }
{
    let mut r = reader;
    // No `for`: a step answers what is left.
    while 0 < r.left {
        r.left -= 1;
        match advance(input, buffer, r) {
            Step::Answer(next) => return next,
            Step::More(rest) => r = rest,
        }
    }
    Next::End
}

// One step: a line of what was read, or else a read.
fn advance<R: Read>(input: &mut R, buffer: &mut [u8], r: Reader) -> Step
    requires { Stands (length buffer.old) r }
    ensures { Steps (length buffer.old) (suc r.left) result }
{
    let stop = find_octet(buffer, r.seen, r.end, LINE_FEED);
    if stop < r.end {
        return cut(r, stop);
    }
    if r.ended {
        return Step::Answer(finish(r));
    }
    let ready = make_room(buffer, r);
    fill(input, buffer, ready)
}

// The first place between two places where an octet stands, or the second place.
fn find_octet(octets: &[u8], from: usize, to: usize, octet: u8) -> usize
    requires { (from ≤ to) × (to ≤ length octets.now) }
    ensures between { (from ≤ result) × (result ≤ to) }
    ensures before { (k : ℕ) → from ≤ k → k < result → slice_index octets.now k ≢ octet }
    ensures found { result < to → slice_index octets.now result ≡ octet }
{
    for i in from..to {
        if octets[i] == octet {
            return i;
        }
    }
    to
}

// The line that ends at a place, or the end of a line that is passed over.
fn cut(mut r: Reader, stop: usize) -> Step
    requires { (r.seen ≤ stop) × (stop < r.end) }
    ensures { (n : ℕ) → Stands n r → Steps n (suc r.left) result }
{
    let start = r.at;
    let next = stop + 1;
    r.at = next;
    r.seen = next;
    if r.skipping {
        r.skipping = false;
        return Step::More(r);
    }
    Step::Answer(Next::Line(start, stop, r))
}

// At the end of an input: a last line without a line end, or the end.
fn finish(mut r: Reader) -> Next
    ensures { (n : ℕ) → Stands n r → Nexts n (suc r.left) result }
{
    let start = r.at;
    let end = r.end;
    if r.skipping || start == end {
        return Next::End;
    }
    r.at = end;
    r.seen = end;
    Next::Line(start, end, r)
}

// Moves what is still wanted to the front, where the buffer is full or nothing is.
fn make_room(buffer: &mut [u8], mut r: Reader) -> Reader
    requires { Stands (length buffer.old) r }
    ensures { Goes (length buffer.old) (suc r.left) result }
{
    let at = wanted_from(r);
    let end = r.end;
    if at < end && end < buffer.len() {
        r.at = at;
        r.seen = end;
        return r;
    }
    shift(buffer, at, end);
    let rest = end - at;
    r.at = 0;
    r.seen = rest;
    r.end = rest;
    r
}

// Where the octets begin that are still wanted.
fn wanted_from(r: Reader) -> usize
    ensures { (n : ℕ) → Stands n r → result ≤ r.end }
{
    if r.skipping { r.end } else { r.at }
}

// Moves the octets between two places to the front.
fn shift(buffer: &mut [u8], from: usize, to: usize)
    requires { (from ≤ to) × (to ≤ length buffer.old) }
{
    buffer.copy_within(from..to, 0);
}

// One read behind what is there, if there is room.
fn fill<R: Read>(input: &mut R, buffer: &mut [u8], mut r: Reader) -> Step
    requires { Stands (length buffer.old) r }
    ensures { Steps (length buffer.old) (suc r.left) result }
{
    let end = r.end;
    if buffer.len() <= end {
        r.skipping = true;
        return Step::Answer(Next::Long(r));
    }
    match input.read(&mut buffer[end..]) {
        Ok(count) => {
            r.ended = count == 0;
            r.end = end + count;
            Step::More(r)
        }
        Err(_) => {
            r.ended = true;
            Step::Answer(Next::Failed(r))
        }
    }
}
