// Numbers as texts write them, and how they are ordered (RFC 4790, section 9.1, i;ascii-numeric).
//
// No number is computed, so that texts of any length are compared, each in one pass over its digits.

#![tactic(auto)]

ghost use Rattle.std.specs.Prelude.{◌≡◌, not, drop};
ghost use Prim.Native.Nat.{compare};
ghost use Rattle.terms.specs.Lists.{empty};
ghost use Rattle.octets.specs.Order.{and_then, compared_order};
ghost use Rattle.numeric.specs.Numbers.{digit, run, magnitude_of, order_of_magnitudes};
ghost use Rattle.numeric.specs.Runs.{leading_zeros, shorter_first};

use std::cmp::Ordering;

// The lowest and the highest digit: "US-ASCII digits (0x30 to 0x39) represent digits of the numbers."
const ZERO: u8 = 0x30;

const NINE: u8 = 0x39;

// The order of the numbers that two texts write. A text that starts with no digit is infinity, above every number.
pub fn compare_numbers(first: &[u8], second: &[u8]) -> Ordering
    ensures { compared_order result ≡ order_of_magnitudes (magnitude_of first.now) (magnitude_of second.now) }
{
    match (digit_at(first, 0), digit_at(second, 0)) {
        (true, true) => compare_runs(&first[zeros(first)..], &second[zeros(second)..]),
        (true, false) => Ordering::Less,
        (false, true) => Ordering::Greater,
        (false, false) => Ordering::Equal,
    }
}

// The order of the runs of digits that two texts begin with: the longer is greater, else the first difference decides. Both are
// walked at once, so that of the longer no more is read than the shorter has.
fn compare_runs(first: &[u8], second: &[u8]) -> Ordering
    ensures { compared_order result ≡ shorter_first (run first.now) (run second.now) }
{
    let mut difference = Ordering::Equal;
    // No `for`: where it ends neither text alone tells.
    let mut i = 0;
    while digit_at(first, i) {
        if !digit_at(second, i) {
            return Ordering::Greater;
        }
        difference = first_difference(difference, first[i], second[i]);
        i += 1;
    }
    if digit_at(second, i) {
        return Ordering::Less;
    }
    difference
}

// How many zeros a text begins with.
fn zeros(text: &[u8]) -> usize
    ensures { result ≡ leading_zeros text.now }
{
    for i in 0..text.len() {
        if text[i] != ZERO {
            return i;
        }
    }
    text.len()
}

// Whether a text has a digit at a place, which may be past its end.
fn digit_at(text: &[u8], i: usize) -> bool
    ensures { result ≡ not (empty (run (drop i text.now))) }
{
    if i < text.len() {
        is_digit(text[i])
    } else {
        false
    }
}

// Whether an octet is a digit.
fn is_digit(octet: u8) -> bool
    ensures { result ≡ digit octet }
{
    (ZERO..=NINE).contains(&octet)
}

// The difference so far, and where there is none that of two digits.
fn first_difference(so_far: Ordering, x: u8, y: u8) -> Ordering
    ensures { compared_order result ≡ and_then (compared_order so_far) (compare x y) }
{
    so_far.then(x.cmp(&y))
}
