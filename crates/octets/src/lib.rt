// Octets: how two slices of them are ordered, and putting some at the start of a slice.

#![tactic(auto)]

ghost use Rattle.std.specs.Prelude.{◌≡◌, ◌⊎◌, ◌+◌, ◌≤◌, length, take, drop};
ghost use Rattle.terms.specs.Lists.{put_at};
ghost use Rattle.octets.specs.Order.{order_of, compared_order};
ghost use Rattle.octets.specs.Put.{Puts};

use std::cmp::{Ordering, min};

// The most octets that are written in blocks. More are quicker octet by octet, in a loop that the compiler widens.
const IN_BLOCKS_MOST: usize = 32;

// The order of two slices: octet by octet, unsigned; a proper prefix is less. The first four octets tell most of them apart:
// that much is inlined where this is called, and the rest, called from two places, is not.
// Not by std's `cmp` of slices, which takes a fifth to two thirds longer where they differ before their end, as keys mostly do.
pub fn compare_octets(a: &[u8], b: &[u8]) -> Ordering
    ensures { compared_order result ≡ order_of a.now b.now }
{
    match (a.split_first_chunk::<4>(), b.split_first_chunk::<4>()) {
        (Some((start_a, rest_a)), Some((start_b, rest_b))) => {
            let x = u32::from_be_bytes(*start_a);
            let y = u32::from_be_bytes(*start_b);
            // Not by `cmp`, which makes a number of the order before it is asked.
            if x < y {
                return Ordering::Less;
            }
            if y < x {
                return Ordering::Greater;
            }
            compare_blocks(rest_a, rest_b)
        }
        _ => compare_blocks(a, b),
    }
}

// The same, eight octets at a time. Never inlined, or its caller would not be.
#[inline(never)]
fn compare_blocks(a: &[u8], b: &[u8]) -> Ordering
    ensures { compared_order result ≡ order_of a.now b.now }
{
    let mut left_a = a;
    let mut left_b = b;
    // No `for`: both slices get shorter by a block at a time.
    while let (Some((block_a, rest_a)), Some((block_b, rest_b))) = (
        left_a.split_first_chunk::<8>(),
        left_b.split_first_chunk::<8>(),
    ) {
        match u64::from_be_bytes(*block_a).cmp(&u64::from_be_bytes(*block_b)) {
            Ordering::Equal => {
                left_a = rest_a;
                left_b = rest_b;
            }
            unequal => return unequal,
        }
    }
    compare_each(left_a, left_b)
}

// The same, octet by octet.
fn compare_each(a: &[u8], b: &[u8]) -> Ordering
    ensures { compared_order result ≡ order_of a.now b.now }
{
    for i in 0..min(a.len(), b.len()) {
        if a[i] != b[i] {
            return a[i].cmp(&b[i]);
        }
    }
    a.len().cmp(&b.len())
}

// Writes octets at the start of a slice that has room for them, and answers how many they are.
pub fn put_octets(octets: &[u8], out: &mut [u8]) -> usize
    requires { length octets.now ≤ length out.old }
    ensures { Puts octets.now out.old result out.new }
{
    let n = octets.len();
    if n < 4 || IN_BLOCKS_MOST < n {
        return put_each(octets, out);
    }
    // No `for`: how far the last block is from the one before it depends on what is left.
    let mut i = 0;
    loop {
        put_four(octets, i, out);
        i += 4;
        if n - i <= 4 {
            // The last block has octets of the one before again, if fewer than four are left.
            put_four(octets, n - 4, out);
            return n;
        }
    }
}

// The same, octet by octet: less code where it is inlined, for octets that are few. Not by `copy_from_slice`, which calls memmove.
pub fn put_each(octets: &[u8], out: &mut [u8]) -> usize
    requires { length octets.now ≤ length out.old }
    ensures { Puts octets.now out.old result out.new }
{
    for i in 0..octets.len() {
        out[i] = octets[i];
    }
    octets.len()
}

// Writes four octets, those from a place on, at the same place of a slice. All are read before one is written, so that the
// compiler can move them at once.
fn put_four(octets: &[u8], at: usize, out: &mut [u8])
    requires at_in_bounds { at + 4 ≤ length octets.now }
    requires octets_in_bounds { length octets.now ≤ length out.old }
    ensures { out.new ≡ put_at at (take 4 (drop at octets.now)) out.old }
{
    // Not by `copy_from_slice`, which takes half as long again for 4 to 32 octets.
    let a = octets[at];
    let b = octets[at + 1];
    let c = octets[at + 2];
    let d = octets[at + 3];
    out[at] = a;
    out[at + 1] = b;
    out[at + 2] = c;
    out[at + 3] = d;
}
