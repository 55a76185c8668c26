// The octet sequences of UTF-8 (RFC 3629, section 3): how long one is by its first octet, and what its octets come to.
ghost use Rattle.std.specs.Prelude.{◌≡◌, true, ◌+◌, ◌-◌, ◌*◌, ◌≤◌, ◌<◌};
ghost use Rattle.std.specs.Prelude.{Some};
ghost use Rattle.terms.specs.Lists.{there};
ghost use Rattle.utf8.specs.Utf8.{announced, trailed};

// How many octets the sequence has that an octet begins, by its leading ones (RFC 3629, section 3); none where it begins none.
#[tactic(auto, using(crate::proofs::Lengths::announced_counted), unfolding(crate::specs::Utf8::announced))]
pub fn sequence_length(first: u8) -> Option<usize>
    ensures { result ≡ announced first }
{
    // Asked apart, so that of ASCII nothing is counted.
    if first.is_ascii() {
        return Some(1);
    }
    match first.leading_ones() {
        ..=1 => None,
        ..=2 => Some(2),
        ..=3 => Some(3),
        ..=4 => Some(4),
        _ => None,
    }
}

// The number of the bits `bits` and of those of the octets that `rest` begins with, `count` of them, where all trail.
pub fn join(count: usize, bits: u32, rest: &[u8]) -> u32
    requires count_bound { count ≤ 3 }
    requires bits_bound { bits < 0x20 }
    requires rest_value { there (trailed count bits rest.now) ≡ true }
    ensures { Some result ≡ trailed count bits rest.now }
{
    let mut code = bits;
    for &octet in &rest[..count] {
        code = append_bits(code, octet as u32);
    }
    code
}

// A number with the six bits of an octet that continues a character put after its own.
fn append_bits(code: u32, octet: u32) -> u32
    requires code_bound { code < 0x20000 }
    requires le_octet { 0x80 ≤ octet }
    requires octet_bound { octet < 0xC0 }
    ensures { result ≡ code * 64 + (octet - 0x80) }
{
    code * 64 + (octet - 0x80)
}
