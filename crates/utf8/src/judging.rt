// The automaton that judges a text octet by octet (RFC 3629, section 4), as a row of bits for each octet. A state is a place in
// a row, so that a row shifted by a state begins with the next one.
ghost use Rattle.std.specs.Prelude.{◌≡◌};
ghost use Rattle.terms.specs.Lists.{there};
ghost use Rattle.utf8.specs.Utf8.{characters};
ghost use Rattle.utf8.specs.Judging.{row_of};

// Whether a text is UTF-8 from its start to its end: one shift for each octet, and no branch on what the octet is.
pub fn judge(text: &[u8]) -> bool
    ensures { result ≡ there (characters text.now) }
{
    // Only the low six bits are the state; the other bits of the shifted row fall away with the next shift.
    let mut state: u64 = 0;
    for &octet in text {
        state = row_of(octet) >> (state % 64);
    }
    state % 64 == 0
}

// The row of an octet: at the place of each state, six bits with the place of the state that the octet leads to.
fn row_of(octet: u8) -> u64
    ensures { result ≡ row_of octet }
{
    ROWS.as_flattened()[usize::from(octet)]
}

// The rows: those of ASCII and of the octets that begin none; the others, of the octets that continue a character (80 to 8F, 90 to 9F,
// A0 to BF) and of those that begin two, three or four, are each named by the first octet that has it.
const ASCII: u64 = 0x0030C30C30C30C00;

const X80: u64 = 0x00303301B0306030;

const X90: u64 = 0x0030C0C1B0306030;

const XA0: u64 = 0x0030C0CC06306030;

const XC2: u64 = 0x0030C30C30C30C06;

const XE0: u64 = 0x0030C30C30C30C18;

const XE1: u64 = 0x0030C30C30C30C0C;

const XED: u64 = 0x0030C30C30C30C1E;

const XF0: u64 = 0x0030C30C30C30C24;

const XF1: u64 = 0x0030C30C30C30C12;

const XF4: u64 = 0x0030C30C30C30C2A;

const NONE: u64 = 0x0030C30C30C30C30;

// The rows of all octets, sixteen by sixteen: one load for each octet.
static ROWS: [[u64; 16]; 16] = [
    [ASCII; 16],
    [ASCII; 16],
    [ASCII; 16],
    [ASCII; 16],
    [ASCII; 16],
    [ASCII; 16],
    [ASCII; 16],
    [ASCII; 16],
    [X80; 16],
    [X90; 16],
    [XA0; 16], // A0 to AF
    [XA0; 16], // B0 to BF
    [
        NONE, NONE, XC2, XC2, XC2, XC2, XC2, XC2, XC2, XC2, XC2, XC2, XC2, XC2, XC2, XC2,
    ],
    [XC2; 16],
    [
        XE0, XE1, XE1, XE1, XE1, XE1, XE1, XE1, XE1, XE1, XE1, XE1, XE1, XED, XE1, XE1,
    ],
    [
        XF0, XF1, XF1, XF1, XF4, NONE, NONE, NONE, NONE, NONE, NONE, NONE, NONE, NONE, NONE, NONE,
    ],
];
