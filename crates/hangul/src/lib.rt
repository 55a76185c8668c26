// Hangul syllables and the jamo that they decompose into (document 02, request 4; the Unicode Standard, section 3.12).
//
// The constants have the Standard's names. Nothing is read but the code point itself.

#![tactic(auto)]

ghost use Rattle.std.specs.Prelude.{◌≡◌, true};
ghost use Rattle.hangul.specs.Hangul.{syllable, syllable_parts};
ghost use Rattle.hangul.specs.Promises.{jamo_of};

use terms::CodePoint;

// The first syllable, the first leading consonant, the first vowel, and one below the first trailing consonant.
pub const S_BASE: u32 = 0xAC00;

pub const L_BASE: u32 = 0x1100;

pub const V_BASE: u32 = 0x1161;

pub const T_BASE: u32 = 0x11A7;

// How many leading consonants and vowels there are, and trailing ones with none as the first.
pub const L_COUNT: u32 = 19;

pub const V_COUNT: u32 = 21;

pub const T_COUNT: u32 = 28;

// How many syllables begin with one leading consonant, and how many there are.
pub const N_COUNT: u32 = V_COUNT * T_COUNT;

pub const S_COUNT: u32 = L_COUNT * N_COUNT;

// Whether a code point is a syllable.
#[tactic(auto, unfolding(crate::specs::Hangul::syllable))]
pub fn is_syllable(c: CodePoint) -> bool
    ensures { result ≡ syllable c.0 }
{
    (S_BASE..S_BASE + S_COUNT).contains(&c.0)
}

// The jamo of a syllable, the third being T_BASE where it has no trailing consonant.
#[tactic(auto, unfolding(crate::specs::Hangul::syllable, crate::specs::Promises::jamo_of))]
pub fn jamo_of(c: CodePoint) -> [u32; 3]
    requires { syllable c.0 ≡ true }
    ensures { result ≡ jamo_of c.0 }
{
    let s = c.0 - S_BASE;
    let leading = L_BASE + s / N_COUNT;
    let vowel = V_BASE + s % N_COUNT / T_COUNT;
    let trailing = T_BASE + s % T_COUNT;
    [leading, vowel, trailing]
}

// The decomposition of a syllable, as a part of its three jamo.
#[tactic(auto, unfolding(crate::specs::Hangul::syllable_parts, crate::specs::Promises::jamo_of))]
pub fn parts_among<'a>(c: CodePoint, jamo: &'a [u32]) -> &'a [u32]
    requires c_value { syllable c.0 ≡ true }
    requires jamo_value { jamo.now ≡ jamo_of c.0 }
    ensures { result.now ≡ syllable_parts c.0 }
{
    if jamo[2] == T_BASE { &jamo[..2] } else { jamo }
}
