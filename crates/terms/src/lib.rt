// The terms that all crates share (documents 01 and 02): the kinds of number that must not be mixed, refusals, limits.
//
// Three functions stand here, since several crates ask them: whether a number is scalar, which collation a number names, and
// whether a collation reads the table.

#![tactic(auto)]

ghost use Rattle.std.specs.Prelude.{◌≡◌, ◌-◌, ◌≤◌};
ghost use Rattle.terms.specs.CodePoints.{scalar};
ghost use Rattle.terms.specs.Reasons.{reason_number};
ghost use Rattle.terms.specs.Refusals.{refused, row};
ghost use Rattle.terms.specs.Collations.{collation_of, reads_table};

use std::marker::Model;

// A code point's number: "Code point numbers and octet positions are counted apart".
#[derive(Clone, Copy)]
pub struct CodePoint(pub u32);

// A position in a key, in octets from its start.
#[derive(Clone, Copy)]
pub struct KeyPosition(pub usize);

// A position in a text, in octets from its start.
#[derive(Clone, Copy)]
pub struct TextPosition(pub usize);

// A position in a slice of records, in octets from its start.
#[derive(Clone, Copy)]
pub struct RecordPosition(pub usize);

// What a call is refused for, by its number in documents 01 and 02.
#[derive(Clone, Copy, PartialEq, Eq, Debug)]
pub enum Reason {
    // 1: the number names no collation
    Collation,
    // 2: a text is too long
    TextLength,
    // 3: a slice of the table has a wrong length
    TableSize,
    // 4: a code point or titlecase of an entry
    CodePoint,
    // 5: an entry, or what is left of the pool
    Entry,
    // 6: a pool number
    PoolNumber,
    // 7: the levels or the size of what a code point unfolds into
    Level,
    // 8: a slice that is lent for an answer is too short
    Room,
    // 9: a line of the program has no tab
    NoTab,
    // 11: the length of a record
    RecordLength,
    // 12: its kind
    RecordKind,
    // 13: its body
    RecordBody,
    // 14: too many names, or ends of octet strings
    Count,
    // 15: a page slice is too short
    Pages,
    // 20: a line is too long
    LineLength,
    // 21: a line has another number of fields
    FieldCount,
    // 22: field 0 is malformed
    Field0,
    // 23: field 5 is
    Field5,
    // 24: field 14 is
    Field14,
    // 25: a surrogate, or a syllable, with a mapping
    Surrogate,
    // 26: a code point that is not above the last
    Order,
    // 27: no room in the table
    TableRoom,
    // 28: a state that no line can have left
    State,
    // 29: field 12 is malformed
    Field12,
    // 36: an end of an octet string
    End,
    // 37: fewer ends than names of the first list
    FirstCount,
}

impl Reason {
    // Its number.
    pub fn number(self) -> u32
        ensures { result ≡ reason_number self }
    {
        match self {
            Reason::Collation => 1,
            Reason::TextLength => 2,
            Reason::TableSize => 3,
            Reason::CodePoint => 4,
            Reason::Entry => 5,
            Reason::PoolNumber => 6,
            Reason::Level => 7,
            Reason::Room => 8,
            Reason::NoTab => 9,
            Reason::RecordLength => 11,
            Reason::RecordKind => 12,
            Reason::RecordBody => 13,
            Reason::Count => 14,
            Reason::Pages => 15,
            Reason::LineLength => 20,
            Reason::FieldCount => 21,
            Reason::Field0 => 22,
            Reason::Field5 => 23,
            Reason::Field14 => 24,
            Reason::Surrogate => 25,
            Reason::Order => 26,
            Reason::TableRoom => 27,
            Reason::State => 28,
            Reason::Field12 => 29,
            Reason::End => 36,
            Reason::FirstCount => 37,
        }
    }
}

// Why a call is refused: its number in documents 01 and 02, which text or list (1 or 2, 0 neither), and the detail.
#[derive(Clone, Copy)]
pub struct Refusal {
    pub number: u32,
    pub place: u32,
    pub detail: u64,
}

impl Model for Refusal {
    ghost use Rattle.terms.specs.Reasons.{Refused};

    ghost Value = { Refused };

    ghost use Rattle.terms.specs.Views.{refused_by, refusing, refusing-refused_by};

    ghost view = { refused_by };

    ghost inverse = { refusing };

    ghost inverse_ok = { λ a _. refusing-refused_by a };
}

// The collations of document 01. A number becomes one by `collation_of` alone.
#[derive(Clone, Copy, PartialEq, Eq, Debug)]
pub enum Collation {
    // i;octet
    Octet,
    // i;ascii-casemap
    AsciiCasemap,
    // i;unicode-casemap
    UnicodeCasemap,
}

// The collations' numbers.
pub const OCTET: u32 = 1;

pub const ASCII_CASEMAP: u32 = 2;

pub const UNICODE_CASEMAP: u32 = 3;

// The longest text that is taken, in octets.
pub const TEXT_MOST: usize = 4096;
// The most entries of a table, and the most numbers of a pool.
pub const ENTRIES_MOST: usize = 16384;

pub const POOL_MOST: usize = 65536;
// The most parts of one decomposition.
pub const PARTS_MOST: usize = 32;
// The most levels, and the most code points of a full decomposition, of a code point in an accepted table.
pub const LEVELS_MOST: usize = 8;

pub const FULL_MOST: usize = 32;
// The most octets of the expansion of one character over an accepted table.
pub const EXPANSION_MOST: usize = 128;
// The longest line of UnicodeData.txt that is taken, in octets.
pub const LINE_MOST: usize = 512;

// The most names of a list.
pub const NAMES_MOST: usize = 1024;

// The most octet strings in one slice that are told by their ends.
pub const ENDS_MOST: usize = 4294967295;

// The numbers of a page slice that are filled: one for each page of 64 code points.
pub const PAGES_MOST: usize = 17408;

// Whether a number is a scalar code point.
pub fn is_scalar(c: u32) -> bool
    ensures { result ≡ scalar c }
{
    matches!(c, 0..=0xD7FF | 0xE000..=0x10FFFF)
}

// The collation that a number names, if it names one.
pub fn collation_of(number: u32) -> Option<Collation>
    ensures { result ≡ collation_of number }
{
    match number {
        OCTET => Some(Collation::Octet),
        ASCII_CASEMAP => Some(Collation::AsciiCasemap),
        UNICODE_CASEMAP => Some(Collation::UnicodeCasemap),
        _ => None,
    }
}

// Whether a collation reads the table.
pub fn reads_table(collation: Collation) -> bool
    ensures { result ≡ reads_table collation }
{
    matches!(collation, Collation::UnicodeCasemap)
}

// The row of a refused call, of any length: refusal number, place and detail, and 0 for every value.
pub fn refused_row<const N: usize>(r: Refusal) -> [u64; N]
    requires { 3 ≤ N }
    ensures { result ≡ row (N - 3) (refused r) }
{
    let mut row = [0; N];
    row[0] = r.number as u64;
    row[1] = r.place as u64;
    row[2] = r.detail;
    row
}
