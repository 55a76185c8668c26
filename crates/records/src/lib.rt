// Records (document 02, request 2): texts and keys one after another in a slice, each after its length and its kind.
//
// The definitions stand in specs/. No public function has a `requires`: any octets, any position and any numbers get an answer,
// and a slice is written only where the whole record is.

#![tactic(auto)]

mod fields;
mod reading;
mod writing;

ghost use Rattle.std.specs.Prelude.{◌≡◌};
ghost use Rattle.terms.specs.Refusals.{refusal};
ghost use Rattle.records.specs.Items.{rules, list_rules, of_text, of_key};
ghost use Rattle.records.specs.Kinds.{kind_number, kind_numbered};
ghost use Rattle.records.specs.Reading.{read_at, reading_outcome, record_outcome};
ghost use Rattle.records.specs.Writing.{Writes};
ghost use Rattle.terms.specs.Reasons.{reason_number};

use terms::{Reason, RecordPosition, Refusal};

// What a record says of a key: the number of its collation, 1 if the text was valid under it else 0, and the text's length.
#[derive(Clone, Copy)]
pub struct KeyFields {
    pub collation: u32,
    pub valid: u64,
    pub text_length: usize,
}

// The kinds of record.
#[derive(Clone, Copy)]
pub enum Kind {
    Text,
    Key,
}

impl Kind {
    // Its number in a record.
    pub fn number(self) -> u16
        ensures { result ≡ kind_number self }
    {
        match self {
            Kind::Text => 1,
            Kind::Key => 2,
        }
    }

    // The kind of a number, if it is one's.
    pub fn of(number: u16) -> Option<Kind>
        ensures { result ≡ kind_numbered number }
    {
        match number {
            1 => Some(Kind::Text),
            2 => Some(Kind::Key),
            _ => None,
        }
    }
}

// What is read at a position: the octets of a text or a key from a start to an end, which is the next record's position.
#[derive(Clone, Copy)]
pub enum Record {
    // The end of the slice.
    End,
    Text(RecordPosition, RecordPosition),
    Key(KeyFields, RecordPosition, RecordPosition),
}

// Reads the record at a position.
pub fn read_record(records: &[u8], position: RecordPosition) -> Result<Record, Refusal>
    ensures { record_outcome result ≡ reading_outcome (read_at rules records.now position.0) }
{
    reading::read_at(records, position, true)
}

// Reads the record at a position of a list: one that is no text is refused with 12, whatever its body.
pub fn read_name(records: &[u8], position: RecordPosition) -> Result<Record, Refusal>
    ensures { record_outcome result ≡ reading_outcome (read_at list_rules records.now position.0) }
{
    reading::read_at(records, position, false)
}

// Writes the record of a text at a position, and answers the position after it.
pub fn write_text(
    text: &[u8],
    records: &mut [u8],
    position: RecordPosition,
) -> Result<RecordPosition, Refusal>
    ensures { Writes (of_text text.now) position.0 records.old result records.new }
{
    if terms::TEXT_MOST < text.len() {
        return Err(refusal(Reason::RecordBody, 0));
    }
    writing::write_body(Kind::Text, &[], text, records, position)
}

// Writes the record of a key at a position, and answers the position after it.
pub fn write_key(
    fields: KeyFields,
    key: &[u8],
    records: &mut [u8],
    position: RecordPosition,
) -> Result<RecordPosition, Refusal>
    ensures { Writes (of_key fields key.now) position.0 records.old result records.new }
{
    if !fields::key_fits(fields, key.len()) {
        return Err(refusal(Reason::RecordBody, 0));
    }
    let octets = fields::field_octets(fields);
    writing::write_body(Kind::Key, &octets, key, records, position)
}

// A refusal by number and detail, with place 0.
fn refusal(reason: Reason, detail: usize) -> Refusal
    ensures { result ≡ refusal (reason_number reason) 0 detail }
{
    Refusal {
        number: reason.number(),
        place: 0,
        detail: detail as u64,
    }
}
