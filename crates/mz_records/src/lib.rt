// The calls of the C interface on records (include/mundeziwa.h): each function calls one of the library's and stores the answer
// as a row of numbers. mz_records_c exports them.
//
// All take any arguments at all. That pointers and lengths are what the header says of them is the C caller's part: no proof
// sees it.

#![tactic(auto)]

mod rows;

ghost use Rattle.std.specs.Prelude.{◌≡◌};
ghost use Rattle.terms.specs.Refusals.{row};
ghost use Rattle.records.specs.Items.{rules, of_text, of_key};
ghost use Rattle.records.specs.Reading.{read_at, reading_outcome};
ghost use Rattle.mz_records.specs.Promises.{fields_of, WritesRow};

use records::KeyFields;
use rows::{reading_row, writing_row};
use terms::RecordPosition;

// Reads the record at a position.
pub fn mz_read_record(records: &[u8], position: u64, answer: &mut [u64; 9])
    ensures { answer.new ≡ row 6 (reading_outcome (read_at rules records.now position)) }
{
    let read = records::read_record(records, RecordPosition(position as usize));
    *answer = reading_row(read);
}

// Writes the record of a text at a position.
pub fn mz_write_text(text: &[u8], records: &mut [u8], position: u64, answer: &mut [u64; 4])
    ensures { WritesRow (of_text text.now) position records.old answer.new
        records.new }
{
    let written = records::write_text(text, records, RecordPosition(position as usize));
    *answer = writing_row(written);
}

// Writes the record of a key at a position.
pub fn mz_write_key(
    collation: u32,
    valid: u64,
    text_length: u64,
    key: &[u8],
    records: &mut [u8],
    position: u64,
    answer: &mut [u64; 4],
)
    ensures { WritesRow (of_key (fields_of collation valid text_length) key.now) position
        records.old answer.new records.new }
{
    let fields = KeyFields {
        collation,
        valid,
        text_length: text_length as usize,
    };
    let written = records::write_key(fields, key, records, RecordPosition(position as usize));
    *answer = writing_row(written);
}
