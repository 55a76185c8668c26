// For C (include/mundeziwa.h), the calls on records: each function calls the one of its name in mz_records, and promises what
// that promises.

#![tactic(auto)]

ghost use Rattle.std.specs.Prelude.{◌≡◌};
ghost use Rattle.terms.specs.Refusals.{row};
ghost use Rattle.records.specs.Items.{rules, of_text, of_key};
ghost use Rattle.records.specs.Reading.{read_at, reading_outcome};
ghost use Rattle.mz_records.specs.Promises.{fields_of, WritesRow};

// Reads the record at a position.
#[unsafe(no_mangle)]
pub extern "C" fn mz_read_record(records: &[u8], position: u64, answer: &mut [u64; 9])
    ensures { answer.new ≡ row 6 (reading_outcome (read_at rules records.now position)) }
{
    mz_records::mz_read_record(records, position, answer);
}

// Writes the record of a text at a position.
#[unsafe(no_mangle)]
pub extern "C" fn mz_write_text(
    text: &[u8],
    records: &mut [u8],
    position: u64,
    answer: &mut [u64; 4],
)
    ensures { WritesRow (of_text text.now) position records.old answer.new
        records.new }
{
    mz_records::mz_write_text(text, records, position, answer);
}

// Writes the record of a key at a position.
#[unsafe(no_mangle)]
pub extern "C" fn mz_write_key(
    collation: u32,
    valid: u64,
    text_length: u64,
    key: &[u8],
    records: &mut [u8],
    position: u64,
    answer: &mut [u64; 4],
)
    ensures { WritesRow (of_key (fields_of collation valid text_length) key.now) position
        records.old answer.new records.new }
{
    mz_records::mz_write_key(
        collation,
        valid,
        text_length,
        key,
        records,
        position,
        answer,
    );
}
