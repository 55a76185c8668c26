// The library's answers on records as rows of numbers: refusal number (0 if not refused), place, detail, and then the values of
// the call.
ghost use Rattle.std.specs.Prelude.{◌≡◌};
ghost use Rattle.terms.specs.Refusals.{row};
ghost use Rattle.records.specs.Reading.{record_outcome};
ghost use Rattle.records.specs.Writing.{written_outcome};

use records::{Kind, Record};
use terms::{RecordPosition, Refusal};

// The row of what was read: what is there, collation, flag and text length of a key, start and end of the octets.
pub fn reading_row(read: Result<Record, Refusal>) -> [u64; 9]
    ensures { result ≡ row 6 (record_outcome read) }
{
    match read {
        Ok(Record::End) => [0; 9],
        Ok(Record::Text(start, end)) => [
            0,
            0,
            0,
            Kind::Text.number() as u64,
            0,
            0,
            0,
            start.0 as u64,
            end.0 as u64,
        ],
        Ok(Record::Key(fields, start, end)) => [
            0,
            0,
            0,
            Kind::Key.number() as u64,
            fields.collation as u64,
            fields.valid,
            fields.text_length as u64,
            start.0 as u64,
            end.0 as u64,
        ],
        Err(r) => terms::refused_row(r),
    }
}

// The row of what was written: the position after it.
pub fn writing_row(written: Result<RecordPosition, Refusal>) -> [u64; 4]
    ensures { result ≡ row 1 (written_outcome written) }
{
    match written {
        Ok(position) => [0, 0, 0, position.0 as u64],
        Err(r) => terms::refused_row(r),
    }
}
