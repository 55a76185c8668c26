// Reading one record.
ghost use Rattle.std.specs.Prelude.{◌≡◌, ◌≤◌, length};
ghost use Rattle.records.specs.Items.{rules};
ghost use Rattle.records.specs.Reading.{item_in, judged, read_following, read_at, reading_outcome, record_outcome};
ghost use Rattle.records.specs.Promises.{rules_for, whole_length};

use super::fields::{key_fits, read_fields};
use super::{Kind, Record, refusal};
use terms::{Reason, RecordPosition, Refusal};

// Reads the record at a position: a text, and where keys are read too a key, which is else refused with 12.
pub fn read_at(records: &[u8], position: RecordPosition, keys: bool) -> Result<Record, Refusal>
    ensures { record_outcome result ≡ reading_outcome (read_at (rules_for keys) records.now position.0) }
{
    let at = position.0;
    if at == records.len() {
        return Ok(Record::End);
    }
    if records.len() < at {
        return Err(refusal(Reason::RecordLength, 0));
    }
    let rest = &records[at..];
    match frame_of(rest) {
        Some(n) => read_following(&rest[4..4 + n], RecordPosition(at + 4 + n), keys),
        None => Err(refusal(Reason::RecordLength, 0)),
    }
}

// The length of the record that the octets begin with, unless 11 applies.
fn frame_of(rest: &[u8]) -> Option<usize>
    ensures { result ≡ whole_length rest.now }
{
    let (said, left) = rest.split_first_chunk::<4>()?;
    let n = u32::from_le_bytes(*said) as usize;
    // What is left is compared with the length: position and length together may wrap.
    if left.len() < n || n < 2 {
        return None;
    }
    Some(n)
}

// Reads what follows the length of a record that ends at a position: its kind and its body.
fn read_following(octets: &[u8], next: RecordPosition, keys: bool) -> Result<Record, Refusal>
    requires in_bounds { 2 ≤ length octets.now }
    requires octets_len_bound { length octets.now ≤ next.0 }
    ensures { record_outcome result ≡ reading_outcome (read_following (rules_for keys) next.0 octets.now) }
{
    let body = &octets[2..];
    match Kind::of(u16::from_le_bytes([octets[0], octets[1]])) {
        Some(Kind::Text) => read_text(body, next),
        Some(Kind::Key) if keys => read_key(body, next),
        _ => Err(refusal(Reason::RecordKind, 0)),
    }
}

// Reads a text that ends at a position.
fn read_text(body: &[u8], next: RecordPosition) -> Result<Record, Refusal>
    requires { length body.now ≤ next.0 }
    ensures { record_outcome result ≡ reading_outcome (judged rules next.0 (item_in 1 body.now)) }
{
    if terms::TEXT_MOST < body.len() {
        return Err(refusal(Reason::RecordBody, 0));
    }
    Ok(Record::Text(RecordPosition(next.0 - body.len()), next))
}

// Reads a key that ends at a position.
fn read_key(body: &[u8], next: RecordPosition) -> Result<Record, Refusal>
    requires { length body.now ≤ next.0 }
    ensures { record_outcome result ≡ reading_outcome (judged rules next.0 (item_in 2 body.now)) }
{
    if body.len() < 4 {
        return Err(refusal(Reason::RecordBody, 0));
    }
    let n = body.len() - 4;
    let fields = read_fields(body);
    if !key_fits(fields, n) {
        return Err(refusal(Reason::RecordBody, 0));
    }
    Ok(Record::Key(fields, RecordPosition(next.0 - n), next))
}
