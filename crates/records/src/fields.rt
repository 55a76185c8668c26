// What a record says of a key, before its octets: collation, flag and text length.
ghost use Rattle.std.specs.Prelude.{◌≡◌, ◌≤◌, length};
ghost use Rattle.std.specs.Prelude.{Some};
ghost use Rattle.terms.specs.Refusals.{text_most};
ghost use Rattle.records.specs.Items.{rules, agrees, key_fits, field_octets};
ghost use Rattle.records.specs.Reading.{fields_in};

use super::KeyFields;
use terms::Collation;

// Whether a key of n octets with these fields can stand in a record.
pub fn key_fits(fields: KeyFields, n: usize) -> bool
    ensures { result ≡ key_fits rules fields n }
{
    if terms::TEXT_MOST < fields.text_length {
        return false;
    }
    match terms::collation_of(fields.collation) {
        Some(collation) => agree(collation, fields, n),
        None => false,
    }
}

// Whether flag and lengths are as the collation has them.
fn agree(collation: Collation, fields: KeyFields, n: usize) -> bool
    requires { fields.text_length ≤ text_most }
    ensures { result ≡ agrees (Some collation) fields n }
{
    match fields.valid {
        0 => terms::reads_table(collation) && n == fields.text_length,
        1 if terms::reads_table(collation) => n <= terms::EXPANSION_MOST * fields.text_length,
        1 => n == fields.text_length,
        _ => false,
    }
}

// The fields that the body of a key begins with.
pub fn read_fields(body: &[u8]) -> KeyFields
    requires { 4 ≤ length body.now }
    ensures { result ≡ fields_in body.now }
{
    KeyFields {
        collation: body[0] as u32,
        valid: body[1] as u64,
        text_length: u16::from_le_bytes([body[2], body[3]]) as usize,
    }
}

// The octets of the fields, as an array that can be lent before the key's own.
pub fn field_octets(fields: KeyFields) -> [u8; 4]
    ensures { result ≡ field_octets fields }
{
    let n = fields.text_length;
    [
        (fields.collation % 256) as u8,
        (fields.valid % 256) as u8,
        (n % 256) as u8,
        (n / 256 % 256) as u8,
    ]
}
