// Writing one record, where there is room for it.
ghost use Rattle.std.specs.Prelude.{◌≡◌, ◌++◌, ◌+◌, ◌*◌, ◌≤◌, length};
ghost use Rattle.terms.specs.Refusals.{text_most, expansion_most};
ghost use Rattle.octets.specs.Put.{Puts};
ghost use Rattle.records.specs.Numbers.{little_endian};
ghost use Rattle.records.specs.Items.{framed};
ghost use Rattle.records.specs.Kinds.{kind_number};
ghost use Rattle.records.specs.Promises.{WritesBody};

use super::{Kind, refusal};
use octets::{put_each, put_octets};
use terms::{Reason, RecordPosition, Refusal};

// The octets of a record before its body: the length and the kind.
const FRAME: usize = 6;

// Writes a record of a kind at a position; its body is the fields and then the octets.
pub fn write_body(
    kind: Kind,
    fields: &[u8],
    octets: &[u8],
    records: &mut [u8],
    position: RecordPosition,
) -> Result<RecordPosition, Refusal>
    requires fields_len_bound { length fields.now ≤ 4 }
    requires octets_len_bound { length octets.now ≤ expansion_most * text_most }
    ensures { WritesBody (kind_number kind) (fields.now ++ octets.now) position.0 records.old
        result records.new }
{
    let at = position.0;
    let whole = FRAME + (fields.len() + octets.len());
    if records.len() < at || records.len() - at < whole {
        return Err(refusal(Reason::Room, whole));
    }
    put_record(kind, fields, octets, &mut records[at..]);
    Ok(RecordPosition(at + whole))
}

// Puts a record of a kind at the start of a slice that has room for it, and answers how many octets it has.
fn put_record(kind: Kind, fields: &[u8], octets: &[u8], out: &mut [u8]) -> usize
    requires room { 6 + (length fields.now + length octets.now) ≤ length out.old }
    requires octets_len_bound { length octets.now ≤ expansion_most * text_most }
    requires fields_len_bound { length fields.now ≤ 4 }
    ensures { Puts (framed (kind_number kind) (fields.now ++ octets.now)) out.old result out.new }
{
    let following = 2 + (fields.len() + octets.len());
    let n = put_each(&(following as u32).to_le_bytes(), out);
    n + put_following(kind, fields, octets, &mut out[n..])
}

// Puts what follows the length of a record: its kind and its body.
fn put_following(kind: Kind, fields: &[u8], octets: &[u8], out: &mut [u8]) -> usize
    requires { 2 + (length fields.now + length octets.now) ≤ length out.old }
    ensures { Puts (little_endian 2 (kind_number kind) ++ (fields.now ++ octets.now)) out.old result
        out.new }
{
    let n = put_each(&kind.number().to_le_bytes(), out);
    n + put_body(fields, octets, &mut out[n..])
}

// Puts the body of a record: the fields and then the octets.
fn put_body(fields: &[u8], octets: &[u8], out: &mut [u8]) -> usize
    requires { length fields.now + length octets.now ≤ length out.old }
    ensures { Puts (fields.now ++ octets.now) out.old result out.new }
{
    let n = put_each(fields, out);
    n + put_octets(octets, &mut out[n..])
}
