// The names of a list: kind 1 records, one after another.
ghost use Rattle.std.specs.Prelude.{◌≡◌, ◌<◌, length};
ghost use Rattle.std.specs.Prelude.{None};
ghost use Rattle.lists.specs.Names.{fault_from};
ghost use Rattle.lists.specs.Promises.{Lists, NameRead};

use records::Record;
use terms::{RecordPosition, Refusal};

// How many names a list has, and how many octets they have together.
#[derive(Clone, Copy)]
pub struct NameCount {
    pub names: usize,
    pub octets: usize,
}

// Where a name stands in its list; the next record begins at its end.
#[derive(Clone, Copy)]
pub struct NamePlace {
    pub start: RecordPosition,
    pub end: RecordPosition,
}

// Reads a list through: how many names it has, or the refusal of the first record that is none.
pub fn count_names(list: &[u8]) -> Result<NameCount, Refusal>
    ensures { Lists list.now result }
{
    let mut at = RecordPosition(0);
    let mut names = 0;
    let mut octets = 0;
    // No `for`: a step is as long as the record that was read.
    while let Record::Text(start, end) = records::read_name(list, at)? {
        names += 1;
        octets += end.0 - start.0;
        at = end;
    }
    Ok(NameCount { names, octets })
}

// Where the name at a position of a list stands.
pub fn name_at(list: &[u8], at: RecordPosition) -> NamePlace
    requires at_in_bounds { at.0 < length list.now }
    requires at_value { fault_from list.now at.0 ≡ None }
    ensures { NameRead list.now at.0 result }
{
    match records::read_name(list, at) {
        Ok(Record::Text(start, end)) => NamePlace { start, end },
        // None of these is so: this is not the list's end, and it has names alone.
        Ok(Record::End) => unreachable!(),
        Ok(Record::Key(_, _, _)) => unreachable!(),
        Err(_) => unreachable!(),
    }
}
