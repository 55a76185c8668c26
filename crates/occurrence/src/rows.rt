// The rows of a needle: the periods of its fronts that repeat three times or more, each with how far it reaches.
//
// Every period is more than twice the one before, so that ROWS_MOST rows are enough.
ghost use Rattle.std.specs.Prelude.{◌≡◌, ◌≤◌};
ghost use Rattle.occurrence.specs.Rows.{rows_most, Ordered, Shifted, Noted};
ghost use Rattle.occurrence.specs.Promises.{periods, reaches};

use crate::matches::extend;

// The most rows of a needle.
pub const ROWS_MOST: usize = 64;

// A row: a period of the needle's fronts, and the length of the longest front that has it.
#[derive(Clone, Copy)]
pub struct Row {
    pub period: usize,
    pub reach: usize,
}

// The rows of a needle: the first `count`, the periods ascending.
#[derive(Drop)]
pub struct Rows {
    pub rows: [Row; ROWS_MOST],
    pub count: usize,
}

// How far to go on from a place, and how many octets are kept as matched at the new one.
#[derive(Clone, Copy)]
pub struct Shift {
    pub by: usize,
    pub kept: usize,
}

impl Rows {
    // How far to go on after i matched octets.
    pub fn least_shift(&self, i: usize) -> Shift
        requires { (self.now.count ≤ rows_most) × Ordered (periods self.now) self.now.count }
        ensures { Shifted (periods self.now) (reaches self.now) self.now.count i result.by result.kept }
    {
        let third = i / 3;
        for row in &self.rows[..self.count] {
            if third < row.period {
                break;
            }
            if i <= row.reach {
                return Shift {
                    by: row.period,
                    kept: i - row.period,
                };
            }
        }
        Shift {
            by: third + 1,
            kept: 0,
        }
    }

    // Notes the rows of a needle, in place of those there were: answered by value, all of them would be copied.
    pub fn note(&mut self, needle: &[u8])
        ensures { Noted needle.now (periods self.new) (reaches self.new) self.new.count }
    {
        let m = needle.len();
        let most = m / 3;
        self.count = 0;
        let mut reach = 0;
        let mut j = 1;
        let mut i = 0;
        // How far to go on differs from candidate to candidate, so not a `for`.
        while j <= most {
            i = extend(needle, needle, j, i, m - j);
            if j <= i / 2 && reach < j + i {
                reach = j + i;
                self.rows[self.count] = Row { period: j, reach };
                self.count += 1;
            }
            let s = self.least_shift(i);
            i = s.kept;
            j += s.by;
        }
    }
}
