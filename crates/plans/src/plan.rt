// A page's numbers and which of its columns are marked.
ghost use Rattle.std.specs.Prelude.{◌≡◌, ◌+◌, ◌<◌, ◌≤◌, true, length, take, not, is_some, IfSome, IfOk, OnOk};
ghost use Rattle.basics.specs.Checks.{verdict, fault_of, lowest};
ghost use Rattle.algebra.specs.Rows.{among, rising};
ghost use Rattle.plans.specs.Marks.{inserted, mark_fault, marked_by, marking_fault, IsPlace};

use crate::fault::{MarkFault, MarkingFault};
use crate::numbers::Numbers;

// The marking is the first `count` of `marked`: rising columns of the page, at most as many as it has checks.
// It is an array and a count, since a plan is copied and the kit's vectors of a fixed capacity are not.
#[derive(Clone, Copy)]
pub struct Plan {
    numbers: Numbers,
    marked: [u16; 64],
    count: usize,
    ghost room: { count ≤ 64 },
    ghost fits: { count ≤ numbers.checks },
    ghost rises: { rising 0 numbers.columns (take count marked) ≡ true },
}

impl Plan {
    // These numbers, and no column marked.
    pub fn new(numbers: Numbers) -> Plan
        ensures numbers { result.numbers ≡ numbers }
        ensures unmarked { result.count ≡ 0 }
    {
        Plan {
            numbers,
            marked: [0; 64],
            count: 0,
        }
    }

    // These numbers, and these columns marked.
    pub fn with_marking(numbers: Numbers, marking: &[u16]) -> Result<Plan, MarkingFault>
        ensures fault { fault_of result ≡ marking_fault numbers marking.now }
        ensures numbers { IfOk result (λ plan. plan.numbers ≡ numbers) }
        ensures marking { IfOk result (λ plan. take plan.count plan.marked ≡ marking.now) }
    {
        numbers.check_marking(marking)?;
        Ok(Plan {
            numbers,
            marked: padded(marking),
            count: marking.len(),
        })
    }

    pub fn numbers(&self) -> Numbers
        ensures { result ≡ self.now.numbers }
    {
        self.numbers
    }

    // The marked columns.
    pub fn marking(&self) -> &[u16]
        ensures { result.now ≡ take self.now.count self.now.marked }
    {
        &self.marked[0..self.count]
    }

    // One more marked column.
    pub fn mark(&mut self, column: u16) -> Result<(), MarkFault>
        ensures fault { result ≡ verdict (mark_fault self.old.numbers (take self.old.count self.old.marked) column) }
        ensures marking { take self.new.count self.new.marked ≡ marked_by (mark_fault self.old.numbers (take self.old.count self.old.marked) column) column (take self.old.count self.old.marked) }
        ensures numbers { self.new.numbers ≡ self.old.numbers }
    {
        let place = self.check_mark(column)?;
        self.insert(place, column);
        Ok(())
    }

    // The place of a column in the marking, or what stands against marking it.
    fn check_mark(&self, column: u16) -> Result<usize, MarkFault>
        ensures fault { fault_of result ≡ mark_fault self.now.numbers (take self.now.count self.now.marked) column }
        ensures inside { OnOk result (column < self.now.numbers.columns) }
        ensures room { OnOk result (self.now.count < 64) }
        ensures few { OnOk result (self.now.count < self.now.numbers.checks) }
        ensures place { IfOk result (IsPlace column (take self.now.count self.now.marked)) }
    {
        if column >= self.numbers.columns {
            return Err(MarkFault::Column(column));
        }
        let Some(place) = self.place_of(column) else {
            return Err(MarkFault::Marked(column));
        };
        if self.count >= 64 || self.count >= self.numbers.checks as usize {
            return Err(MarkFault::Full(column));
        }
        Ok(place)
    }

    // The place in the marking where an unmarked column goes; none for a marked one.
    fn place_of(&self, column: u16) -> Option<usize>
        ensures marked { is_some result ≡ not (among column (take self.now.count self.now.marked)) }
        ensures place { IfSome result (IsPlace column (take self.now.count self.now.marked)) }
    {
        self.marking().binary_search(&column).err()
    }

    // Puts the column into the marking, in its place.
    fn insert(&mut self, place: usize, column: u16)
        requires inside { column < self.old.numbers.columns }
        requires room { self.old.count < 64 }
        requires few { self.old.count < self.old.numbers.checks }
        requires place { IsPlace column (take self.old.count self.old.marked) place }
        ensures marking { take self.new.count self.new.marked ≡ inserted column (take self.old.count self.old.marked) }
        ensures numbers { self.new.numbers ≡ self.old.numbers }
    {
        self.marked.copy_within(place..self.count, place + 1);
        self.marked[place] = column;
        self.count += 1;
    }
}

// The columns, and zeros after them.
// An image pads its bytes alike, and cuts off what is too long: two lines each, of other types and sizes.
fn padded(columns: &[u16]) -> [u16; 64]
    requires { length columns.now ≤ 64 }
    ensures { take (length columns.now) result ≡ columns.now }
{
    let mut marked = [0; 64];
    marked[0..columns.len()].copy_from_slice(columns);
    marked
}
