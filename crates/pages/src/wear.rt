// The calls on one column or one cell, by which what happened to a page is told: mark, raise and jolt.
// A cell is named by two numbers, its row and its column, as a caller in C hands them.
ghost use Rattle.std.specs.Prelude.{◌≡◌, ℕ, ◌+◌, ◌*◌, ◌<◌, List, length, IfOk};
ghost use Rattle.basics.specs.Checks.{fault_of};
ghost use Rattle.rules.specs.Calls.{Step, event, placed, brought, mark as Mark, raise as Raise, jolt as Jolt};
ghost use Rattle.rules.specs.Views.{state, answered};
ghost use Rattle.pages.specs.Views.{over};

use crate::page::Page;
use codes::correct::is_marked;
use fields::{Field, Ring};
use rules::fault::PageFault;

impl<F: Field + Drop> Page<F> {
    // Marks a column, in every row. No cell moves.
    pub fn mark(&mut self, column: u16) -> Result<(), PageFault>
        ensures step { (cells : List ℕ) → Step (over self.old) (event (state self.old.plan cells) (Mark column) (answered result) (brought (Mark column)) (state self.new.plan cells)) }
        ensures field { self.new.field ≡ self.old.field }
        ensures numbers { self.new.plan.numbers ≡ self.old.plan.numbers }
    {
        self.check()?;
        self.plan.mark(column)?;
        Ok(())
    }

    // The number of the cell at a row and a column, or what stands against a call on it.
    fn place(&self, cells: &[u16], row: u16, column: u16) -> Result<usize, PageFault>
        ensures fault { fault_of result ≡ placed (over self.now) (state self.now.plan cells.now) row column }
        ensures number { IfOk result (λ place. place ≡ row * self.now.plan.numbers.columns + column) }
        ensures inside { IfOk result (λ place. place < length cells.now) }
    {
        self.check_cells(cells)?;
        let numbers = self.plan.numbers();
        if row >= numbers.rows || column >= numbers.columns {
            return Err(PageFault::Place(row, column));
        }
        Ok(row as usize * numbers.columns as usize + column as usize)
    }

    // Raises a cell of an unmarked column by an amount, to a level at most.
    pub fn raise(
        &self,
        cells: &mut [u16],
        row: u16,
        column: u16,
        amount: u16,
    ) -> Result<(), PageFault>
        ensures { Step (over self.now) (event (state self.now.plan cells.old) (Raise row column amount) (answered result) (brought (Raise row column amount)) (state self.now.plan cells.new)) }
    {
        let place = self.place(cells, row, column)?;
        if is_marked(self.plan.marking(), column as usize) {
            return Err(PageFault::Dead(row, column));
        }
        let levels = self.plan.numbers().level_count(self.field.order());
        let reading = cells[place];
        if reading as u32 >= levels {
            return Err(PageFault::Reading(row, column));
        }
        if amount == 0 || reading as u32 + amount as u32 >= levels {
            return Err(PageFault::Amount(row, column));
        }
        cells[place] = reading + amount;
        Ok(())
    }

    // Sets a cell of a marked column to any reading.
    pub fn jolt(
        &self,
        cells: &mut [u16],
        row: u16,
        column: u16,
        reading: u16,
    ) -> Result<(), PageFault>
        ensures { Step (over self.now) (event (state self.now.plan cells.old) (Jolt row column reading) (answered result) (brought (Jolt row column reading)) (state self.now.plan cells.new)) }
    {
        let place = self.place(cells, row, column)?;
        if !is_marked(self.plan.marking(), column as usize) {
            return Err(PageFault::Alive(row, column));
        }
        cells[place] = reading;
        Ok(())
    }
}
