// The numbers of a page, and which of them can be ordered.
ghost use Rattle.std.specs.Prelude.{◌≡◌, ◌-◌, ◌*◌, ◌≤◌, length, OnOk};
ghost use Rattle.basics.specs.Checks.{check, verdict};
ghost use Rattle.plans.specs.Orders.{order_fault, Ranges};
ghost use Rattle.plans.specs.Marks.{wrong_column, columns_fault, marking_fault, FitsMarking};
ghost use Rattle.plans.specs.declared.fault.MarkingFault.TheVariants.{Column};

use crate::fault::{MarkingFault, OrderFault};

// n columns, r check columns, R rows, H heights and the drift bound D.
#[derive(Clone, Copy, PartialEq, Eq, Debug)]
pub struct Numbers {
    pub columns: u16,
    pub checks: u16,
    pub rows: u16,
    pub heights: u16,
    pub drift: u16,
}

impl Numbers {
    // Whether a page with these numbers can be ordered over a field of this order.
    // By comparisons: with `contains` of a range the proof of three of its cases does not close.
    pub fn check(&self, order: u16) -> Result<(), OrderFault>
        ensures fault { result ≡ verdict (order_fault order self.now) }
        ensures ranges { OnOk result (Ranges order self.now) }
    {
        if self.columns < 2 || self.columns >= order || self.columns > 256 {
            return Err(OrderFault::Columns);
        }
        if self.checks < 1 || self.checks > 64 || self.checks >= self.columns {
            return Err(OrderFault::Checks);
        }
        if self.rows < 1 || self.rows > 32 {
            return Err(OrderFault::Rows);
        }
        if self.heights < 1 || self.heights > 256 || self.level_count(order) > 4096 {
            return Err(OrderFault::Heights);
        }
        if self.drift < 1 || self.drift >= order {
            return Err(OrderFault::Drift);
        }
        Ok(())
    }

    // How many cells a page has.
    pub fn cell_count(&self) -> usize
        ensures { result ≡ self.now.rows * self.now.columns }
    {
        self.rows as usize * self.columns as usize
    }

    // How many message symbols a row has: none where the checks leave no column for one.
    pub fn message_count(&self) -> usize
        ensures { result ≡ self.now.columns - self.now.checks }
    {
        self.columns.saturating_sub(self.checks) as usize
    }

    // How many message symbols a page has.
    pub fn symbol_count(&self) -> usize
        ensures { result ≡ self.now.rows * (self.now.columns - self.now.checks) }
    {
        self.rows as usize * self.message_count()
    }

    // How many levels a cell has, over a field of this order.
    pub fn level_count(&self, order: u16) -> u32
        ensures { result ≡ order * self.now.heights }
    {
        order as u32 * self.heights as u32
    }

    // The first column of a marking that is not above the one before it, or that the page has not.
    // Code rows test columns alike, to say whether they rise: the rules of each speak so, one of where and one of whether.
    fn check_columns(&self, marking: &[u16]) -> Result<(), MarkingFault>
        requires { length marking.now ≤ 64 }
        ensures { result ≡ verdict (columns_fault self.now.columns marking.now) }
    {
        let mut low = 0;
        for (i, &column) in marking.iter().enumerate() {
            if column < low || column >= self.columns {
                return Err(MarkingFault::Column(i as u8));
            }
            low = column + 1;
        }
        Ok(())
    }

    // Whether these columns can be marked.
    pub(crate) fn check_marking(&self, marking: &[u16]) -> Result<(), MarkingFault>
        ensures fault { result ≡ verdict (marking_fault self.now marking.now) }
        ensures fits { OnOk result (FitsMarking self.now marking.now) }
    {
        if marking.len() > 64 || marking.len() > self.checks as usize {
            return Err(MarkingFault::Long);
        }
        self.check_columns(marking)
    }
}
