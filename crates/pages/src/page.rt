// A page over any field: ordering it, and the calls on it.
ghost use Rattle.std.specs.Prelude.{◌≡◌, ℕ, ◌+◌, ◌-◌, ◌*◌, ◌/◌, ◌%◌, ◌<◌, ◌≤◌, [], nat_le, length, IfOk, OnOk, slice_index};
ghost use Rattle.std.specs.List.{range_with_len};
ghost use Rattle.basics.specs.Checks.{check, verdict, fault_of, ◌or_else◌, lowest};
ghost use Rattle.basics.specs.Lists.{Updated};
ghost use Rattle.fields.specs.Numbered.{number_of};
ghost use Rattle.codes.specs.Fill.{FilledRows};
ghost use Rattle.plans.specs.Orders.{order_fault, Ranges, told_order};
ghost use Rattle.plans.specs.Marks.{marking_fault};
ghost use Rattle.rules.specs.Pages.{q, n, cell_count, symbol_count, message_row, message_column};
ghost use Rattle.rules.specs.Calls.{Step, event, numbers_fault, handed, buffers_fault, symbol_fault, height_fault, fault, write as Write};
ghost use Rattle.rules.specs.declared.fault.PageFault.TheVariants.{Symbol, Height};
ghost use Rattle.rules.specs.Views.{marking, state, buffers, answered, kind_fault, FitsWrite, laid_entry, level_at};

use codes::fill::fill_rows;
use fields::{Field, KindField, Ring};
use plans::fault::{MarkingFault, OrderFault};
use plans::numbers::Numbers;
use plans::plan::Plan;
use rules::fault::{Buffer, PageFault};
use std::array;

// A page holds its field, and beside it its numbers, which fit the field, and its marking.
#[derive(Drop)]
pub struct Page<F: Field> {
    pub(crate) field: F,
    pub(crate) plan: Plan,
    pub ghost ranges: { Ranges (F.Ring.ops field).order plan.numbers },
}

impl<F: Field + Drop> Page<F> {
    ghost use Rattle.pages.specs.Views.{over};

    // A page with no column marked, where its numbers fit its field.
    pub fn order(field: F, numbers: Numbers) -> Result<Page<F>, OrderFault>
        ensures fault { fault_of result ≡ order_fault (F.Ring.ops field).order numbers }
        ensures refusal { told_order (fault_of result) ≡ told_order (order_fault (F.Ring.ops field).order numbers) }
        ensures page { IfOk result (λ page. (page.field ≡ field) × (page.plan.numbers ≡ numbers) × (marking page.plan ≡ [])) }
    {
        numbers.check(field.order())?;
        Ok(Page {
            field,
            plan: Plan::new(numbers),
        })
    }

    // The same page, with these columns marked in the place of those that are.
    pub fn with_marking(self, columns: &[u16]) -> Result<Page<F>, MarkingFault>
        ensures fault { fault_of result ≡ marking_fault self.plan.numbers columns.now }
        ensures page { IfOk result (λ page. (page.field ≡ self.field) × (page.plan.numbers ≡ self.plan.numbers) × (marking page.plan ≡ columns.now)) }
    {
        let plan = Plan::with_marking(self.plan.numbers(), columns)?;
        Ok(Page {
            field: self.field,
            plan,
        })
    }

    pub fn field(&self) -> &F
        ensures { result.now ≡ self.now.field }
    {
        &self.field
    }

    pub fn numbers(&self) -> Numbers
        ensures { result ≡ self.now.plan.numbers }
    {
        self.plan.numbers()
    }

    // The marked columns.
    pub fn marked(&self) -> &[u16]
        ensures { result.now ≡ marking self.now.plan }
    {
        self.plan.marking()
    }

    // The checks of an order on the page's own numbers. Every page passes them, by its type; the calls still make them first, since
    // their order of refusals begins with them.
    pub fn check(&self) -> Result<(), PageFault>
        ensures fault { result ≡ verdict (numbers_fault (over self.now)) }
        ensures ranges { OnOk result (Ranges (F.Ring.ops self.now.field).order self.now.plan.numbers) }
    {
        self.plan.numbers().check(self.field.order())?;
        Ok(())
    }

    // What stands against a call on all cells: the page and their length.
    pub(crate) fn check_cells(&self, cells: &[u16]) -> Result<(), PageFault>
        ensures fault { result ≡ verdict (handed (over self.now) (state self.now.plan cells.now)) }
        ensures size { OnOk result (length cells.now ≡ cell_count (over self.now)) }
    {
        self.check()?;
        let numbers = self.plan.numbers();
        if cells.len() != numbers.cell_count() {
            return Err(PageFault::Length(Buffer::Cells));
        }
        Ok(())
    }

    // Buffers of symbols and heights of other lengths than the page asks.
    pub(crate) fn check_buffers(&self, symbols: &[u16], heights: &[u16]) -> Result<(), PageFault>
        ensures fault { result ≡ verdict (buffers_fault (over self.now) (buffers symbols.now heights.now)) }
        ensures sizes { OnOk result ((length symbols.now ≡ symbol_count (over self.now)) × (length heights.now ≡ cell_count (over self.now))) }
    {
        let numbers = self.plan.numbers();
        if symbols.len() != numbers.symbol_count() {
            return Err(PageFault::Length(Buffer::Symbols));
        }
        if heights.len() != numbers.cell_count() {
            return Err(PageFault::Length(Buffer::Heights));
        }
        Ok(())
    }

    // A message symbol of the order or above.
    fn check_symbol(&self, j: usize, symbol: u16) -> Result<(), PageFault>
        requires { j < 8192 }
        ensures { result ≡ verdict (check (nat_le (q (over self.now)) symbol) (Symbol (message_row (over self.now) j) (message_column (over self.now) j))) }
    {
        if symbol < self.field.order() {
            return Ok(());
        }
        let numbers = self.plan.numbers();
        let messages = numbers.message_count();
        Err(PageFault::Symbol(
            (j / messages) as u16,
            numbers.checks + (j % messages) as u16,
        ))
    }

    // The lowest such symbol.
    fn check_symbols(&self, symbols: &[u16]) -> Result<(), PageFault>
        requires { length symbols.now ≤ 8192 }
        ensures { result ≡ verdict (lowest 0 (length symbols.now) (symbol_fault (over self.now) symbols.now)) }
    {
        for (j, &symbol) in symbols.iter().enumerate() {
            self.check_symbol(j, symbol)?;
        }
        Ok(())
    }

    // A height of the page's heights or above.
    fn check_height(&self, i: usize, height: u16) -> Result<(), PageFault>
        requires { i < 8192 }
        ensures { result ≡ verdict (check (nat_le self.now.plan.numbers.heights height) (Height (i / n (over self.now)) (i % n (over self.now)))) }
    {
        let numbers = self.plan.numbers();
        if height < numbers.heights {
            return Ok(());
        }
        let columns = numbers.columns as usize;
        Err(PageFault::Height((i / columns) as u16, (i % columns) as u16))
    }

    // The lowest such height.
    fn check_heights(&self, heights: &[u16]) -> Result<(), PageFault>
        requires { length heights.now ≤ 8192 }
        ensures { result ≡ verdict (lowest 0 (length heights.now) (height_fault (over self.now) heights.now)) }
    {
        for (i, &height) in heights.iter().enumerate() {
            self.check_height(i, height)?;
        }
        Ok(())
    }

    // What stands against a write.
    fn check_write(&self, cells: &[u16], symbols: &[u16], heights: &[u16]) -> Result<(), PageFault>
        ensures fault { result ≡ verdict (fault (over self.now) (state self.now.plan cells.now) (Write (buffers symbols.now heights.now))) }
        ensures fits { OnOk result (FitsWrite (over self.now) cells.now (buffers symbols.now heights.now)) }
    {
        self.check_cells(cells)?;
        self.check_buffers(symbols, heights)?;
        self.check_symbols(symbols)?;
        self.check_heights(heights)
    }

    // The message symbol of cell i, or 0 in a check column.
    fn laid_symbol(&self, symbols: &[u16], i: usize) -> u16
        requires symbols { length symbols.now ≡ symbol_count (over self.now) }
        requires inside { i < cell_count (over self.now) }
        ensures { result ≡ laid_entry (over self.now) symbols.now i }
    {
        let numbers = self.plan.numbers();
        let columns = numbers.columns as usize;
        let checks = numbers.checks as usize;
        let column = i % columns;
        if column < checks {
            0
        } else {
            symbols[i / columns * (columns - checks) + (column - checks)]
        }
    }

    // Sets the cells to the message symbols, and to 0 in the check columns.
    // That a buffer is as long as the page asks, each of these says: a struct round a buffer that is written would have to say what stays.
    fn lay_symbols(&self, cells: &mut [u16], symbols: &[u16])
        requires symbols { length symbols.now ≡ symbol_count (over self.now) }
        requires cells { length cells.old ≡ cell_count (over self.now) }
        ensures { Updated (length cells.old) (laid_entry (over self.now) symbols.now) cells.old cells.new }
    {
        for (i, cell) in cells.iter_mut().enumerate() {
            *cell = self.laid_symbol(symbols, i);
        }
    }

    // Fills the check columns, so that each row of symbols is a code row.
    fn fill_checks(&self, cells: &mut [u16])
        requires { length cells.old ≡ cell_count (over self.now) }
        ensures { FilledRows (over self.now).field self.now.plan.numbers.columns (range_with_len 0 self.now.plan.numbers.checks) cells.old cells.new }
    {
        let numbers = self.plan.numbers();
        let columns = first_columns();
        let _ = fill_rows(
            &self.field,
            numbers.columns as usize,
            &columns[0..numbers.checks as usize],
            cells,
        );
    }

    // Adds height × order to each cell's symbol.
    fn add_heights(&self, cells: &mut [u16], heights: &[u16])
        requires long { length cells.old ≡ length heights.now }
        requires symbols { (i : ℕ) → i < length cells.old → slice_index cells.old i < (F.Ring.ops self.now.field).order }
        requires heights { (i : ℕ) → i < length cells.old → slice_index heights.now i < self.now.plan.numbers.heights }
        ensures { Updated (length cells.old) (level_at (F.Ring.ops self.now.field).order heights.now cells.old) cells.old cells.new }
    {
        let order = self.field.order();
        for (i, cell) in cells.iter_mut().enumerate() {
            *cell = heights[i] * order + *cell;
        }
    }

    // Sets every cell, marked ones too, to the level of its height and symbol: the one page of levels that has these contents
    // and whose rows of symbols are code rows.
    pub fn write(
        &self,
        cells: &mut [u16],
        symbols: &[u16],
        heights: &[u16],
    ) -> Result<(), PageFault>
        ensures { Step (over self.now) (event (state self.now.plan cells.old) (Write (buffers symbols.now heights.now)) (answered result) (buffers symbols.now heights.now) (state self.now.plan cells.new)) }
    {
        self.check_write(cells, symbols, heights)?;
        self.lay_symbols(cells, symbols);
        self.fill_checks(cells);
        self.add_heights(cells, heights);
        Ok(())
    }
}

// A page over the field of a kind number.
pub fn order_kind(kind: u16, numbers: Numbers) -> Result<Page<KindField>, OrderFault>
    ensures fault { fault_of result ≡ kind_fault kind numbers }
    ensures refusal { told_order (fault_of result) ≡ told_order (kind_fault kind numbers) }
    ensures page { IfOk result (λ page. (number_of page.field ≡ kind) × (page.plan.numbers ≡ numbers) × (marking page.plan ≡ [])) }
{
    let field = KindField::try_from(kind)?;
    Page::order(field, numbers)
}

// The columns 0, 1, 2 and so on.
fn first_columns() -> [u16; 64]
    ensures { (i : ℕ) → i < 64 → slice_index result i ≡ i }
{
    array::from_fn(|i| i as u16)
}
