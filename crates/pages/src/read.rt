// The calls read and scrub: what the cells decode to, or why they are refused.
ghost use Rattle.std.specs.Prelude.{◌≡◌, ℕ, ◌+◌, ◌-◌, ◌*◌, ◌/◌, ◌%◌, ◌<◌, ◌≤◌, not, ◌&&◌, nat_le, nat_lt, length, if◌then◌else◌, None, IfSome, IfOk, OnOk, slice_index};
ghost use Rattle.basics.specs.Checks.{check, verdict, fault_of, lowest};
ghost use Rattle.basics.specs.Lists.{Updated};
ghost use Rattle.algebra.specs.Rows.{among};
ghost use Rattle.codes.specs.Correct.{Flagged};
ghost use Rattle.rules.specs.Pages.{tabled, q, n, cell_of, symbol_count, cell_count};
ghost use Rattle.rules.specs.Reach.{levels, dead, drift, drifted, risen, drift_fault};
ghost use Rattle.rules.specs.Calls.{handed, reading_fault};
ghost use Rattle.rules.specs.Laws.{ReadingLaw};
ghost use Rattle.rules.specs.Runs.{RunLaw};
ghost use Rattle.rules.specs.Views.{marking, state, buffers, Readable, CorrectedTo, rows_before, row_lost, row_drift, settled_at, readings_fault, PageDecoded, Recovered, Reads, Scrubs};
ghost use Rattle.rules.specs.declared.fault.PageFault.TheVariants.{Reading};
ghost use Rattle.pages.specs.Views.{over};

use crate::page::Page;
use codes::correct::{CorrectFault, correct_rows, flags};
use fields::{Field, Ring, rules};
use rules::fault::PageFault;

// The cells of a page as they read, and which columns are marked.
// The levels stand in a buffer beside it: were that a part of it, each call that fills it would have to say what stays.
#[derive(Drop)]
struct Readings<'a, F: Field> {
    page: &'a Page<F>,
    cells: &'a [u16],
    marks: [bool; 256],
    ghost size: { length cells.now ≡ cell_count (over page.now) },
    ghost marked: { Flagged 256 (λ k. among k (marking page.now.plan)) marks },
}

impl<'a, F: Field + Drop> Readings<'a, F> {
    ghost use Rattle.pages.specs.Readings.{of_page, seen};

    // The cells, where the page's numbers and their length stand the check of every call on all cells.
    fn new(page: &'a Page<F>, cells: &'a [u16]) -> Result<Readings<'a, F>, PageFault>
        ensures fault { fault_of result ≡ handed (over page.now) (state page.now.plan cells.now) }
        ensures page { IfOk result (λ readings. (of_page readings ≡ over page.now) × (seen readings ≡ state page.now.plan cells.now)) }
    {
        page.check_cells(cells)?;
        Ok(Readings {
            page,
            cells,
            marks: flags(page.marked()),
        })
    }

    // Whether cell i lies in a marked column.
    fn is_dead(&self, i: usize) -> bool
        ensures { result ≡ dead (of_page self.now) (seen self.now).marking i }
    {
        self.marks[i % self.page.numbers().columns as usize]
    }

    // A cell that reads no level in an unmarked column.
    fn check_reading(&self, i: usize, reading: u16) -> Result<(), PageFault>
        requires { i < 8192 }
        ensures { result ≡ verdict (check (not (dead (of_page self.now) (seen self.now).marking i) && nat_le (levels (of_page self.now)) reading) (Reading (i / n (of_page self.now)) (i % n (of_page self.now)))) }
    {
        let numbers = self.page.numbers();
        let columns = numbers.columns as usize;
        if !self.is_dead(i) && reading as u32 >= numbers.level_count(self.page.field.order()) {
            return Err(PageFault::Reading((i / columns) as u16, (i % columns) as u16));
        }
        Ok(())
    }

    // The lowest such cell.
    fn check(&self) -> Result<(), PageFault>
        ensures { result ≡ verdict (readings_fault (of_page self.now) (seen self.now)) }
    {
        let cells = self.cells;
        for (i, &reading) in cells.iter().enumerate() {
            self.check_reading(i, reading)?;
        }
        Ok(())
    }

    // The symbols of the readings, before they are corrected.
    fn lay(&self, symbols: &mut [u16])
        requires { length symbols.old ≡ cell_count (of_page self.now) }
        ensures { Updated (length symbols.old) (λ i. slice_index (seen self.now).cells i % q (of_page self.now)) symbols.old symbols.new }
    {
        let order = self.page.field.order();
        for (i, symbol) in symbols.iter_mut().enumerate() {
            *symbol = self.cells[i] % order;
        }
    }

    // The lowest unmarked column of a row where the drift of its reading is above a limit.
    fn drift_above<L: Fn(u16) -> u16>(
        &self,
        readings: &[u16],
        symbols: &[u16],
        limit: L,
    ) -> Option<u16>
        requires callable { L.IsAlwaysCallable limit }
        requires few { length readings.now ≤ 256 }
        requires symbols { length symbols.now ≡ length readings.now }
        ensures { (m : ℕ → ℕ) → ((x y : ℕ) → L.post limit x y → y ≡ m x) → result ≡ lowest 0 (length readings.now) (λ i. check (not (among i (seen self.now).marking) && nat_lt (m (slice_index readings.now i)) (drift (of_page self.now) (slice_index readings.now i) (slice_index symbols.now i))) i) }
    {
        for (i, &reading) in readings.iter().enumerate() {
            if !self.marks[i] && self.page.drift(reading, symbols[i]) > limit(reading) {
                return Some(i as u16);
            }
        }
        None
    }

    // The lowest column whose drift is above the bound, else the lowest whose drift is above its reading.
    fn check_drift(&self, k: u16, readings: &[u16], symbols: &[u16]) -> Result<(), PageFault>
        requires few { length readings.now ≤ 256 }
        requires long { length readings.now ≡ n (of_page self.now) }
        requires symbols { length symbols.now ≡ length readings.now }
        ensures { result ≡ verdict (drift_fault (of_page self.now) (seen self.now).marking k readings.now symbols.now) }
    {
        let bound = self.page.numbers().drift;
        if let Some(i) = self.drift_above(readings, symbols, |_reading| bound) {
            return Err(PageFault::Far(k, i));
        }
        if let Some(i) = self.drift_above(readings, symbols, |reading| reading) {
            return Err(PageFault::Under(k, i));
        }
        Ok(())
    }

    // The lowest row, of those that were corrected, whose drifts do not fit.
    fn check_drifts(&self, symbols: &[u16], rows: usize) -> Result<(), PageFault>
        requires symbols { length symbols.now ≡ cell_count (of_page self.now) }
        requires rows { rows ≤ self.now.page.now.plan.numbers.rows }
        ensures { result ≡ verdict (lowest 0 rows (row_drift (of_page self.now) (seen self.now).marking (seen self.now).cells symbols.now)) }
    {
        let columns = self.page.numbers().columns as usize;
        let pairs = self
            .cells
            .chunks_exact(columns)
            .zip(symbols.chunks_exact(columns));
        for (k, (readings, symbols)) in pairs.take(rows).enumerate() {
            self.check_drift(k as u16, readings, symbols)?;
        }
        Ok(())
    }

    // The level of cell i: its reading less its drift, and in a marked column its symbol.
    fn level(&self, i: usize, reading: u16, symbol: u16) -> u16
        ensures { result ≡ (if dead (of_page self.now) (seen self.now).marking i then symbol else reading - drift (of_page self.now) reading symbol) }
    {
        if self.is_dead(i) {
            symbol
        } else {
            reading.saturating_sub(self.page.drift(reading, symbol))
        }
    }

    // Turns corrected symbols into levels.
    fn settle(&self, levels: &mut [u16])
        requires { length levels.old ≡ cell_count (of_page self.now) }
        ensures { Updated (length levels.old) (settled_at (of_page self.now) (seen self.now).marking (seen self.now).cells levels.old) levels.old levels.new }
    {
        for (i, level) in levels.iter_mut().enumerate() {
            *level = self.level(i, self.cells[i], *level);
        }
    }

    // Decodes the cells into `levels`, or refuses the lowest row that is in reach of no levels.
    fn decode(&self, levels: &mut [u16]) -> Result<(), PageFault>
        requires levels { length levels.old ≡ cell_count (of_page self.now) }
        requires readable { Readable (of_page self.now) (seen self.now) }
        ensures { PageDecoded (of_page self.now) (seen self.now) levels.new result }
    {
        self.lay(levels);
        let lost = self.page.correct(levels);
        self.check_drifts(levels, self.page.rows_before(lost))?;
        if let Some(row) = lost {
            return Err(PageFault::Lost(row as u16));
        }
        self.settle(levels);
        Ok(())
    }

    // By how much a reading stands above the level of cell i, in an unmarked column.
    fn rise(&self, i: usize, reading: u16, level: u16) -> u16
        ensures { result ≡ (if dead (of_page self.now) (seen self.now).marking i then 0 else reading - level) }
    {
        if self.is_dead(i) {
            0
        } else {
            reading.saturating_sub(level)
        }
    }

    // How many unmarked cells read above their levels, and by how much in all: the pair that the calls answer.
    fn tally(&self, levels: &[u16]) -> (u32, u32)
        requires { length levels.now ≡ cell_count (of_page self.now) }
        ensures drifted { result.0 ≡ drifted (of_page self.now) (seen self.now).marking (seen self.now).cells levels.now }
        ensures risen { result.1 ≡ risen (of_page self.now) (seen self.now).marking (seen self.now).cells levels.now }
    {
        let mut drifted = 0u32;
        let mut risen = 0u32;
        for (i, &level) in levels.iter().enumerate() {
            let above = self.rise(i, self.cells[i], level);
            drifted += above.min(1) as u32;
            risen += above as u32;
        }
        (drifted, risen)
    }

    // Decodes the cells, which were checked, into `levels`; how many drifted, and by how much in all.
    fn recover(&self, levels: &mut [u16]) -> Result<(u32, u32), PageFault>
        requires levels { length levels.old ≡ cell_count (of_page self.now) }
        requires checked { readings_fault (of_page self.now) (seen self.now) ≡ None }
        ensures { Recovered (of_page self.now) (seen self.now) levels.new result }
    {
        self.decode(levels)?;
        Ok(self.tally(levels))
    }
}

impl<F: Field + Drop> Page<F> {
    // Corrects the rows of symbols up to the first that no code row is close enough to: which that is, if there is one.
    fn correct(&self, symbols: &mut [u16]) -> Option<usize>
        requires { length symbols.old ≡ cell_count (over self.now) }
        ensures corrected { CorrectedTo (over self.now) (marking self.now.plan) (rows_before (over self.now) result) symbols.old symbols.new }
        ensures inside { IfSome result (λ row. row < self.now.plan.numbers.rows) }
    {
        let numbers = self.plan.numbers();
        match correct_rows(
            &self.field,
            numbers.columns as usize,
            numbers.checks as usize,
            self.plan.marking(),
            symbols,
        ) {
            Ok(()) => None,
            Err(fault) => lost_row(fault),
        }
    }

    // How many rows come before the lost one: all, where none is lost.
    fn rows_before(&self, lost: Option<usize>) -> usize
        ensures { result ≡ rows_before (over self.now) lost }
    {
        lost.unwrap_or(self.plan.numbers().rows as usize)
    }

    // By how much a reading stands above a level of this symbol.
    fn drift(&self, reading: u16, symbol: u16) -> u16
        ensures { result ≡ drift (over self.now) reading symbol }
    {
        let order = self.field.order();
        ((reading as u32 + order.saturating_sub(symbol) as u32) % order as u32) as u16
    }

    // Where message symbol j stands.
    fn cell_of(&self, j: usize) -> usize
        requires { j < symbol_count (over self.now) }
        ensures { result ≡ cell_of (over self.now) j }
    {
        let numbers = self.plan.numbers();
        let messages = numbers.message_count();
        j / messages * numbers.columns as usize + (numbers.checks as usize + j % messages)
    }

    // The message symbols of a page of levels.
    fn fill_symbols(&self, levels: &[u16], symbols: &mut [u16])
        requires levels { length levels.now ≡ cell_count (over self.now) }
        requires long { length symbols.old ≡ symbol_count (over self.now) }
        ensures { symbols.new ≡ tabled (symbol_count (over self.now)) (λ j. slice_index levels.now (cell_of (over self.now) j) % q (over self.now)) }
    {
        let order = self.field.order();
        for (j, symbol) in symbols.iter_mut().enumerate() {
            *symbol = levels[self.cell_of(j)] % order;
        }
    }

    // The heights of a page of levels.
    fn fill_heights(&self, levels: &[u16], heights: &mut [u16])
        requires levels { length levels.now ≡ cell_count (over self.now) }
        requires long { length heights.old ≡ cell_count (over self.now) }
        ensures { heights.new ≡ tabled (cell_count (over self.now)) (λ i. slice_index levels.now i / q (over self.now)) }
    {
        let order = self.field.order();
        for (i, height) in heights.iter_mut().enumerate() {
            *height = levels[i] / order;
        }
    }

    // What reading rests on, and what every run of calls keeps, by the rules of the field's inverses and points.
    fn keeps(&self)
        ensures law { ReadingLaw (over self.now) }
        ensures runs { RunLaw (over self.now) }
    {
        rules(&self.field);
    }

    // The contents of the page of levels that the cells are in reach of, with height 0 in marked columns; how many
    // unmarked cells read above their levels, and by how much in all.
    pub fn read(
        &self,
        cells: &[u16],
        symbols: &mut [u16],
        heights: &mut [u16],
    ) -> Result<(u32, u32), PageFault>
        ensures step { Reads (over self.now) (state self.now.plan cells.now) (buffers symbols.old heights.old) result (buffers symbols.new heights.new) }
        ensures law { ReadingLaw (over self.now) }
        ensures runs { RunLaw (over self.now) }
    {
        self.keeps();
        let readings = Readings::new(self, cells)?;
        self.check_buffers(symbols, heights)?;
        readings.check()?;
        let mut page = [0; 8192];
        let levels = &mut page[0..cells.len()];
        let counts = readings.recover(levels)?;
        self.fill_symbols(levels, symbols);
        self.fill_heights(levels, heights);
        Ok(counts)
    }

    // Sets every cell to its decoded level, in a marked column to its symbol; how many unmarked cells read above their
    // levels, and by how much in all.
    pub fn scrub(&self, cells: &mut [u16]) -> Result<(u32, u32), PageFault>
        ensures { Scrubs (over self.now) (state self.now.plan cells.old) result cells.new }
    {
        let readings = Readings::new(self, cells)?;
        readings.check()?;
        let mut page = [0; 8192];
        let levels = &mut page[0..cells.len()];
        let pair = readings.recover(levels)?;
        cells.copy_from_slice(levels);
        Ok(pair)
    }
}

// The row that is lost. The other faults are of numbers that no ordered page has.
fn lost_row(fault: CorrectFault) -> Option<usize>
    ensures { result ≡ row_lost fault }
{
    match fault {
        CorrectFault::Lost(row) => Some(row),
        CorrectFault::Width | CorrectFault::Checks | CorrectFault::Marking | CorrectFault::Length =>
            None,
    }
}
