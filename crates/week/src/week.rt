// What happens to the page, a day after the other. Each day makes the calls, and says what they answered.
ghost use Rattle.std.specs.Prelude.{◌≡◌, ◌<◌, ◌%◌, if◌then◌else◌, IfOk, OnOk, slice_index};
ghost use Rattle.algebra.specs.Rows.{among};
ghost use Rattle.rules.specs.Pages.{tabled, Written};
ghost use Rattle.rules.specs.Views.{marking, state, buffers};
ghost use Rattle.pages.specs.Views.{over};
ghost use Rattle.week.specs.Told.{ReadsAs};

use crate::label::{KIND, LETTERS, NUMBERS, darkness};
use codes::correct::is_marked;
use fields::KindField;
use images::open::Raw;
use images::save::save;
use pages::page::{Page, order_kind};
use plans::fault::Refusal;
use std::alloc::{AllocError, Global};
use std::{array, io};
use thiserror::Error;

// The page and its cells.
#[derive(Drop)]
pub struct Week {
    page: Page<KindField>,
    cells: [u16; 320],
}

// Message symbols and heights.
#[derive(Drop)]
pub struct Contents {
    symbols: [u16; 256],
    heights: [u16; 320],
}

// Why a week does not go as it should.
#[derive(Debug, Error, Drop)]
pub enum Trouble {
    #[error("a call was refused: {0}")]
    Refused(Refusal),
    #[error("what was read is not what was written")]
    Differs,
    #[error("{0}")]
    Output(#[from] io::Error),
    #[error("{0}")]
    Memory(#[from] AllocError),
}

// Cells whose charge creeps up: row, column, and by how many levels.
const CREEPS: [(u16, u16, u16); 9] = [
    (0, 3, 40),
    (0, 17, 12),
    (1, 9, 2),
    (1, 22, 33),
    (1, 38, 7),
    (3, 0, 40),
    (4, 25, 18),
    (4, 26, 18),
    (5, 39, 29),
];

// The columns that die.
const DEAD: [u16; 2] = [11, 30];

// What the cells of a dead column read, row after row.
const GARBAGE: [u16; 8] = [65535, 0, 4096, 1, 40000, 255, 3071, 9];

fn refused<F: Into<Refusal>>(fault: F) -> Trouble {
    Trouble::Refused(fault.into())
}

impl Contents {
    // The label's letters, and how dark they are; check columns have the height of a plain letter.
    pub(crate) fn of_label() -> Contents {
        Contents {
            symbols: array::from_fn(|i| u16::from(LETTERS[i])),
            heights: array::from_fn(|i| match i % 40 {
                0..8 => darkness(b' '),
                column => darkness(LETTERS[i / 40 * 32 + (column - 8)]),
            }),
        }
    }

    fn empty() -> Contents {
        Contents {
            symbols: [0; 256],
            heights: [0; 320],
        }
    }

    // Shows the text, a row in each line.
    fn show(&self, rt: &HostRuntime) -> Result<(), Trouble> {
        let (rows, _) = self.symbols.as_chunks::<32>();
        for row in rows {
            let line = text(rt.alloc(), row)?;
            println!(rt; "    {}", line.trim_end())?;
        }
        Ok(())
    }

    // The height at place i that is to be read: 0 in a marked column.
    fn kept_height(&self, marked: &[u16], columns: usize, i: usize) -> u16
        requires place { i < 320 }
        requires columns { 0 < columns }
        ensures { result ≡ (if among (i % columns) marked.now then 0 else slice_index self.now.heights i) }
    {
        if is_marked(marked, i % columns) {
            0
        } else {
            self.heights[i]
        }
    }

    // What is to be read of a page to which these were written.
    fn kept_by(&self, page: &Page<KindField>) -> Contents
        ensures symbols { result.symbols ≡ self.now.symbols }
        ensures heights { result.heights ≡ tabled 320 (λ i. if among (i % page.now.plan.numbers.columns) (marking page.now.plan) then 0 else slice_index self.now.heights i) }
    {
        let columns = usize::from(page.numbers().columns);
        let marked = page.marked();
        Contents {
            symbols: self.symbols,
            heights: array::from_fn(|i| self.kept_height(marked, columns, i)),
        }
    }
}

// Says that what was read is what was written, but for what this many dead columns have lost.
fn conclude(rt: &HostRuntime, dead: usize) -> Result<(), Trouble> {
    match dead {
        0 => println!(rt; "Every letter and every height is as it was written.")?,
        dead => println!(rt;
            "Every letter and every height is as it was written, but for the heights of {dead} dead columns: they are lost, and read as 0."
        )?,
    }
    Ok(())
}

// The letters that symbols stand for.
fn text(heap: Global, symbols: &[u16]) -> Result<String, AllocError> {
    let mut text = String::new(heap);
    for symbol in symbols {
        text.push(u8::try_from(*symbol).map_or('?', char::from))?;
    }
    Ok(text)
}

impl Week {
    // A page is ordered, and the label is written to it.
    pub(crate) fn monday(rt: &HostRuntime, label: &Contents) -> Result<Week, Trouble>
        ensures { IfOk result (λ week. Written (over week.page) (buffers label.now.symbols label.now.heights) week.cells) }
    {
        let page = order_kind(KIND, NUMBERS).map_err(refused)?;
        let mut cells = [0; 320];
        page.write(&mut cells, &label.symbols, &label.heights)
            .map_err(refused)?;
        println!(rt;
            "Monday. A page of kind {KIND} is ordered: {} rows of {} cells, {} of each for checks.",
            NUMBERS.rows, NUMBERS.columns, NUMBERS.checks
        )?;
        println!(rt;
            "A row is read exactly while twice its risen cells, plus the dead columns, is at most {}, and no cell is up by more than {} levels.",
            NUMBERS.checks, NUMBERS.drift
        )?;
        println!(rt;
            "A label is written: a letter is a cell's symbol, and how dark it is printed is the cell's height."
        )?;
        label.show(rt)?;
        Ok(Week { page, cells })
    }

    // Charge creeps up in some cells.
    pub(crate) fn tuesday(&mut self, rt: &HostRuntime, label: &Contents) -> Result<(), Trouble>
        ensures { OnOk result (ReadsAs (over self.new.page) (state self.new.page.plan self.new.cells) (buffers label.now.symbols label.now.heights)) }
    {
        println!(rt; "Tuesday. Charge creeps up in some cells.")?;
        for (row, column, amount) in CREEPS {
            self.page
                .raise(&mut self.cells, row, column, amount)
                .map_err(refused)?;
            println!(rt; "    Row {row}, column {column}: up by {amount} levels.")?;
        }
        read(rt, &self.page, &self.cells, label)
    }

    // Two columns are found dead, and marked; their cells read anything.
    pub(crate) fn wednesday(&mut self, rt: &HostRuntime) -> Result<(), Trouble> {
        for column in DEAD {
            self.page.mark(column).map_err(refused)?;
            for (row, reading) in GARBAGE.iter().enumerate() {
                self.page
                    .jolt(&mut self.cells, row as u16, column, *reading)
                    .map_err(refused)?;
            }
            println!(rt;
                "Wednesday. Column {column} is found dead, and marked. Its cells read {GARBAGE:?}."
            )?;
        }
        Ok(())
    }

    // The page is scrubbed and read back.
    pub(crate) fn thursday(&mut self, rt: &HostRuntime, label: &Contents) -> Result<(), Trouble>
        ensures { OnOk result (ReadsAs (over self.new.page) (state self.new.page.plan self.new.cells) (buffers label.now.symbols label.now.heights)) }
    {
        let (drifted, risen) = self.page.scrub(&mut self.cells).map_err(refused)?;
        println!(rt;
            "Thursday. The page is scrubbed. Cells set back to their levels: {drifted}, by {risen} levels in all."
        )?;
        read(rt, &self.page, &self.cells, label)
    }

    // The page leaves as an image. Whoever opens it takes the page from it, and the cells row by row.
    pub(crate) fn friday(&self, rt: &HostRuntime, label: &Contents) -> Result<(), Trouble> {
        let mut image = [0; 1536];
        save(&self.page, &self.cells, &mut image).map_err(refused)?;
        println!(rt;
            "Friday. The page is saved as an image of {} bytes. A stranger opens it.",
            image.len()
        )?;
        let opened = Raw::new(&image).open().map_err(refused)?;
        let mut cells = [0; 320];
        let (rows, _) = cells.as_chunks_mut::<40>();
        for (row, cells) in rows.iter_mut().enumerate() {
            opened.row(row as u16, cells).map_err(refused)?;
        }
        read(rt, opened.page(), &cells, label)
    }
}

// Reads the cells of a page, shows the text, and says whether it is what was written.
fn read(
    rt: &HostRuntime,
    page: &Page<KindField>,
    cells: &[u16],
    written: &Contents,
) -> Result<(), Trouble>
    ensures { OnOk result (ReadsAs (over page.now) (state page.now.plan cells.now) (buffers written.now.symbols written.now.heights)) }
{
    let mut read = Contents::empty();
    let (drifted, risen) = page
        .read(cells, &mut read.symbols, &mut read.heights)
        .map_err(refused)?;
    println!(rt; "It is read. Cells above their levels: {drifted}, by {risen} levels in all.")?;
    read.show(rt)?;
    let kept = written.kept_by(page);
    if read.symbols != kept.symbols || read.heights != kept.heights {
        return Err(Trouble::Differs);
    }
    conclude(rt, page.marked().len())
}
