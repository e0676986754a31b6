// What a script works on: a page, once one is ordered, the caller's cells, and an image. Every command is carried out here.
use crate::answer::{Answer, Failure, refused};
use fields::KindField;
use images::open::Raw;
use images::save::save;
use images::size::image_size;
use pages::page::{Page, order_kind};
use plans::numbers::Numbers;
use scripts::command::{Command, LineFault, parse};
use std::alloc::{AllocError, Global};

// No page before the first order or opening that is accepted, and no image before one is saved or given.
#[derive(Drop)]
pub struct Bench {
    held: Option<Held>,
    image: Option<Vec<u8>>,
}

// A page, and the caller's cells.
#[derive(Drop)]
struct Held {
    page: Page<KindField>,
    cells: Vec<u16>,
}

impl Bench {
    pub(crate) fn new() -> Bench {
        Bench {
            held: None,
            image: None,
        }
    }

    // The answer to a line, and none for one with no words.
    pub(crate) fn answer(&mut self, heap: Global, line: &[u8]) -> Result<Option<Answer>, Failure> {
        match parse(heap, line)? {
            Some(command) => Ok(Some(self.carry_out(heap, command)?)),
            None => Ok(None),
        }
    }

    fn carry_out(&mut self, heap: Global, command: Command) -> Result<Answer, Failure> {
        match command {
            Command::Order { kind, numbers } => self.order(heap, kind, numbers),
            Command::Cells => self.held()?.show_cells(),
            Command::SetCells(cells) => self.held()?.set_cells(cells),
            Command::Write { symbols, heights } => self.held()?.write(&symbols, &heights),
            Command::Mark { column } => self.held()?.mark(column),
            Command::Raise {
                row,
                column,
                amount,
            } => self.held()?.raise(row, column, amount),
            Command::Jolt {
                row,
                column,
                reading,
            } => self.held()?.jolt(row, column, reading),
            Command::Read => self.held()?.read(heap),
            Command::ReadInto { symbols, heights } => {
                self.held()?
                    .read_into(heap, usize::from(symbols), usize::from(heights))
            }
            Command::Scrub => self.held()?.scrub(),
            Command::Save => self.save(heap),
            Command::Image => self.show_image(heap),
            Command::SetImage(bytes) => self.set_image(bytes),
            Command::Poke { at, byte } => self.poke(at, byte),
            Command::Open => self.open(heap),
            Command::HostCheck => self.host_check(),
            Command::HostScrub => self.host_scrub(),
        }
    }

    // What is held, for a command that needs a page.
    fn held(&mut self) -> Result<&mut Held, LineFault> {
        self.held.as_mut().ok_or(LineFault::NoPage)
    }

    // The image, for a command that needs one.
    fn image(&mut self) -> Result<&mut Vec<u8>, LineFault> {
        self.image.as_mut().ok_or(LineFault::NoImage)
    }

    // A new page, with as many cells of 0; a refusal leaves the page and the cells that there were.
    fn order(&mut self, heap: Global, kind: u16, numbers: Numbers) -> Result<Answer, Failure> {
        let page = order_kind(kind, numbers).map_err(refused)?;
        let cells = vec![in heap; 0; numbers.cell_count()]?;
        self.held = Some(Held { page, cells });
        Ok(Answer::Done)
    }

    // The page and the cells become the image; a refusal leaves the image that there was.
    fn save(&mut self, heap: Global) -> Result<Answer, Failure> {
        let held = self.held()?;
        let mut image = vec![in heap; 0; image_size(held.page.numbers())]?;
        save(&held.page, &held.cells, &mut image).map_err(refused)?;
        let saved = Answer::Saved {
            size: image.len(),
            checks: checks_of(heap, &image)?,
        };
        self.image = Some(image);
        Ok(saved)
    }

    fn show_image(&mut self, heap: Global) -> Result<Answer, Failure> {
        Ok(Answer::Image(hex::encode(heap, self.image()?.as_slice())?))
    }

    fn set_image(&mut self, bytes: Vec<u8>) -> Result<Answer, Failure> {
        self.image = Some(bytes);
        Ok(Answer::Done)
    }

    fn poke(&mut self, at: u16, byte: u8) -> Result<Answer, Failure> {
        let place = self
            .image()?
            .get_mut(usize::from(at))
            .ok_or(LineFault::NoPlace)?;
        *place = byte;
        Ok(Answer::Done)
    }

    // The page and the cells of the image take the place of those that there were.
    fn open(&mut self, heap: Global) -> Result<Answer, Failure> {
        let opened = Raw::new(self.image()?).open().map_err(refused)?;
        let mut cells = vec![in heap; 0; opened.page().numbers().cell_count()]?;
        opened.cells(&mut cells).map_err(refused)?;
        self.held = Some(Held {
            page: opened.into_page(),
            cells,
        });
        Ok(Answer::Done)
    }

    fn host_check(&mut self) -> Result<Answer, Failure> {
        Ok(Answer::Host(answers::check(self.image()?)))
    }

    fn host_scrub(&mut self) -> Result<Answer, Failure> {
        Ok(Answer::Host(answers::scrub(self.image()?)))
    }
}

// The check of each block of an image.
fn checks_of(heap: Global, image: &[u8]) -> Result<Vec<u32>, AllocError> {
    let (blocks, _) = image.as_chunks::<512>();
    let mut checks = Vec::new(heap);
    for block in blocks {
        checks.push(u32::from_le_bytes([block[508], block[509], block[510], block[511]]))?;
    }
    Ok(checks)
}

impl Held {
    fn show_cells(&self) -> Result<Answer, Failure> {
        Ok(Answer::Cells(self.cells.clone()?))
    }

    fn set_cells(&mut self, cells: Vec<u16>) -> Result<Answer, Failure> {
        self.cells = cells;
        Ok(Answer::Done)
    }

    fn write(&mut self, symbols: &[u16], heights: &[u16]) -> Result<Answer, Failure> {
        self.page
            .write(&mut self.cells, symbols, heights)
            .map_err(refused)?;
        Ok(Answer::Done)
    }

    fn mark(&mut self, column: u16) -> Result<Answer, Failure> {
        self.page.mark(column).map_err(refused)?;
        Ok(Answer::Done)
    }

    fn raise(&mut self, row: u16, column: u16, amount: u16) -> Result<Answer, Failure> {
        self.page
            .raise(&mut self.cells, row, column, amount)
            .map_err(refused)?;
        Ok(Answer::Done)
    }

    fn jolt(&mut self, row: u16, column: u16, reading: u16) -> Result<Answer, Failure> {
        self.page
            .jolt(&mut self.cells, row, column, reading)
            .map_err(refused)?;
        Ok(Answer::Done)
    }

    // Reads into buffers of the lengths that the page asks.
    fn read(&self, heap: Global) -> Result<Answer, Failure> {
        let numbers = self.page.numbers();
        self.read_into(heap, numbers.symbol_count(), numbers.cell_count())
    }

    // Reads into buffers of these lengths, of zeros.
    fn read_into(
        &self,
        heap: Global,
        symbol_count: usize,
        height_count: usize,
    ) -> Result<Answer, Failure> {
        let mut symbols = vec![in heap; 0; symbol_count]?;
        let mut heights = vec![in heap; 0; height_count]?;
        let (drifted, risen) = self
            .page
            .read(&self.cells, &mut symbols, &mut heights)
            .map_err(refused)?;
        Ok(Answer::Contents {
            drifted,
            risen,
            symbols,
            heights,
        })
    }

    fn scrub(&mut self) -> Result<Answer, Failure> {
        let (drifted, risen) = self.page.scrub(&mut self.cells).map_err(refused)?;
        Ok(Answer::Counted { drifted, risen })
    }
}
