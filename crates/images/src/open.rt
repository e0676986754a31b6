// Opening: a raw image is looked at, and only an opened one gives its page and its rows.
ghost use Rattle.std.specs.Prelude.{◌≡◌, ℕ, ◌+◌, ◌*◌, ◌/◌, ◌%◌, ◌<◌, ◌≤◌, not, ◌||◌, length, take, IfOk, OnOk, None, ◌==◌, slice_index};
ghost use Rattle.basics.specs.Checks.{check, ◌or_else◌, lowest, told, verdict, fault_of};
ghost use Rattle.fields.specs.Numbered.{number_of};
ghost use Rattle.plans.specs.Orders.{outside};
ghost use Rattle.plans.specs.Marks.{marking_fault};
ghost use Rattle.rules.specs.Pages.{tabled};
ghost use Rattle.images.specs.Format.{image_size, image_of, blocks_of_levels, cell_count};
ghost use Rattle.rules.specs.Views.{kind_fault, of_kind};
ghost use Rattle.images.specs.Opening.{bytes_at, word_at, stream_place, reading_at, numbers_in, marking_in, stored_in, seal_fault, word_fault, filler_here, filler_fault, open_fault};
ghost use Rattle.images.specs.Laws.{Savable};
ghost use Rattle.images.specs.Opened.{Shows, row_fault, cells_fault};
ghost use Rattle.images.specs.Saving.{OrKept};
ghost use Rattle.images.specs.declared.fault.ImageFault.TheVariants.{Length, Header, Marking, Blocks};

use crate::block::{FIRST_BYTES, is_sealed};
use crate::fault::ImageFault;
use crate::size::{check_cells, level_blocks};
use fields::KindField;
use pages::page::{Page, order_kind};
use plans::numbers::Numbers;
use rules::fault::PageFault;
use std::array;

// The bytes of an image, which has no more than 34 blocks. They are kept by value, in fixed memory, since there is no heap.
type Bytes = [u8; 17408];

// An image as it came: as much of it as is kept, and how many bytes it has, which may be more.
#[derive(Drop)]
pub struct Raw {
    bytes: Bytes,
    size: usize,
}

// An image that was looked at and is one, with the page that it shows.
#[derive(Drop)]
pub struct Opened {
    image: Raw,
    page: Page<KindField>,
    pub ghost opens: { open_fault (bytes_at image.bytes) image.size ≡ None },
    pub ghost shows: { Shows (bytes_at image.bytes) page },
}

impl Raw {
    // Takes bytes for an image.
    pub fn new(bytes: &[u8]) -> Raw
        ensures size { result.size ≡ length bytes.now }
        ensures bytes { length bytes.now ≤ 17408 → (i : ℕ) → slice_index result.bytes i ≡ slice_index bytes.now i }
    {
        Raw {
            bytes: kept(bytes),
            size: bytes.len(),
        }
    }

    // Looks at the image, and opens it.
    pub fn open(self) -> Result<Opened, ImageFault>
        ensures fault { fault_of result ≡ open_fault (bytes_at self.bytes) self.size }
        ensures kept { IfOk result (λ opened. opened.image ≡ self) }
        ensures page { IfOk result (λ opened. Shows (bytes_at self.bytes) opened.page) }
        ensures image { OnOk result (take self.size self.bytes ≡ image_of (stored_in (bytes_at self.bytes))) }
        ensures savable { OnOk result (Savable (stored_in (bytes_at self.bytes))) }
    {
        let page = self.check()?;
        Ok(Opened { image: self, page })
    }

    // A number of bytes that no image has.
    fn check_size(&self) -> Result<(), ImageFault>
        ensures fault { result ≡ verdict (check (not (self.now.size % 512 == 0) || outside 1024 17408 self.now.size) Length) }
        ensures few { OnOk result (self.now.size ≤ 17408) }
    {
        if self.size % 512 != 0 || !(1024..=17408).contains(&self.size) {
            return Err(ImageFault::Length);
        }
        Ok(())
    }

    // The lowest block whose check is wrong.
    fn check_seals(&self) -> Result<(), ImageFault>
        requires { self.now.size ≤ 17408 }
        ensures { result ≡ verdict (lowest 0 (self.now.size / 512) (seal_fault (bytes_at self.now.bytes))) }
    {
        let (blocks, _) = self.bytes[..self.size].as_chunks::<512>();
        for (b, block) in blocks.iter().enumerate() {
            if !is_sealed(b as u16, block) {
                return Err(ImageFault::Check(b as u16));
            }
        }
        Ok(())
    }

    // The lowest byte of the first word or the edition that is wrong.
    fn check_word(&self) -> Result<(), ImageFault>
        ensures { result ≡ verdict (lowest 0 5 (word_fault (bytes_at self.now.bytes))) }
    {
        for (i, byte) in FIRST_BYTES.iter().enumerate() {
            if self.bytes[i] != *byte {
                return Err(ImageFault::Word(i as u16));
            }
        }
        Ok(())
    }

    // The numbers that the header names.
    fn numbers(&self) -> Numbers
        ensures { result ≡ numbers_in (bytes_at self.now.bytes) }
    {
        Numbers {
            columns: word(&self.bytes, 6),
            checks: self.bytes[8] as u16,
            rows: self.bytes[9] as u16,
            heights: word(&self.bytes, 10),
            drift: word(&self.bytes, 12),
        }
    }

    // The columns that the header names as marked, and more after them.
    fn columns(&self) -> [u16; 256]
        ensures { (count : ℕ) → count ≤ 256 → take count result ≡ tabled count (λ i. word_at (bytes_at self.now.bytes) (16 + 2 * i)) }
    {
        array::from_fn(|i| word(&self.bytes, 16 + 2 * i))
    }

    // Another number of blocks than the page has.
    fn check_blocks(&self, cells: usize) -> Result<(), ImageFault>
        requires { cells ≤ 8192 }
        ensures { result ≡ verdict (check (not (self.now.size == 512 * (1 + blocks_of_levels cells))) (Blocks (1 + blocks_of_levels cells))) }
    {
        let wanted = 1 + level_blocks(cells);
        if self.size != 512 * wanted {
            return Err(ImageFault::Blocks(wanted as u16));
        }
        Ok(())
    }

    // Whether place i is filler, on a page of this many cells.
    fn is_filler(&self, cells: usize, i: usize) -> bool
        requires { cells ≡ cell_count (numbers_in (bytes_at self.now.bytes)) }
        ensures { result ≡ filler_here (bytes_at self.now.bytes) i }
    {
        if i < 512 {
            i == 15 || (16 + 2 * self.bytes[14] as usize <= i && i < 508)
        } else {
            i % 512 < 508 && cells <= (508 * (i / 512 - 1) + i % 512) / 2
        }
    }

    // The lowest place of filler that is not 0.
    fn check_filler(&self, cells: usize) -> Result<(), ImageFault>
        requires cells { cells ≡ cell_count (numbers_in (bytes_at self.now.bytes)) }
        requires size { self.now.size ≤ 17408 }
        ensures { result ≡ verdict (lowest 0 self.now.size (filler_fault (bytes_at self.now.bytes))) }
    {
        for (i, byte) in self.bytes[..self.size].iter().enumerate() {
            if *byte != 0 && self.is_filler(cells, i) {
                return Err(ImageFault::Filler((i / 512) as u16, (i % 512) as u16));
            }
        }
        Ok(())
    }

    // The page that the header orders, with the columns that it marks.
    fn page(&self) -> Result<Page<KindField>, ImageFault>
        ensures fault { fault_of result ≡ (told Header (kind_fault (bytes_at self.now.bytes 5) (numbers_in (bytes_at self.now.bytes))) or_else told Marking (marking_fault (numbers_in (bytes_at self.now.bytes)) (marking_in (bytes_at self.now.bytes)))) }
        ensures page { IfOk result (Shows (bytes_at self.now.bytes)) }
    {
        let page = order_kind(self.bytes[5] as u16, self.numbers())?;
        let columns = self.columns();
        Ok(page.with_marking(&columns[..self.bytes[14] as usize])?)
    }

    // Why the bytes are no image, or the page that they show.
    fn check(&self) -> Result<Page<KindField>, ImageFault>
        ensures fault { fault_of result ≡ open_fault (bytes_at self.now.bytes) self.now.size }
        ensures page { IfOk result (Shows (bytes_at self.now.bytes)) }
    {
        self.check_size()?;
        self.check_seals()?;
        self.check_word()?;
        let page = self.page()?;
        let cells = page.numbers().cell_count();
        self.check_blocks(cells)?;
        self.check_filler(cells)?;
        Ok(page)
    }

    // Reading c: a level block holds 254 of them.
    fn reading(&self, c: usize) -> u16
        requires { c < 8192 }
        ensures { result ≡ reading_at (bytes_at self.now.bytes) c }
    {
        word(&self.bytes, 512 * (1 + c / 254) + 2 * (c % 254))
    }

    // Readings of an image that opens, from reading `first` on.
    fn fill(&self, first: usize, cells: &mut [u16])
        requires opens { open_fault (bytes_at self.now.bytes) self.now.size ≡ None }
        requires inside { first + length cells.old ≤ 8192 }
        ensures { cells.new ≡ tabled (length cells.old) (λ i. reading_at (bytes_at self.now.bytes) (first + i)) }
    {
        for (i, cell) in cells.iter_mut().enumerate() {
            *cell = self.reading(first + i);
        }
    }
}

// As many of the bytes as an image can have, and zeros after them.
// A plan pads its columns alike, which are never too many: two lines each, of other types and sizes.
fn kept(bytes: &[u8]) -> Bytes
    ensures { length bytes.now ≤ 17408 → (i : ℕ) → slice_index result i ≡ slice_index bytes.now i }
{
    let mut copy = [0; 17408];
    let count = bytes.len().min(17408);
    copy[..count].copy_from_slice(&bytes[..count]);
    copy
}

// The number of two bytes from place i on.
fn word(bytes: &[u8], i: usize) -> u16
    requires { i + 1 < length bytes.now }
    ensures { result ≡ word_at (bytes_at bytes.now) i }
{
    u16::from_le_bytes([bytes[i], bytes[i + 1]])
}

impl Opened {
    // The page.
    pub fn page(&self) -> &Page<KindField>
        ensures { result.now ≡ self.now.page }
    {
        &self.page
    }

    // The page, in the place of the image.
    pub fn into_page(self) -> Page<KindField>
        ensures { result ≡ self.page }
    {
        self.page
    }

    // Fills n cells with the readings of a row.
    pub fn row(&self, row: u16, cells: &mut [u16]) -> Result<(), PageFault>
        ensures fault { result ≡ verdict (row_fault (of_kind (number_of self.now.page.field) self.now.page.plan.numbers) (length cells.old) row) }
        ensures cells { OrKept result cells.old cells.new (cells.new ≡ tabled self.now.page.plan.numbers.columns (λ i. reading_at (bytes_at self.now.image.bytes) (row * self.now.page.plan.numbers.columns + i))) }
    {
        self.page.check()?;
        let numbers = self.page.numbers();
        check_cells(cells, numbers.columns as usize)?;
        if row >= numbers.rows {
            return Err(PageFault::Place(row, 0));
        }
        self.image
            .fill(row as usize * numbers.columns as usize, cells);
        Ok(())
    }

    // Fills as many cells as the page has with all readings.
    pub fn cells(&self, cells: &mut [u16]) -> Result<(), PageFault>
        ensures fault { result ≡ verdict (cells_fault (of_kind (number_of self.now.page.field) self.now.page.plan.numbers) (length cells.old)) }
        ensures cells { OrKept result cells.old cells.new (cells.new ≡ tabled (cell_count self.now.page.plan.numbers) (reading_at (bytes_at self.now.image.bytes))) }
    {
        self.page.check()?;
        check_cells(cells, self.page.numbers().cell_count())?;
        self.image.fill(0, cells);
        Ok(())
    }
}
