// Saving: an image is begun, its level blocks are put in order, and it is closed or abandoned.
ghost use Rattle.std.specs.Prelude.{◌≡◌, ℕ, ◌+◌, ◌*◌, ◌<◌, ◌≤◌, true, false, length, IfOk, OnOk};
ghost use Rattle.basics.specs.Checks.{verdict, fault_of};
ghost use Rattle.fields.specs.Numbered.{number_of};
ghost use Rattle.rules.specs.Pages.{tabled};
ghost use Rattle.rules.specs.Views.{marking, of_kind};
ghost use Rattle.images.specs.Format.{head_at, sealed_at, blocks_of_levels, cell_count, image_of};
ghost use Rattle.images.specs.Laws.{Savable, ImageLaw};
ghost use Rattle.images.specs.Saving.{BlockSet, OrKept, count_after, LevelsSet, begin_fault, image_fault, put_fault, close_fault, closed, abandoned, save_fault, stored};

use crate::block::{Block, head_block, level_block};
use crate::fault::SaveFault;
use crate::size::{check_cells, level_blocks};
use fields::KindField;
use pages::page::Page;
use rules::fault::{Buffer, PageFault};

// An image that is begun and owed an end: how many cells it has, and how many of its level blocks have been put.
// It holds plain numbers, and whether it was ended is one of them: what its Drop demands can be said only of what it holds.
pub struct Begun {
    cells: usize,
    put: usize,
    spent: bool,
    ghost few: { cells ≤ 8192 },
}

// Only a begun image that was closed or abandoned can be let go.
impl Drop for Begun {
    fn drop(self)
        requires { self.spent ≡ true }
    {
        let Begun {
            cells: _,
            put: _,
            spent: _,
        } = self;
    }
}

// Sets block b of an image.
fn put_block(b: usize, block: &Block, image: &mut [u8])
    requires { 512 * b + 512 ≤ length image.old }
    ensures { (f : ℕ → ℕ) → block.now ≡ tabled 512 f → BlockSet b f image.old image.new }
{
    image[512 * b..512 * b + 512].copy_from_slice(block);
}

// A buffer of another length than the image of this many cells.
fn check_image(cells: usize, image: &[u8]) -> Result<(), SaveFault>
    requires { cells ≤ 8192 }
    ensures fault { result ≡ verdict (image_fault cells (length image.now)) }
    ensures size { OnOk result (length image.now ≡ 512 * (1 + blocks_of_levels cells)) }
{
    if image.len() != 512 * (1 + level_blocks(cells)) {
        return Err(SaveFault::Page(PageFault::Length(Buffer::Image)));
    }
    Ok(())
}

// Begins the image of a page: sets block 0 of the buffer, and no other byte.
pub fn begin(page: &Page<KindField>, image: &mut [u8]) -> Result<Begun, SaveFault>
    ensures fault { fault_of result ≡ begin_fault (of_kind (number_of page.now.field) page.now.plan.numbers) (length image.old) }
    ensures begun { IfOk result (λ begun. (begun.cells ≡ cell_count page.now.plan.numbers) × (begun.put ≡ 0) × (begun.spent ≡ false)) }
    ensures image { OrKept result image.old image.new (BlockSet 0 (sealed_at 0 (head_at (number_of page.now.field) page.now.plan.numbers (marking page.now.plan))) image.old image.new) }
{
    page.check()?;
    let numbers = page.numbers();
    let cells = numbers.cell_count();
    check_image(cells, image)?;
    let head = head_block(page.field().kind(), numbers, page.marked());
    put_block(0, &head, image);
    Ok(Begun {
        cells,
        put: 0,
        spent: false,
    })
}

impl Begun {
    // The next level block, from all the cells: it is set, and no other byte.
    pub fn put(&mut self, cells: &[u16], image: &mut [u8]) -> Result<(), SaveFault>
        ensures fault { result ≡ verdict (put_fault self.old.cells self.old.put (length cells.now) (length image.old)) }
        ensures image { OrKept result image.old image.new (LevelsSet self.old.put cells.now image.old image.new) }
        ensures count { self.new.put ≡ count_after result self.old.put }
        ensures cells { self.new.cells ≡ self.old.cells }
        ensures owed { self.new.spent ≡ self.old.spent }
    {
        check_cells(cells, self.cells)?;
        check_image(self.cells, image)?;
        if self.put >= level_blocks(self.cells) {
            return Err(SaveFault::Full);
        }
        put_block(self.put + 1, &level_block(self.put, cells), image);
        self.put += 1;
        Ok(())
    }

    // Ends the image. Where every level block has been put no byte moves; else the buffer is set to 0.
    pub fn close(self, image: &mut [u8]) -> Result<(), SaveFault>
        ensures fault { result ≡ verdict (close_fault self.cells self.put (length image.old)) }
        ensures image { image.new ≡ closed (close_fault self.cells self.put (length image.old)) image.old }
    {
        let mut ended = self;
        ended.spent = true;
        check_image(ended.cells, image)?;
        if ended.put < level_blocks(ended.cells) {
            image.fill(0);
            return Err(SaveFault::Early);
        }
        Ok(())
    }

    // Ends the image, and sets the buffer to 0.
    pub fn abandon(self, image: &mut [u8]) -> Result<(), SaveFault>
        ensures fault { result ≡ verdict (image_fault self.cells (length image.old)) }
        ensures image { image.new ≡ abandoned (image_fault self.cells (length image.old)) image.old }
    {
        let mut ended = self;
        ended.spent = true;
        check_image(ended.cells, image)?;
        image.fill(0);
        Ok(())
    }
}

// The image of a page and its cells: begun, put block by block, and closed.
#[tactic(auto, using(crate::proofs::Both::image_law))]
pub fn save(page: &Page<KindField>, cells: &[u16], image: &mut [u8]) -> Result<(), SaveFault>
    ensures fault { result ≡ verdict (save_fault (of_kind (number_of page.now.field) page.now.plan.numbers) (length cells.now) (length image.old)) }
    ensures image { OrKept result image.old image.new (image.new ≡ image_of (stored (number_of page.now.field) page.now.plan cells.now)) }
    ensures savable { OnOk result (Savable (stored (number_of page.now.field) page.now.plan cells.now)) }
    ensures law { ImageLaw }
{
    page.check()?;
    check_cells(cells, page.numbers().cell_count())?;
    let mut begun = begin(page, image)?;
    for _block in 0..level_blocks(cells.len()) {
        // no put is refused here, and `?` would let go of an image that is owed an end
        let _ = begun.put(cells, image);
    }
    begun.close(image)
}
