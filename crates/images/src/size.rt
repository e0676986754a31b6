// How many bytes an image takes, and cells of another number than is wanted.
ghost use Rattle.std.specs.Prelude.{◌≡◌, not, length, OnOk, ◌==◌};
ghost use Rattle.basics.specs.Checks.{check, verdict};
ghost use Rattle.rules.specs.declared.fault.Buffer.TheVariants.{Cells};
ghost use Rattle.rules.specs.declared.fault.PageFault.TheVariants.{Length};
ghost use Rattle.images.specs.Format.{blocks_of_levels, image_size as bytes_of};

use plans::numbers::Numbers;
use rules::fault::{Buffer, PageFault};

// How many level blocks hold the readings of this many cells.
pub(crate) fn level_blocks(cells: usize) -> usize
    ensures { result ≡ blocks_of_levels cells }
{
    cells.div_ceil(254)
}

// How many bytes the image of a page with these numbers has.
pub fn image_size(numbers: Numbers) -> usize
    ensures { result ≡ bytes_of numbers }
{
    512 * (1 + level_blocks(numbers.cell_count()))
}

// Another number of cells than is wanted.
pub(crate) fn check_cells(cells: &[u16], wanted: usize) -> Result<(), PageFault>
    ensures fault { result ≡ verdict (check (not (length cells.now == wanted)) (Length Cells)) }
    ensures size { OnOk result (length cells.now ≡ wanted) }
{
    if cells.len() != wanted {
        return Err(PageFault::Length(Buffer::Cells));
    }
    Ok(())
}
