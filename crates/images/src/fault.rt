// Why bytes are no image, and why saving one is refused.
ghost use Rattle.std.specs.Prelude.{◌≡◌};
ghost use Rattle.images.specs.Refusals.{image_refusal, save_refusal, byte_of_marking};
ghost use Rattle.images.specs.declared.fault.ImageFault.TheVariants.{Header, Marking};
ghost use Rattle.images.specs.declared.fault.SaveFault.TheVariants.{Page};

use plans::fault::{MarkingFault, OrderFault, Refusal};
use rules::fault::PageFault;

// Why bytes are no image.
#[derive(Clone, Copy, PartialEq, Eq, Debug)]
pub enum ImageFault {
    // their number
    Length,
    // the check of this block
    Check(u16),
    // this byte of the first word, or the edition
    Word(u16),
    // the header's order is refused
    Header(OrderFault),
    // the header's marking
    Marking(MarkingFault),
    // the number of blocks, and how many are wanted
    Blocks(u16),
    // filler that is not 0, by its block and byte
    Filler(u16, u16),
}

impl From<OrderFault> for ImageFault {
    ghost from_gives = { λ f r. r ≡ Header f };

    fn from(fault: OrderFault) -> ImageFault {
        ImageFault::Header(fault)
    }
}

impl From<MarkingFault> for ImageFault {
    ghost from_gives = { λ f r. r ≡ Marking f };

    fn from(fault: MarkingFault) -> ImageFault {
        ImageFault::Marking(fault)
    }
}

impl From<ImageFault> for Refusal {
    ghost from_gives = { λ fault r. r ≡ image_refusal fault };

    fn from(fault: ImageFault) -> Refusal {
        match fault {
            ImageFault::Length => Refusal::new(31, 0, 0),
            ImageFault::Check(block) => Refusal::new(32, block, 0),
            ImageFault::Word(byte) => Refusal::new(33, 0, byte),
            ImageFault::Header(fault) => Refusal::new(34, Refusal::from(fault).number, 0),
            ImageFault::Marking(fault) => Refusal::new(35, 0, marking_byte(fault)),
            ImageFault::Blocks(wanted) => Refusal::new(36, wanted, 0),
            ImageFault::Filler(block, byte) => Refusal::new(37, block, byte),
        }
    }
}

// Why a call of saving is refused.
#[derive(Clone, Copy, PartialEq, Eq, Debug)]
pub enum SaveFault {
    // the page's own numbers, or a buffer of another length
    Page(PageFault),
    // every level block has been put
    Full,
    // closed before every level block was put
    Early,
}

impl From<PageFault> for SaveFault {
    ghost from_gives = { λ f r. r ≡ Page f };

    fn from(fault: PageFault) -> SaveFault {
        SaveFault::Page(fault)
    }
}

impl From<SaveFault> for Refusal {
    ghost from_gives = { λ fault r. r ≡ save_refusal fault };

    fn from(fault: SaveFault) -> Refusal {
        match fault {
            SaveFault::Page(fault) => Refusal::from(fault),
            SaveFault::Full => Refusal::new(41, 0, 0),
            SaveFault::Early => Refusal::new(42, 0, 0),
        }
    }
}

// The byte that a fault of the marking names.
fn marking_byte(fault: MarkingFault) -> u16
    ensures { result ≡ byte_of_marking fault }
{
    match fault {
        MarkingFault::Long => 14,
        MarkingFault::Column(place) => 16 + 2 * place as u16,
    }
}
