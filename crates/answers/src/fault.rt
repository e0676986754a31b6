// Why a host's call is refused, and the one number that says it.
ghost use Rattle.std.specs.Prelude.{◌≡◌};
ghost use Rattle.answers.specs.Answers.{code_of, refusal_in, host_refusal, outcome_of, Says};
ghost use Rattle.answers.specs.declared.fault.HostFault.TheVariants.{Image, Page, Save};

use images::fault::{ImageFault, SaveFault};
use plans::fault::Refusal;
use rules::fault::PageFault;

// Why a call is refused.
#[derive(Clone, Copy, PartialEq, Eq, Debug)]
pub enum HostFault {
    // the bytes are no image
    Image(ImageFault),
    // the cells are not scrubbed
    Page(PageFault),
    // the scrubbed page is not saved; no page that was opened comes to this
    Save(SaveFault),
}

impl From<ImageFault> for HostFault {
    ghost from_gives = { λ f r. r ≡ Image f };

    fn from(fault: ImageFault) -> HostFault {
        HostFault::Image(fault)
    }
}

impl From<PageFault> for HostFault {
    ghost from_gives = { λ f r. r ≡ Page f };

    fn from(fault: PageFault) -> HostFault {
        HostFault::Page(fault)
    }
}

impl From<SaveFault> for HostFault {
    ghost from_gives = { λ f r. r ≡ Save f };

    fn from(fault: SaveFault) -> HostFault {
        HostFault::Save(fault)
    }
}

impl From<HostFault> for Refusal {
    ghost from_gives = { λ fault r. r ≡ host_refusal fault };

    fn from(fault: HostFault) -> Refusal {
        match fault {
            HostFault::Image(fault) => Refusal::from(fault),
            HostFault::Page(fault) => Refusal::from(fault),
            HostFault::Save(fault) => Refusal::from(fault),
        }
    }
}

// A refusal as one number.
fn code(refusal: Refusal) -> u64
    ensures code { result ≡ code_of refusal }
    ensures back { refusal_in result ≡ refusal }
{
    (refusal.number as u64) * 0x1_0000_0000
        + (refusal.first as u64) * 0x1_0000
        + refusal.second as u64
}

// An outcome as one number.
pub(crate) fn answer(outcome: Result<u32, HostFault>) -> u64
    ensures { Says result (outcome_of outcome) }
{
    match outcome {
        Ok(value) => value as u64,
        Err(fault) => code(Refusal::from(fault)),
    }
}
