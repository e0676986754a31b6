// Why a call on a page is refused.
ghost use Rattle.std.specs.Prelude.{◌≡◌};
ghost use Rattle.rules.specs.declared.fault.PageFault.TheVariants.{Order, Mark};
ghost use Rattle.rules.specs.Refusals.{buffer_number, page_refusal};

use plans::fault::{MarkFault, OrderFault, Refusal};

// The buffers that a caller brings, by the place that a refusal names.
#[derive(Clone, Copy, PartialEq, Eq, Debug)]
pub enum Buffer {
    Cells,
    Symbols,
    Heights,
    Image,
}

impl Buffer {
    // The place by which a refusal names it.
    // Lengths are tested where they are known: a function for it would take the buffer and both lengths, and say no less.
    pub fn number(self) -> u16
        ensures { result ≡ buffer_number self }
    {
        match self {
            Buffer::Cells => 1,
            Buffer::Symbols => 2,
            Buffer::Heights => 3,
            Buffer::Image => 4,
        }
    }
}

// A call on a page that is refused, with the row and the column that it names.
#[derive(Clone, Copy, PartialEq, Eq, Debug)]
pub enum PageFault {
    // the page's own numbers
    Order(OrderFault),
    // a buffer of another length than the page asks
    Length(Buffer),
    // a symbol of the order or above
    Symbol(u16, u16),
    // a height of the page's heights or above
    Height(u16, u16),
    // a column that cannot be marked
    Mark(MarkFault),
    // no such row or column
    Place(u16, u16),
    // a raise in a marked column
    Dead(u16, u16),
    // a jolt in an unmarked column
    Alive(u16, u16),
    // a raise by nothing, or above the highest level
    Amount(u16, u16),
    // an unmarked reading above the highest level
    Reading(u16, u16),
    // no code row is close enough to this row's symbols
    Lost(u16),
    // a drift above the bound
    Far(u16, u16),
    // a drift above the reading
    Under(u16, u16),
}

impl From<OrderFault> for PageFault {
    ghost from_gives = { λ f r. r ≡ Order f };

    fn from(fault: OrderFault) -> PageFault {
        PageFault::Order(fault)
    }
}

impl From<MarkFault> for PageFault {
    ghost from_gives = { λ f r. r ≡ Mark f };

    fn from(fault: MarkFault) -> PageFault {
        PageFault::Mark(fault)
    }
}

impl From<PageFault> for Refusal {
    ghost from_gives = { λ fault r. r ≡ page_refusal fault };

    fn from(fault: PageFault) -> Refusal {
        match fault {
            PageFault::Order(fault) => Refusal::from(fault),
            PageFault::Length(buffer) => Refusal::new(11, buffer.number(), 0),
            PageFault::Symbol(row, column) => Refusal::new(12, row, column),
            PageFault::Height(row, column) => Refusal::new(13, row, column),
            PageFault::Mark(fault) => Refusal::from(fault),
            PageFault::Place(row, column) => Refusal::new(14, row, column),
            PageFault::Dead(row, column) => Refusal::new(17, row, column),
            PageFault::Alive(row, column) => Refusal::new(18, row, column),
            PageFault::Amount(row, column) => Refusal::new(19, row, column),
            PageFault::Reading(row, column) => Refusal::new(21, row, column),
            PageFault::Lost(row) => Refusal::new(22, row, 0),
            PageFault::Far(row, column) => Refusal::new(23, row, column),
            PageFault::Under(row, column) => Refusal::new(24, row, column),
        }
    }
}
