// Refusals: what every refusal says, why an order is refused, and why a column cannot be marked.
ghost use Rattle.std.specs.Prelude.{◌≡◌};
ghost use Rattle.plans.specs.declared.fault.OrderFault.TheVariants.{Kind};
ghost use Rattle.plans.specs.Orders.{order_refusal};
ghost use Rattle.plans.specs.Marks.{mark_refusal};

use fields::UnknownKind;
use std::fmt;

// A refusal as every caller sees it, also one in C: its number, and two places, 0 where none is named.
#[derive(Clone, Copy, PartialEq, Eq, Debug)]
pub struct Refusal {
    pub number: u16,
    pub first: u16,
    pub second: u16,
}

impl Refusal {
    // The refusal of this number, with these places.
    pub fn new(number: u16, first: u16, second: u16) -> Refusal
        ensures { result ≡ record { number = number; first = first; second = second } }
    {
        Refusal {
            number,
            first,
            second,
        }
    }
}

impl fmt::Display for Refusal {
    fn fmt<W: fmt::Write>(&self, f: &mut fmt::Formatter<W>) -> fmt::Result {
        write!(f, "{} {} {}", self.number, self.first, self.second)
    }
}

// An order that is refused.
#[derive(Clone, Copy, PartialEq, Eq, Debug)]
pub enum OrderFault {
    // the kind number is unknown
    Kind,
    // the columns
    Columns,
    // the check columns
    Checks,
    // the rows
    Rows,
    // the heights, or the levels
    Heights,
    // the drift bound
    Drift,
}

impl From<OrderFault> for Refusal {
    ghost from_gives = { λ fault r. r ≡ order_refusal fault };

    fn from(fault: OrderFault) -> Refusal {
        let number = match fault {
            OrderFault::Kind => 1,
            OrderFault::Columns => 2,
            OrderFault::Checks => 3,
            OrderFault::Rows => 4,
            OrderFault::Heights => 5,
            OrderFault::Drift => 6,
        };
        Refusal::new(number, 0, 0)
    }
}

impl From<UnknownKind> for OrderFault {
    ghost from_gives = { λ _ r. r ≡ Kind };

    fn from(_unknown: UnknownKind) -> OrderFault {
        OrderFault::Kind
    }
}

// A column that cannot be marked.
#[derive(Clone, Copy, PartialEq, Eq, Debug)]
pub enum MarkFault {
    // there is no such column
    Column(u16),
    // it is marked already
    Marked(u16),
    // as many columns are marked as there are checks
    Full(u16),
}

impl From<MarkFault> for Refusal {
    ghost from_gives = { λ fault r. r ≡ mark_refusal fault };

    fn from(fault: MarkFault) -> Refusal {
        match fault {
            MarkFault::Column(column) => Refusal::new(14, 0, column),
            MarkFault::Marked(column) => Refusal::new(15, 0, column),
            MarkFault::Full(column) => Refusal::new(16, 0, column),
        }
    }
}

// A list of columns that is no marking of a page.
#[derive(Clone, Copy, PartialEq, Eq, Debug)]
pub enum MarkingFault {
    // it has more columns than may be marked
    Long,
    // the column in this place is not above the one before it, or there is no such column
    Column(u8),
}
