// The seven fields that come with the part, by a kind number from 1 to 7.
ghost use Rattle.std.specs.Prelude.{◌≡◌, ℕ, ◌+◌, ◌<◌, ◌≤◌, nat_lt};
ghost use Rattle.fields.specs.Rings.{taken, power as power_of};
ghost use Rattle.fields.specs.Kinds.{order_of, ops_of, generator_of, inverse_of, point_of, Powers};
ghost use Rattle.fields.specs.Numbered.{number_of, NumberedBy, LookedUp, Multiplies};
ghost use Rattle.fields.specs.Seven.{laws, number_in};

use crate::{Field, LANES, Lanes, Ring, reduced, tables};

// Kinds 1 to 4: whole numbers modulo 17, 31, 127 and 257. 5 to 7: binary polynomials modulo 0x13, 0x43 and 0x11D.
#[derive(Clone, Copy, PartialEq, Eq, Debug)]
pub enum KindField {
    Prime17,
    Prime31,
    Prime127,
    Prime257,
    Binary16,
    Binary64,
    Binary256,
}

// A number that is no kind.
#[derive(Clone, Copy, PartialEq, Eq, Debug)]
pub struct UnknownKind {
    pub kind: u16,
}

// What the products and inverses of a kind are looked up in.
#[derive(Clone, Copy)]
enum Lookup {
    Inverses(&'static [u16]),
    Logarithms(&'static [u16]),
}

// An element that others are multiplied by, with what is looked up once: in a prime kind the element; in a binary kind, where it
// is not 0, its logarithm and the tables.
#[derive(Clone, Copy)]
enum Factor {
    Zero,
    Element(u16),
    Logarithm {
        log: u16,
        logarithms: &'static [u16],
        powers: &'static [u16],
    },
}

impl TryFrom<u16> for KindField {
    type Error = UnknownKind;

    ghost try_from_gives = { NumberedBy };

    fn try_from(kind: u16) -> Result<Self, UnknownKind> {
        match kind {
            1 => Ok(KindField::Prime17),
            2 => Ok(KindField::Prime31),
            3 => Ok(KindField::Prime127),
            4 => Ok(KindField::Prime257),
            5 => Ok(KindField::Binary16),
            6 => Ok(KindField::Binary64),
            7 => Ok(KindField::Binary256),
            _ => Err(UnknownKind { kind }),
        }
    }
}

impl KindField {
    // The kind number.
    pub fn kind(&self) -> u8
        ensures { result ≡ number_of self.now }
    {
        match self {
            KindField::Prime17 => 1,
            KindField::Prime31 => 2,
            KindField::Prime127 => 3,
            KindField::Prime257 => 4,
            KindField::Binary16 => 5,
            KindField::Binary64 => 6,
            KindField::Binary256 => 7,
        }
    }

    fn size(&self) -> u16
        ensures { result ≡ order_of (number_of self.now) }
    {
        match self {
            KindField::Prime17 => 17,
            KindField::Prime31 => 31,
            KindField::Prime127 => 127,
            KindField::Prime257 => 257,
            KindField::Binary16 => 16,
            KindField::Binary64 => 64,
            KindField::Binary256 => 256,
        }
    }

    // a, or 0 where it is the order or above.
    fn reduced(&self, a: u16) -> u16
        ensures { result ≡ taken (order_of (number_of self.now)) a }
    {
        reduced(self.size(), a)
    }

    // Whether the field is of whole numbers modulo a prime.
    fn is_prime(&self) -> bool
        ensures { result ≡ nat_lt (number_of self.now) 5 }
    {
        matches!(self.lookup(), Lookup::Inverses(_))
    }

    fn powers(&self) -> &'static [u16]
        ensures { Powers (ops_of (number_of self.now)) (generator_of (number_of self.now)) result.now }
    {
        match self {
            KindField::Prime17 => &tables::POWERS_17,
            KindField::Prime31 => &tables::POWERS_31,
            KindField::Prime127 => &tables::POWERS_127,
            KindField::Prime257 => &tables::POWERS_257,
            KindField::Binary16 => &tables::POWERS_16,
            KindField::Binary64 => &tables::POWERS_64,
            KindField::Binary256 => &tables::POWERS_256,
        }
    }

    // The prime kinds have a table of inverses, the binary ones of logarithms.
    fn lookup(&self) -> Lookup
        ensures { LookedUp (number_of self.now) result }
    {
        match self {
            KindField::Prime17 => Lookup::Inverses(&tables::INVERSES_17),
            KindField::Prime31 => Lookup::Inverses(&tables::INVERSES_31),
            KindField::Prime127 => Lookup::Inverses(&tables::INVERSES_127),
            KindField::Prime257 => Lookup::Inverses(&tables::INVERSES_257),
            KindField::Binary16 => Lookup::Logarithms(&tables::LOGARITHMS_16),
            KindField::Binary64 => Lookup::Logarithms(&tables::LOGARITHMS_64),
            KindField::Binary256 => Lookup::Logarithms(&tables::LOGARITHMS_256),
        }
    }

    // a, to multiply by.
    fn factor(&self, a: u16) -> Factor
        ensures { Multiplies (number_of self.now) a result }
    {
        let x = self.reduced(a);
        match self.lookup() {
            Lookup::Inverses(_) => Factor::Element(x),
            Lookup::Logarithms(_) if x == 0 => Factor::Zero,
            Lookup::Logarithms(logarithms) => Factor::Logarithm {
                log: logarithms[x as usize],
                logarithms,
                powers: self.powers(),
            },
        }
    }

    // sum + the factor × b, in the field, which has this order.
    fn plus_times(&self, order: u16, factor: &Factor, sum: u16, b: u16) -> u16
        requires order { order ≡ order_of (number_of self.now) }
        requires factor { (a : ℕ) × Multiplies (number_of self.now) a factor.now }
        ensures { (a : ℕ) → Multiplies (number_of self.now) a factor.now → result ≡ (ops_of (number_of self.now)).add sum ((ops_of (number_of self.now)).mul a b) }
    {
        let s = reduced(order, sum);
        let y = reduced(order, b);
        match *factor {
            Factor::Zero => s,
            Factor::Element(x) => ((s as u32 + x as u32 * y as u32) % order as u32) as u16,
            Factor::Logarithm { .. } if y == 0 => s,
            Factor::Logarithm {
                log,
                logarithms,
                powers,
            } => s ^ self.power(powers, log as usize + logarithms[y as usize] as usize),
        }
    }

    // The power of the generator with an exponent below twice the number of its powers.
    fn power(&self, powers: &[u16], exponent: usize) -> u16
        requires table { Powers (ops_of (number_of self.now)) (generator_of (number_of self.now)) powers.now }
        requires few { exponent + 2 < order_of (number_of self.now) + order_of (number_of self.now) }
        ensures { result ≡ power_of (ops_of (number_of self.now)) (generator_of (number_of self.now)) exponent }
    {
        if exponent < powers.len() {
            powers[exponent]
        } else {
            powers[exponent - powers.len()]
        }
    }
}

impl Ring for KindField {
    ghost ops = { λ f. ops_of (number_of f) };

    ghost ring = { λ f. laws (number_of f) (number_in f) };

    fn order(&self) -> u16 {
        self.size()
    }

    fn neg(&self, a: u16) -> u16 {
        let x = self.reduced(a);
        if self.is_prime() {
            let q = self.size();
            (q - x) % q
        } else {
            x
        }
    }

    fn add(&self, a: u16, b: u16) -> u16 {
        let x = self.reduced(a);
        let y = self.reduced(b);
        if self.is_prime() {
            (x + y) % self.size()
        } else {
            x ^ y
        }
    }

    fn mul(&self, a: u16, b: u16) -> u16 {
        self.plus_times(self.size(), &self.factor(a), 0, b)
    }

    // The order and the factor are looked up once.
    fn scale_add(&self, a: u16, xs: &Lanes, sums: &mut Lanes, width: usize) {
        let order = self.size();
        let factor = self.factor(a);
        for (l, sum) in sums[..width.min(LANES)].iter_mut().enumerate() {
            *sum = self.plus_times(order, &factor, *sum, xs[l]);
        }
    }

    // And what x multiplies by, once for all coefficients.
    fn horner(&self, coefficients: &[u16], x: u16) -> u16 {
        let order = self.size();
        let factor = self.factor(x);
        let mut value = 0;
        for coefficient in coefficients.iter().rev() {
            value = self.plus_times(order, &factor, *coefficient, value);
        }
        value
    }
}

impl Field for KindField {
    ghost inv = { λ f. inverse_of (ops_of (number_of f)) };

    ghost points = { λ f. point_of (ops_of (number_of f)) (generator_of (number_of f)) };

    fn inverse(&self, a: u16) -> u16 {
        let x = self.reduced(a);
        match self.lookup() {
            Lookup::Inverses(inverses) => inverses[x as usize],
            Lookup::Logarithms(logarithms) => {
                let powers = self.powers();
                if x == 0 {
                    return 0;
                }
                self.power(powers, powers.len() - logarithms[x as usize] as usize)
            }
        }
    }

    fn point(&self, column: u16) -> u16 {
        self.powers().get(column as usize).copied().unwrap_or(0)
    }
}
