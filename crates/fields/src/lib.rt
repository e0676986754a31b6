// Rings and fields on the numbers below an order: the two traits that a field shows, and seven fields by a kind number.
#![tactic(auto)]

ghost use Rattle.std.specs.Prelude.{◌≡◌, ℕ, ◌<◌, ◌≤◌, min, length, slice_index};
ghost use Rattle.fields.specs.Rings.{RingOps, RingLaws, Inverses, Points, Combined, taken, horner_of};
ghost use Rattle.basics.specs.Lists.{Updated};

mod kind;
mod tables;

pub use kind::{KindField, UnknownKind};

// As many lanes as a page has check columns at most. An array, since there is no heap; how many are used stands beside it.
pub const LANES: usize = 64;

pub type Lanes = [u16; LANES];

// a, or 0 where it is the order or above.
pub fn reduced(order: u16, a: u16) -> u16
    ensures { result ≡ taken order a }
{
    if a < order { a } else { 0 }
}

// A ring. Its meaning is `ops`; every argument of the order or above is taken as 0.
pub trait Ring {
    ghost ops: { Self → RingOps };

    fn order(&self) -> u16
        ensures { result ≡ (ops self.now).order };

    fn neg(&self, a: u16) -> u16
        ensures { result ≡ (ops self.now).neg a };

    fn add(&self, a: u16, b: u16) -> u16
        ensures { result ≡ (ops self.now).add a b };

    fn mul(&self, a: u16, b: u16) -> u16
        ensures { result ≡ (ops self.now).mul a b };

    // Adds a × xs to the lanes of `sums` below `width`. A field may override it with a faster body.
    fn scale_add(&self, a: u16, xs: &Lanes, sums: &mut Lanes, width: usize)
        ensures { Updated width (λ l. (ops self.now).add (slice_index sums.old l) ((ops self.now).mul a (slice_index xs.now l))) sums.old sums.new }
    {
        for (l, sum) in sums[..width.min(LANES)].iter_mut().enumerate() {
            *sum = self.add(*sum, self.mul(a, xs[l]));
        }
    }

    // The sum of coefficient × row, in the lanes below `width`. Syndromes and check symbols come of it.
    fn combine(&self, coefficients: &[u16], rows: &[Lanes], width: usize) -> Lanes
        ensures { Combined (ops self.now) width (min (length coefficients.now) (length rows.now)) coefficients.now rows.now result }
    {
        let mut sums = [0; LANES];
        let count = coefficients.len().min(rows.len());
        for (i, row) in rows[..count].iter().enumerate() {
            self.scale_add(coefficients[i], row, &mut sums, width);
        }
        sums
    }

    // The value at x of the polynomial of these coefficients, the constant first.
    fn horner(&self, coefficients: &[u16], x: u16) -> u16
        ensures { result ≡ horner_of (ops self.now) coefficients.now x }
    {
        coefficients
            .iter()
            .rev()
            .fold(0, |value, c| self.add(*c, self.mul(x, value)))
    }

    ghost ring: { (f : Self) → RingLaws (ops f) };
}

// A ring with inverses and column points. Their rules stand in what the functions promise, for every element.
pub trait Field: Ring {
    ghost inv: { Self → ℕ → ℕ };

    ghost points: { Self → ℕ → ℕ };

    fn inverse(&self, a: u16) -> u16
        ensures value { result ≡ inv self.now a }
        ensures rule { Inverses (Self.Ring.ops self.now) (inv self.now) };

    fn point(&self, column: u16) -> u16
        ensures value { result ≡ points self.now column }
        ensures rule { Points (Self.Ring.ops self.now) (points self.now) };
}

// The rules of inverses and points, which the field's functions promise of every element.
pub fn rules<F: Field>(field: &F)
    ensures inverses { Inverses (F.Ring.ops field.now) (F.Field.inv field.now) }
    ensures points { Points (F.Ring.ops field.now) (F.Field.points field.now) }
{
    let _ = field.inverse(1);
    let _ = field.point(0);
}
