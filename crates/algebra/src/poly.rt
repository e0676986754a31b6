// Polynomials over any ring, as slices of coefficients, the constant first; past the last they are 0.
ghost use Rattle.std.specs.Prelude.{◌≡◌, ℕ, ◌<◌, length, replicate, slice_index};
ghost use Rattle.basics.specs.Lists.{Updated};
ghost use Rattle.algebra.specs.Polynomials.{times, unit};
ghost use Rattle.algebra.specs.Coefficients.{sum_at, product_entry, value_at};

use fields::Ring;
use std::array;

// A polynomial of a degree up to the most lanes.
pub type Coefficients = [u16; 65];

// Adds the polynomial b to the polynomial a, in the places that a has.
pub fn add<R: Ring>(ring: &R, a: &mut [u16], b: &[u16])
    ensures { Updated (length a.old) (sum_at (R.Ring.ops ring.now) a.old b.now) a.old a.new }
{
    for (j, coefficient) in a.iter_mut().enumerate() {
        let other = b.get(j).copied().unwrap_or(0);
        *coefficient = ring.add(*coefficient, other);
    }
}

// Coefficient m of a × b. Only the places that both have are looked at: a is walked up and b down, which their places say
// more plainly than a chain that takes a part of each and turns one round.
pub fn product_at<R: Ring>(ring: &R, a: &[u16], b: &[u16], m: usize) -> u16
    ensures { result ≡ product_entry (R.Ring.ops ring.now) a.now b.now m }
{
    let places = m.saturating_add(1);
    let mut total = 0;
    for j in places.saturating_sub(b.len())..a.len().min(places) {
        total = ring.add(total, ring.mul(a[j], b[m - j]));
    }
    total
}

// Sets `product` to a × b without the powers that it has no places for.
pub fn multiply<R: Ring>(ring: &R, a: &[u16], b: &[u16], product: &mut [u16])
    ensures { Updated (length product.old) (product_entry (R.Ring.ops ring.now) a.now b.now) product.old product.new }
{
    for (m, coefficient) in product.iter_mut().enumerate() {
        *coefficient = product_at(ring, a, b, m);
    }
}

// The value of the polynomial at x.
pub fn evaluate<R: Ring>(ring: &R, coefficients: &[u16], x: u16) -> u16
    ensures { result ≡ value_at (R.Ring.ops ring.now) coefficients.now x }
{
    ring.horner(coefficients, x)
}

// The polynomial 1.
pub fn one() -> Coefficients
    ensures { (j : ℕ) → slice_index result j ≡ unit 0 j }
{
    let mut c = [0; 65];
    c[0] = 1;
    c
}

// Coefficient j of c × (1 − a z).
fn times_at<R: Ring>(ring: &R, a: u16, c: &Coefficients, j: usize) -> u16
    requires { j < 65 }
    ensures { result ≡ times (R.Ring.ops ring.now) a (λ i. slice_index c.now i) j }
{
    if j == 0 {
        c[0]
    } else {
        ring.add(c[j], ring.neg(ring.mul(a, c[j - 1])))
    }
}

// c × (1 − a z), without the power that it has no place for.
pub fn times_factor<R: Ring>(ring: &R, a: u16, c: &Coefficients) -> Coefficients
    ensures { Updated 65 (times (R.Ring.ops ring.now) a (λ i. slice_index c.now i)) (replicate 65 0) result }
{
    array::from_fn(|j| times_at(ring, a, c, j))
}
