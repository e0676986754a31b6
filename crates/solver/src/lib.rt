// The shortest linear recurrence of up to 64 values over any field, by Massey's steps. The recurrence so far is tried on one
// value after the other; where it does not fit, a multiple of the one before its length last grew is added to it.
#![tactic(auto)]

ghost use Rattle.std.specs.Prelude.{◌≡◌, ℕ, ◌+◌, ◌<◌, ◌≤◌, length, MatchOption};
ghost use Rattle.algebra.specs.Polynomials.{Normal};
ghost use Rattle.algebra.specs.Recurrences.{at, Shortest};
ghost use Rattle.solver.specs.Stages.{mended, Held};

pub use algebra::poly::Coefficients;
use algebra::poly::{one, product_at};
use fields::{Field, Ring};

// The most values that are solved for. No length is above it, so that a polynomial of that degree is enough.
pub const MOST: usize = 64;

// The recurrence before its length last grew: its coefficients, its length, and the inverse of the sum, in place of 0, that it
// has at the first value that it does not fit.
#[derive(Drop)]
struct Earlier {
    c: Coefficients,
    l: usize,
    inverse: u16,
}

// Adds a × the earlier one, moved up by `up` places, to c. No other place is touched.
fn mend<R: Ring>(ring: &R, c: &mut Coefficients, a: u16, up: usize, before: &Earlier)
    requires room { before.now.l + up ≤ 64 }
    requires elements { (j : ℕ) → at c.old j < (R.Ring.ops ring.now).order }
    requires normal { Normal (R.Ring.ops ring.now).order before.now.l (at before.now.c) }
    ensures { (j : ℕ) → at c.new j ≡ mended (R.Ring.ops ring.now) (at c.old) a up (at before.now.c) j }
{
    for (j, b) in before.c[..before.l + 1].iter().enumerate() {
        c[up + j] = ring.add(c[up + j], ring.mul(a, *b));
    }
}

// Takes value i into account: c, of length l, is shortest for the values before it, and becomes so for the values up to it. The
// new length is returned.
fn step<F: Field>(
    field: &F,
    values: &[u16],
    i: usize,
    c: &mut Coefficients,
    l: usize,
    before: &mut Earlier,
) -> usize
    requires place { i < length values.now }
    requires few { i < 64 }
    requires held { Held (F.Ring.ops field.now) values.now i l c.old before.old }
    ensures { Held (F.Ring.ops field.now) values.now (i + 1) result c.new before.new }
{
    let x = product_at(field, &c[..l + 1], values, i);
    if x == 0 {
        return l;
    }
    // The earlier one has its sum at place l + before.l - 1, and up places later it meets x.
    let a = field.neg(field.mul(x, before.inverse));
    let longer = i + 1 - l;
    let up = longer - before.l;
    if i < 2 * l {
        mend(field, c, a, up, before);
        return l;
    }
    let old = *c;
    mend(field, c, a, up, before);
    *before = Earlier {
        c: old,
        l,
        inverse: field.inverse(x),
    };
    longer
}

// The length of a shortest recurrence of the values, and its coefficients in c; or None, with c as it was, where there are more
// than MOST values. A value of the field's order or above is taken as 0.
// c is lent and no part of the answer, since that a refusal leaves it as it was is promised too.
pub fn shortest_recurrence<F: Field>(
    field: &F,
    values: &[u16],
    c: &mut Coefficients,
) -> Option<usize>
    ensures { MatchOption result ((64 < length values.now) × (c.new ≡ c.old)) (λ l. (length values.now ≤ 64) × Shortest (F.Ring.ops field.now) values.now l c.new) }
{
    if values.len() > MOST {
        return None;
    }
    *c = one();
    let mut before = Earlier {
        c: one(),
        l: 0,
        inverse: 1,
    };
    let mut l = 0;
    // a step reads all values up to i, so it is given i and no entry
    for i in 0..values.len() {
        l = step(field, values, i, c, l, &mut before);
    }
    Some(l)
}
