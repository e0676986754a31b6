// Filling: given rows and as many columns as there are checks, the code rows that agree with them in all other columns.
ghost use Rattle.std.specs.Prelude.{◌≡◌, ℕ, ◌+◌, ◌-◌, ◌*◌, ◌/◌, ◌<◌, ◌≤◌, true, length, replicate, MatchResult, OnOk, slice_index};
ghost use Rattle.basics.specs.Checks.{verdict};
ghost use Rattle.basics.specs.Lists.{Updated};
ghost use Rattle.fields.specs.Rings.{Inverses, Points, entry};
ghost use Rattle.algebra.specs.Rows.{Filled};
ghost use Rattle.algebra.specs.Polynomials.{product};
ghost use Rattle.codes.specs.Fill.{fill_fault, Fits, FitsRow, Tabled, power_of, filler_of, FilledRows, nested};

use crate::rows::{cleared, place, power_table, rises};
use algebra::poly::{Coefficients, one, times_factor};
use fields::{Field, LANES, Lanes, Ring, rules};

// Why rows are not filled.
#[derive(Clone, Copy, PartialEq, Eq, Debug)]
pub enum FillFault {
    // no column, more than 256, or more than the field has points for
    Width,
    // more than 64 columns to fill, or not a rising list of columns of the row
    Columns,
    // not whole rows
    Length,
}

// Fills the given columns of rows, with what it needs of every row: the powers 1 and up of each column's point, and for each
// syndrome what it adds to each filled column.
#[derive(Drop)]
struct Filler<'a, F: Field> {
    field: &'a F,
    columns: &'a [u16],
    width: usize,
    powers: [Lanes; 256],
    fillers: [Lanes; 64],
    ghost fits: { FitsRow (F.Ring.ops field.now).order width columns.now },
    ghost inverses: { Inverses (F.Ring.ops field.now) (F.Field.inv field.now) },
    ghost points: { Points (F.Ring.ops field.now) (F.Field.points field.now) },
    ghost powers_are: { Tabled width (length columns.now) (power_of (F.Ring.ops field.now) (F.Field.points field.now)) powers },
    ghost fillers_are: { Tabled (length columns.now) (length columns.now) (filler_of (F.Ring.ops field.now) (F.Field.inv field.now) (F.Field.points field.now) columns.now) fillers },
}

// What stands against filling.
// Correcting tests width and length alike: a function for these comparisons would have a clause longer than they are.
fn check(order: u16, width: usize, columns: &[u16], size: usize) -> Result<(), FillFault>
    ensures fault { result ≡ verdict (fill_fault order width columns.now size) }
    ensures fits { OnOk result (Fits order width columns.now size) }
{
    if width < 1 || width >= order as usize || width > 256 {
        return Err(FillFault::Width);
    }
    if columns.len() > LANES || !rises(columns, width) {
        return Err(FillFault::Columns);
    }
    if size % width != 0 {
        return Err(FillFault::Length);
    }
    Ok(())
}

// The points of the given columns.
// That columns and points are no more than lanes is said by each function: a struct for it would wrap one slice, and be opened by each.
fn points_of<F: Field>(field: &F, columns: &[u16]) -> Lanes
    requires { length columns.now ≤ 64 }
    ensures { Updated (length columns.now) (λ k. F.Field.points field.now (slice_index columns.now k)) (replicate 64 0) result }
{
    let mut points = [0; LANES];
    for (k, column) in columns.iter().enumerate() {
        points[k] = field.point(*column);
    }
    points
}

// The product of 1 − a z over the points a.
// Correcting goes by flags: there more may be flagged than a list holds, and that both products agree is a theorem nobody needs.
fn locator<R: Ring>(ring: &R, points: &[u16]) -> Coefficients
    requires { length points.now ≤ 64 }
    ensures { (j : ℕ) → j < 65 → slice_index result j ≡ product (R.Ring.ops ring.now) (length points.now) (λ _. true) (λ k. slice_index points.now k) j }
{
    let mut locator = one();
    for point in points {
        locator = times_factor(ring, *point, &locator);
    }
    locator
}

// In each lane, one step of Horner's rule: point × sum + term.
fn horner_step<R: Ring>(ring: &R, points: &[u16], sums: &Lanes, terms: &Lanes) -> Lanes
    requires { length points.now ≤ 64 }
    ensures { Updated (length points.now) (λ k. (R.Ring.ops ring.now).add ((R.Ring.ops ring.now).mul (slice_index points.now k) (slice_index sums.now k)) (slice_index terms.now k)) (replicate 64 0) result }
{
    let mut next = [0; LANES];
    for (k, point) in points.iter().enumerate() {
        next[k] = ring.add(ring.mul(*point, sums[k]), terms[k]);
    }
    next
}

// The coefficients of the locator without the factor of each point, by rising degree; a lane for each point.
fn quotients<R: Ring>(ring: &R, points: &[u16], locator: &Coefficients) -> [Lanes; 64]
    requires { length points.now ≤ 64 }
    ensures { Tabled (length points.now) (length points.now) (λ j k. nested (R.Ring.ops ring.now) (slice_index points.now k) (λ i. slice_index locator.now i) (j + 1)) result }
{
    let mut table = [[0; LANES]; 64];
    let mut last = [0; LANES];
    for (j, quotient) in table[..points.len()].iter_mut().enumerate() {
        last = horner_step(ring, points, &last, &[locator[j]; LANES]);
        *quotient = last;
    }
    table
}

// The value of each lane's polynomial, its highest power first, at the lane's point.
fn values<R: Ring>(ring: &R, points: &[u16], table: &[Lanes; 64]) -> Lanes
    requires { length points.now ≤ 64 }
    ensures { (k : ℕ) → k < length points.now → slice_index result k ≡ nested (R.Ring.ops ring.now) (slice_index points.now k) (λ j. entry table.now j k) (length points.now) }
{
    let mut sums = [0; LANES];
    for terms in &table[..points.len()] {
        sums = horner_step(ring, points, &sums, terms);
    }
    sums
}

// In each lane, minus one over point × value.
fn weights<F: Field>(field: &F, points: &[u16], values: &Lanes) -> Lanes
    requires { length points.now ≤ 64 }
    ensures { Updated (length points.now) (λ k. (F.Ring.ops field.now).neg (F.Field.inv field.now ((F.Ring.ops field.now).mul (slice_index points.now k) (slice_index values.now k)))) (replicate 64 0) result }
{
    let mut weights = [0; LANES];
    for (k, point) in points.iter().enumerate() {
        weights[k] = field.neg(field.inverse(field.mul(*point, values[k])));
    }
    weights
}

// In each lane, a product.
fn lane_products<R: Ring>(ring: &R, xs: &[u16], ys: &Lanes) -> Lanes
    requires { length xs.now ≤ 64 }
    ensures { Updated (length xs.now) (λ k. (R.Ring.ops ring.now).mul (slice_index xs.now k) (slice_index ys.now k)) (replicate 64 0) result }
{
    let mut products = [0; LANES];
    for (k, x) in xs.iter().enumerate() {
        products[k] = ring.mul(*x, ys[k]);
    }
    products
}

// The quotients, highest degree first, times their weights.
fn weighted<R: Ring>(ring: &R, weights: &[u16], quotients: &[Lanes; 64]) -> [Lanes; 64]
    requires { length weights.now ≤ 64 }
    ensures { Tabled (length weights.now) (length weights.now) (λ s k. (R.Ring.ops ring.now).mul (slice_index weights.now k) (entry quotients.now (length weights.now - 1 - s) k)) result }
{
    let count = weights.len();
    let mut table = [[0; LANES]; 64];
    for (s, fillers) in table[..count].iter_mut().enumerate() {
        *fillers = lane_products(ring, weights, &quotients[count - 1 - s]);
    }
    table
}

// For each syndrome, what 1 of it adds to each column that is filled.
fn fill_table<F: Field>(field: &F, columns: &[u16]) -> [Lanes; 64]
    requires { length columns.now ≤ 64 }
    ensures { Tabled (length columns.now) (length columns.now) (filler_of (F.Ring.ops field.now) (F.Field.inv field.now) (F.Field.points field.now) columns.now) result }
{
    let all = points_of(field, columns);
    let points = &all[..columns.len()];
    let locator = locator(field, points);
    let quotients = quotients(field, points, &locator);
    let values = values(field, points, &quotients);
    let weights = weights(field, points, &values);
    weighted(field, &weights[..columns.len()], &quotients)
}

impl<'a, F: Field> Filler<'a, F> {
    // Fills the columns of one row.
    fn fill(&self, symbols: &mut [u16])
        requires { length symbols.old ≡ self.now.width }
        ensures { Filled (record { ring = F.Ring.ops self.now.field.now; point = F.Field.points self.now.field.now }) self.now.columns.now symbols.old symbols.new }
    {
        let checks = self.columns.len();
        let mut row = cleared(self.field, self.columns, symbols);
        let syndromes = self.field.combine(&row[..self.width], &self.powers, checks);
        let values = self
            .field
            .combine(&syndromes[..checks], &self.fillers, checks);
        place(&mut row, self.columns, &values);
        symbols.copy_from_slice(&row[..self.width]);
    }
}

// Fills the given columns of every row of `width` symbols: each row becomes the one code row, with as many checks as there
// are columns, that agrees with it in all other columns. A symbol of the order or above counts as 0.
pub fn fill_rows<F: Field>(
    field: &F,
    width: usize,
    columns: &[u16],
    rows: &mut [u16],
) -> Result<(), FillFault>
    ensures fault { result ≡ verdict (fill_fault (F.Ring.ops field.now).order width columns.now (length rows.old)) }
    ensures filled { MatchResult result (λ _. FilledRows (record { ring = F.Ring.ops field.now; point = F.Field.points field.now }) width columns.now rows.old rows.new) (λ _. rows.new ≡ rows.old) }
{
    check(field.order(), width, columns, rows.len())?;
    rules(field);
    let filler = Filler {
        field,
        columns,
        width,
        powers: power_table(field, width, columns.len()),
        fillers: fill_table(field, columns),
    };
    // by their places, since nothing is known of rows that chunks_exact_mut has lent
    for k in 0..rows.len() / width {
        filler.fill(&mut rows[k * width..k * width + width]);
    }
    Ok(())
}
