// Correcting: the code row that is close enough to a row, where there is one.
ghost use Rattle.std.specs.Prelude.{◌≡◌, ℕ, ◌+◌, ◌-◌, ◌*◌, ◌<◌, ◌≤◌, true, false, not, ◌||◌, List, length, get_or, take, replicate, if◌then◌else◌, None, MatchOption, MatchResult, OnOk, ◌==◌, slice_index, slice_index_or};
ghost use Rattle.basics.specs.Checks.{verdict};
ghost use Rattle.basics.specs.Lists.{Updated};
ghost use Rattle.algebra.specs.Rows.{among, count, taken_row, CloseRow, Corrected};
ghost use Rattle.algebra.specs.Polynomials.{product, multiple, derivative};
ghost use Rattle.algebra.specs.Recurrences.{at, Shortest};
ghost use Rattle.algebra.specs.Coefficients.{product_entry, value_at};
ghost use Rattle.codes.specs.Correct.{correct_fault, FitsChecks, Flagged, repaired_at, Tells, Ready, Syndromes, LostSymbols, refusal, CorrectedRows, Left};

use crate::rows::{Row, cleared, power_table, rises};
use algebra::poly::{Coefficients, evaluate, one, product_at, times_factor};
use fields::{Field, LANES, Lanes, Ring, rules};
use solver::shortest_recurrence;
use std::array;

// Why rows are not corrected.
#[derive(Clone, Copy, PartialEq, Eq, Debug)]
pub enum CorrectFault {
    // no column, more than 256, or more than the field has points for
    Width,
    // more than 64 checks
    Checks,
    // more marked columns than checks, or not a rising list of columns of the row
    Marking,
    // not whole rows
    Length,
    // no code row is close enough to this row
    Lost(usize),
}

// What correcting needs of every row: how many columns and checks there are, the powers 1 and up of each column's point, its
// inverse, the marked columns, and the product of 1 − a z over their points a.
// Lists of their own, and not one of columns: sums go over whole lists of powers, and the rules speak of each list by itself.
#[derive(Drop)]
struct Tables {
    width: usize,
    checks: usize,
    powers: [Lanes; 256],
    inverses: Row,
    marks: [bool; 256],
    locator: Coefficients,
}

// Corrects rows with these marked columns.
#[derive(Drop)]
struct Corrector<'a, F: Field> {
    field: &'a F,
    marked: &'a [u16],
    tables: Tables,
    ghost ready: { Ready (record { ring = F.Ring.ops field.now; point = F.Field.points field.now }) (F.Field.inv field.now) marked.now tables },
}

// A recurrence: its coefficients, the constant 1 first, and its length.
#[derive(Drop)]
struct Recurrence {
    c: Coefficients,
    l: usize,
    ghost short: { l ≤ 64 },
}

// The damaged columns, and what Forney's formula divides: the value of the one polynomial by that of the other.
#[derive(Drop)]
struct Damage {
    columns: [bool; 256],
    above: Lanes,
    below: Lanes,
}

// What stands against correcting.
// Filling tests width and length alike: a function for these comparisons would have a clause longer than they are.
fn check(
    order: u16,
    width: usize,
    checks: usize,
    marked: &[u16],
    size: usize,
) -> Result<(), CorrectFault>
    ensures fault { result ≡ verdict (correct_fault order width checks marked.now size) }
    ensures fits { OnOk result (FitsChecks order width checks marked.now) }
{
    if width < 1 || width >= order as usize || width > 256 {
        return Err(CorrectFault::Width);
    }
    if checks > LANES {
        return Err(CorrectFault::Checks);
    }
    if marked.len() > checks || !rises(marked, width) {
        return Err(CorrectFault::Marking);
    }
    if size % width != 0 {
        return Err(CorrectFault::Length);
    }
    Ok(())
}

// The inverses of the points of the columns below the width.
fn inverse_points<F: Field>(field: &F, width: usize) -> Row
    requires { width ≤ 256 }
    ensures { Updated width (λ i. F.Field.inv field.now (F.Field.points field.now i)) (replicate 256 0) result }
{
    let mut inverses = [0; 256];
    for (i, inverse) in inverses[..width].iter_mut().enumerate() {
        *inverse = field.inverse(field.point(i as u16));
    }
    inverses
}

// Whether the column is one of the marked ones.
pub fn is_marked(marked: &[u16], column: usize) -> bool
    ensures { result ≡ among column marked.now }
{
    marked.iter().any(|m| *m as usize == column)
}

// The marked columns, as flags.
pub fn flags(marked: &[u16]) -> [bool; 256]
    ensures { Flagged 256 (λ k. among k marked.now) result }
{
    array::from_fn(|k| is_marked(marked, k))
}

// The product of 1 − a z over the points a of the flagged columns.
// Filling takes a list of points: here more may be flagged than a list holds, and that both products agree is a theorem nobody needs.
fn locator<F: Field>(field: &F, columns: &[bool]) -> Coefficients
    requires { length columns.now ≤ 256 }
    ensures { (j : ℕ) → j < 65 → slice_index result j ≡ product (F.Ring.ops field.now) (length columns.now) (λ k. get_or columns.now k false) (F.Field.points field.now) j }
{
    let mut locator = one();
    for (k, flagged) in columns.iter().enumerate() {
        if *flagged {
            locator = times_factor(field, field.point(k as u16), &locator);
        }
    }
    locator
}

// The polynomial c times the one whose coefficients are the syndromes, without the powers from `checks` on.
fn times_syndromes<R: Ring>(ring: &R, c: &Coefficients, syndromes: &Lanes, checks: usize) -> Lanes
    requires { checks ≤ 64 }
    ensures { Updated checks (product_entry (R.Ring.ops ring.now) c.now syndromes.now) (replicate 64 0) result }
{
    let mut product = [0; LANES];
    for (m, coefficient) in product[..checks].iter_mut().enumerate() {
        *coefficient = product_at(ring, c, syndromes, m);
    }
    product
}

// a, added as often as `often` says.
// A loop that only counts its turns, since a ring has no product by a whole number.
fn multiple_of<R: Ring>(ring: &R, often: usize, a: u16) -> u16
    ensures { result ≡ multiple (R.Ring.ops ring.now) often a }
{
    let mut total = 0;
    for _turn in 0..often {
        total = ring.add(a, total);
    }
    total
}

// The derivative of the polynomial c, without the powers from `checks` on.
fn derivative_of<R: Ring>(ring: &R, c: &Coefficients, checks: usize) -> Lanes
    requires { checks ≤ 64 }
    ensures { Updated checks (derivative (R.Ring.ops ring.now) (at c.now)) (replicate 64 0) result }
{
    let mut derivative = [0; LANES];
    for (j, coefficient) in derivative[..checks].iter_mut().enumerate() {
        *coefficient = multiple_of(ring, j + 1, c[j + 1]);
    }
    derivative
}

// A shortest recurrence of the values.
fn shortest<F: Field>(field: &F, values: &[u16]) -> Recurrence
    requires { length values.now ≤ 64 }
    ensures long { length result.c ≡ 65 }
    ensures shortest { Shortest (F.Ring.ops field.now) values.now result.l result.c }
{
    let mut c = [0; 65];
    let Some(l) = shortest_recurrence(field, values, &mut c) else {
        return Recurrence { c, l: 0 };
    };
    Recurrence { c, l }
}

// Whether a column is damaged: it is marked, or the recurrence is 0 at the inverse of its point.
fn is_damaged<R: Ring>(ring: &R, marked: bool, found: &Recurrence, inverse: u16) -> bool
    ensures { result ≡ (marked || value_at (R.Ring.ops ring.now) (take (found.now.l + 1) found.now.c) inverse == 0) }
{
    marked || evaluate(ring, &found.c[..found.l + 1], inverse) == 0
}

impl<'a, F: Field> Corrector<'a, F> {
    // The damaged columns.
    fn damaged(&self, found: &Recurrence) -> [bool; 256]
        ensures { Flagged self.now.tables.width (λ k. slice_index_or self.now.tables.marks k false || value_at (F.Ring.ops self.now.field.now) (take (found.now.l + 1) found.now.c) (slice_index self.now.tables.inverses k) == 0) result }
    {
        let tables = &self.tables;
        let mut columns = [false; 256];
        for (k, column) in columns[..tables.width].iter_mut().enumerate() {
            *column = is_damaged(self.field, tables.marks[k], found, tables.inverses[k]);
        }
        columns
    }

    // The symbol of a column: where it is damaged, Forney's value at the inverse of its point is subtracted from it.
    fn repaired_symbol(&self, damage: &Damage, column: usize, symbol: u16) -> u16
        requires { column < 256 }
        ensures { result ≡ repaired_at (F.Ring.ops self.now.field.now) (F.Field.inv self.now.field.now) damage.now self.now.tables.checks column (slice_index self.now.tables.inverses column) symbol }
    {
        if !damage.columns[column] {
            return symbol;
        }
        let field = self.field;
        let checks = self.tables.checks;
        let inverse = self.tables.inverses[column];
        let above = evaluate(field, &damage.above[..checks], inverse);
        let below = evaluate(field, &damage.below[..checks], inverse);
        let value = field.neg(field.mul(above, field.inverse(below)));
        field.add(symbol, field.neg(value))
    }

    // The row with its damaged columns repaired.
    fn repaired(&self, damage: &Damage, row: &Row) -> Row
        ensures { Updated self.now.tables.width (λ k. repaired_at (F.Ring.ops self.now.field.now) (F.Field.inv self.now.field.now) damage.now self.now.tables.checks k (slice_index self.now.tables.inverses k) (slice_index row.now k)) (replicate 256 0) result }
    {
        let mut repaired = [0; 256];
        for (k, symbol) in repaired[..self.tables.width].iter_mut().enumerate() {
            *symbol = self.repaired_symbol(damage, k, row[k]);
        }
        repaired
    }

    // How many columns that are not marked differ.
    fn distance(&self, a: &Row, b: &Row) -> usize
        ensures few { result ≤ self.now.tables.width }
        ensures value { result ≡ count self.now.tables.width (λ k. not (slice_index_or self.now.tables.marks k false || slice_index a.now k == slice_index b.now k)) }
    {
        let mut total: usize = 0;
        for (k, marked) in self.tables.marks[..self.tables.width].iter().enumerate() {
            total += differs(*marked, a[k], b[k]);
        }
        total
    }

    // The syndromes 1 and up of a row.
    fn syndromes_of(&self, row: &Row) -> Lanes
        ensures { Syndromes (record { ring = F.Ring.ops self.now.field.now; point = F.Field.points self.now.field.now }) self.now.tables.width self.now.tables.checks row.now result }
    {
        let tables = &self.tables;
        self.field
            .combine(&row[..tables.width], &tables.powers, tables.checks)
    }

    // That a row's symbols are elements is asked by each: a type of row that keeps it would be made anew at each step.
    // The row that is close enough, if there is one: a shortest recurrence of the syndromes, without what the marked columns add to
    // them, is 0 at the inverses of the points of the other columns that are damaged, and Forney's values repair them.
    fn candidate(&self, row: &Row, syndromes: &Lanes) -> Row
        requires elements { (k : ℕ) → k < self.now.tables.width → slice_index row.now k < (F.Ring.ops self.now.field.now).order }
        requires syndromes { Syndromes (record { ring = F.Ring.ops self.now.field.now; point = F.Field.points self.now.field.now }) self.now.tables.width self.now.tables.checks row.now syndromes.now }
        ensures elements { (k : ℕ) → k < self.now.tables.width → slice_index result k < (F.Ring.ops self.now.field.now).order }
        ensures only { (cs : List ℕ) → CloseRow (record { ring = F.Ring.ops self.now.field.now; point = F.Field.points self.now.field.now }) self.now.tables.checks self.now.marked.now (take self.now.tables.width row.now) cs → take self.now.tables.width result ≡ cs }
    {
        let field = self.field;
        let checks = self.tables.checks;
        let rest = times_syndromes(field, &self.tables.locator, syndromes, checks);
        let found = shortest(field, &rest[self.marked.len()..checks]);
        let columns = self.damaged(&found);
        let locator = locator(field, &columns[..self.tables.width]);
        let damage = Damage {
            columns,
            above: times_syndromes(field, &locator, syndromes, checks),
            below: derivative_of(field, &locator, checks),
        };
        self.repaired(&damage, row)
    }

    // Whether the repaired row is a code row that is close enough to the row.
    fn is_close(&self, row: &Row, repaired: &Row) -> bool
        requires { (k : ℕ) → k < self.now.tables.width → slice_index repaired.now k < (F.Ring.ops self.now.field.now).order }
        ensures { Tells result (CloseRow (record { ring = F.Ring.ops self.now.field.now; point = F.Field.points self.now.field.now }) self.now.tables.checks self.now.marked.now (take self.now.tables.width row.now) (take self.now.tables.width repaired.now)) }
    {
        let left = self.syndromes_of(repaired);
        if !all_zero(&left[..self.tables.checks]) {
            return false;
        }
        2 * self.distance(repaired, row) + self.marked.len() <= self.tables.checks
    }

    // The code row that is close enough to the row, or None where there is none.
    fn decode(&self, row: &Row) -> Option<Row>
        requires { (k : ℕ) → k < self.now.tables.width → slice_index row.now k < (F.Ring.ops self.now.field.now).order }
        ensures { MatchOption result ((cs : List ℕ) → CloseRow (record { ring = F.Ring.ops self.now.field.now; point = F.Field.points self.now.field.now }) self.now.tables.checks self.now.marked.now (take self.now.tables.width row.now) cs → ⊥) (λ v. CloseRow (record { ring = F.Ring.ops self.now.field.now; point = F.Field.points self.now.field.now }) self.now.tables.checks self.now.marked.now (take self.now.tables.width row.now) (take self.now.tables.width v)) }
    {
        let syndromes = self.syndromes_of(row);
        if all_zero(&syndromes[..self.tables.checks]) {
            return Some(*row);
        }
        let repaired = self.candidate(row, &syndromes);
        if !self.is_close(row, &repaired) {
            return None;
        }
        Some(repaired)
    }

    // Corrects one row, or leaves it where no code row is close enough to it: None says just that, so there is no type of error.
    fn correct(&self, symbols: &mut [u16]) -> Option<()>
        requires { length symbols.old ≡ self.now.tables.width }
        ensures { MatchOption result (LostSymbols (record { ring = F.Ring.ops self.now.field.now; point = F.Field.points self.now.field.now }) self.now.tables.checks self.now.marked.now symbols.old symbols.new) (λ _. Corrected (record { ring = F.Ring.ops self.now.field.now; point = F.Field.points self.now.field.now }) self.now.tables.checks self.now.marked.now (taken_row (F.Ring.ops self.now.field.now).order symbols.old) symbols.new) }
    {
        let row = cleared(self.field, self.marked, symbols);
        let found = self.decode(&row)?;
        symbols.copy_from_slice(&found[..self.tables.width]);
        Some(())
    }
}

// Whether the values are all 0.
fn all_zero(values: &[u16]) -> bool
    ensures { Tells result ((j : ℕ) → j < length values.now → slice_index values.now j ≡ 0) }
{
    values.iter().all(|v| *v == 0)
}

// 1 where the symbols of a column differ and it is not marked, else 0.
fn differs(marked: bool, a: u16, b: u16) -> usize
    ensures { result ≡ (if not (marked || a == b) then 1 else 0) }
{
    usize::from(!(marked || a == b))
}

// Corrects every row of `width` symbols: each becomes the one code row, with that many checks, that is close enough to it, which
// says that twice the unmarked columns that differ, plus the marked ones, is at most the number of checks. A symbol of the order
// or above counts as 0. The first row to which no code row is close enough is answered as lost; it and those after it stay.
pub fn correct_rows<F: Field>(
    field: &F,
    width: usize,
    checks: usize,
    marked: &[u16],
    rows: &mut [u16],
) -> Result<(), CorrectFault>
    ensures fault { MatchResult result (λ _. correct_fault (F.Ring.ops field.now).order width checks marked.now (length rows.old) ≡ None) (λ e. correct_fault (F.Ring.ops field.now).order width checks marked.now (length rows.old) ≡ refusal e) }
    ensures corrected { MatchResult result (λ _. CorrectedRows (record { ring = F.Ring.ops field.now; point = F.Field.points field.now }) width checks marked.now rows.old rows.new) (Left (record { ring = F.Ring.ops field.now; point = F.Field.points field.now }) width checks marked.now rows.old rows.new) }
{
    check(field.order(), width, checks, marked, rows.len())?;
    rules(field);
    let marks = flags(marked);
    let corrector = Corrector {
        field,
        marked,
        tables: Tables {
            width,
            checks,
            powers: power_table(field, width, checks),
            inverses: inverse_points(field, width),
            marks,
            locator: locator(field, &marks[..width]),
        },
    };
    // by their places, since nothing is known of rows that chunks_exact_mut has lent
    for k in 0..rows.len() / width {
        let Some(()) = corrector.correct(&mut rows[k * width..k * width + width]) else {
            return Err(CorrectFault::Lost(k));
        };
    }
    Ok(())
}
