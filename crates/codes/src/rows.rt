// What every work on rows shares: a row's copy, its columns, and the powers of the columns' points.
ghost use Rattle.std.specs.Prelude.{◌≡◌, ◌+◌, ◌<◌, ◌≤◌, true, length, replicate, slice_index};
ghost use Rattle.basics.specs.Lists.{Updated};
ghost use Rattle.fields.specs.Rings.{taken, power};
ghost use Rattle.algebra.specs.Rows.{rising};
ghost use Rattle.codes.specs.Fill.{Tabled, power_of, Placed, Copied};

use fields::{Field, LANES, Lanes, Ring, reduced};

// A workplace for the symbols of a row, 0 from its width on, which stands beside it: its size is fixed, since there is no heap.
pub(crate) type Row = [u16; 256];

// A copy of the symbols of a row.
pub(crate) fn load(order: u16, symbols: &[u16]) -> Row
    requires { length symbols.now ≤ 256 }
    ensures { Updated (length symbols.now) (λ i. taken order (slice_index symbols.now i)) (replicate 256 0) result }
{
    let mut row = [0; 256];
    for (i, symbol) in symbols.iter().enumerate() {
        row[i] = reduced(order, *symbol);
    }
    row
}

// Sets the given columns of a row to the given values.
pub(crate) fn place(row: &mut Row, columns: &[u16], values: &Lanes)
    requires { (rising 0 256 columns.now ≡ true) × (length columns.now ≤ 64) }
    ensures { Placed (length columns.now) columns.now values.now row.old row.new }
{
    for (k, column) in columns.iter().enumerate() {
        row[*column as usize] = values[k];
    }
}

// A copy of the symbols of a row, with 0 in the given columns.
pub(crate) fn cleared<R: Ring>(ring: &R, columns: &[u16], symbols: &[u16]) -> Row
    requires few { length symbols.now ≤ 256 }
    requires checks { length columns.now ≤ 64 }
    requires columns { rising 0 (length symbols.now) columns.now ≡ true }
    ensures { Copied (R.Ring.ops ring.now).order columns.now symbols.now result }
{
    let mut row = load(ring.order(), symbols);
    place(&mut row, columns, &[0; LANES]);
    row
}

// Whether the columns rise, each below the width.
// A page's marking is tested alike, to say where it is wrong: the rules of each speak so, one of whether and one of where.
pub(crate) fn rises(columns: &[u16], width: usize) -> bool
    ensures { result ≡ rising 0 width columns.now }
{
    let mut least = 0;
    for column in columns {
        let column = *column as usize;
        if column < least || column >= width {
            return false;
        }
        least = column + 1;
    }
    true
}

// The powers 1 to `count` of a.
fn powers_of<R: Ring>(ring: &R, a: u16, count: usize) -> Lanes
    requires { count ≤ 64 }
    ensures { Updated count (λ j. power (R.Ring.ops ring.now) a (j + 1)) (replicate 64 0) result }
{
    let mut powers = [0; LANES];
    let mut last = 1;
    for (j, power) in powers[..count].iter_mut().enumerate() {
        last = ring.mul(a, last);
        *power = last;
    }
    powers
}

// The powers of the points of the columns below the width.
pub(crate) fn power_table<F: Field>(field: &F, width: usize, count: usize) -> [Lanes; 256]
    requires { (width ≤ 256) × (count ≤ 64) }
    ensures { Tabled width count (power_of (F.Ring.ops field.now) (F.Field.points field.now)) result }
{
    let mut table = [[0; LANES]; 256];
    for (i, powers) in table[..width].iter_mut().enumerate() {
        *powers = powers_of(field, field.point(i as u16), count);
    }
    table
}
