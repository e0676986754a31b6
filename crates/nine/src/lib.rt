// A maker's own field, that none of the kinds is: order 9. The number a + 3b stands for a + bt, where t × t = 2, modulo 3.
#![tactic(auto)]

ghost use Rattle.std.specs.Prelude.{◌≡◌, ◌<◌};
ghost use Rattle.fields.specs.Rings.{taken};
ghost use Rattle.nine.specs.Nines.{nine, inverse_of, point_of};
ghost use Rattle.nine.specs.Laws.{laws};

use fields::{Field, Ring, reduced};

#[derive(Clone, Copy)]
pub struct Nine;

const INVERSES: [u16; 9] = [0, 1, 2, 6, 5, 4, 3, 8, 7];

const POINTS: [u16; 8] = [1, 4, 6, 7, 2, 8, 3, 5];

impl Ring for Nine {
    ghost ops = { λ _. nine };

    ghost ring = { λ f. laws };

    fn order(&self) -> u16 {
        9
    }

    fn neg(&self, a: u16) -> u16 {
        let x = reduced(9, a);
        (3 - x % 3) % 3 + 3 * ((3 - x / 3) % 3)
    }

    fn add(&self, a: u16, b: u16) -> u16 {
        let x = reduced(9, a);
        let y = reduced(9, b);
        (x % 3 + y % 3) % 3 + 3 * ((x / 3 + y / 3) % 3)
    }

    fn mul(&self, a: u16, b: u16) -> u16 {
        let x = reduced(9, a);
        let y = reduced(9, b);
        (x % 3 * (y % 3) + 2 * (x / 3 * (y / 3))) % 3
            + 3 * ((x % 3 * (y / 3) + x / 3 * (y % 3)) % 3)
    }
}

impl Field for Nine {
    ghost inv = { λ _. inverse_of };

    ghost points = { λ _. point_of };

    fn inverse(&self, a: u16) -> u16 {
        INVERSES.get(a as usize).copied().unwrap_or(0)
    }

    fn point(&self, column: u16) -> u16 {
        POINTS.get(column as usize).copied().unwrap_or(0)
    }
}

#[cfg(test)]
mod tests {
    use super::*;
    use pages::page::Page;
    use plans::numbers::Numbers;
    use std::test::Fail;

    // A page of two rows over this field, and its cells.
    #[test]
    fn a_page_over_a_makers_field(rt: HostRuntime) -> Result<(), Fail> {
        let numbers = Numbers {
            columns: 4,
            checks: 2,
            rows: 2,
            heights: 3,
            drift: 8,
        };
        let Ok(page) = Page::order(Nine, numbers) else {
            return Err(Fail::new("the order is refused"));
        };
        let mut cells = [0u16; 8];
        let Ok(()) = page.write(&mut cells, &[1, 5, 8, 0], &[0, 1, 2, 0, 2, 2, 0, 1]) else {
            return Err(Fail::new("the write is refused"));
        };
        assert_eq!(rt; cells, [4, 12, 19, 5, 19, 22, 8, 9]);
        Ok(())
    }
}
