// Images: a page with its cells as blocks of 512 bytes, opened and written.
#![tactic(auto)]

pub mod block;
pub mod fault;
pub mod open;
pub mod save;
pub mod size;

#[cfg(test)]
mod tests {
    use crate::open::Raw;
    use crate::save::save;
    use pages::page::order_kind;
    use plans::numbers::Numbers;
    use std::test::Fail;

    // A page of two rows is saved, and its image opened: it gives the page's second row.
    #[test]
    fn a_row_of_a_saved_page(rt: HostRuntime) -> Result<(), Fail> {
        let numbers = Numbers {
            columns: 4,
            checks: 2,
            rows: 2,
            heights: 3,
            drift: 8,
        };
        let Ok(page) = order_kind(1, numbers) else {
            return Err(Fail::new("the order is refused"));
        };
        let mut image = [0; 1024];
        let Ok(()) = save(&page, &[4, 12, 19, 5, 19, 22, 8, 9], &mut image) else {
            return Err(Fail::new("the save is refused"));
        };
        let raw = Raw::new(&image);
        let Ok(opened) = raw.open() else {
            return Err(Fail::new("the image is refused"));
        };
        let mut row = [0; 4];
        let Ok(()) = opened.row(1, &mut row) else {
            return Err(Fail::new("the row is refused"));
        };
        assert_eq!(rt; row, [19, 22, 8, 9]);
        Ok(())
    }
}
