// Each list has what is put into it.
use book_model::{BookCell, BookCells};
use cell_addr::{Place, Text};
use grid_store::{Cell, CellList};
use name_table::NameList;
use std::alloc::{AllocError, Global};

const PLACE: Place = Place {
    sheet: 0,
    row: 1,
    col: 2,
};

// Whether a list of cells has the one that is put in.
fn has_cell(alloc: Global) -> Result<bool, AllocError> {
    let mut list = CellList::new(alloc)?;
    list.push(PLACE, Cell::Formula(7))?;
    Ok(matches!(list.items(), [(at, Cell::Formula(7))] if *at == PLACE))
}

// Whether a list of names has the one pair that is put in.
fn has_name(alloc: Global) -> Result<bool, AllocError> {
    let mut list = NameList::new(alloc)?;
    list.push(3, 9)?;
    Ok(list.items() == [(3, 9)].as_slice())
}

// Whether a list of given cells has the one that is put in.
fn has_given_cell(alloc: Global) -> Result<bool, AllocError> {
    let mut list = BookCells::new(alloc)?;
    let text = Text::from_str(alloc, "5")?;
    list.push(BookCell {
        row: 1,
        col: 0,
        text,
    })?;
    Ok(matches!(list.items(), [cell] if cell.row == 1 && cell.text.as_str() == "5"))
}

#[test]
fn lists_have_what_is_put_in(rt: HostRuntime) -> Result<(), AllocError> {
    assert!(rt; has_cell(rt.alloc())? && has_name(rt.alloc())?);
    assert!(rt; has_given_cell(rt.alloc())?);
    Ok(())
}
