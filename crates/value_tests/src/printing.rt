ghost use Rattle.std.specs.Prelude.{◌↔◌, IsTrue};
ghost use Rattle.cell_addr.specs.Place.{IsInside};
ghost use Rattle.formula_tree.specs.Reference.{base_of, corner_at};

use cell_addr::{COLS, NO_SHEET, OneSheet, Place, ROWS, Text};
use formula_print::print;
use formula_tree::{Home, Node, Part, Ref, SheetPart};
use std::alloc::{AllocError, Global};
use std::rc::Rc;
use std::test::Fail;

// The listed sheet has the number 0.
const HOME: Home = Home::Cell(Place {
    sheet: 1,
    row: 0,
    col: 0,
});

const NAME: Home = Home::Name { sheet: NO_SHEET };

/// Homes, references and their texts: the home's own sheet by its number, a sheet that isn't listed, a
/// home on no sheet.
const CELLS: &[(Home, SheetPart, Part, Part, &str)] = &[
    (
        HOME,
        SheetPart::Own,
        Part::Rel(1_048_575),
        Part::Rel(18_277),
        "=ZZZ1048576",
    ),
    (HOME, SheetPart::Id(1), Part::Rel(0), Part::Abs(0), "=$A1"),
    (HOME, SheetPart::Id(7), Part::Abs(0), Part::Abs(0), "=$A$1"),
    (NAME, SheetPart::Own, Part::Rel(3), Part::Abs(1), "=$B4"),
    (
        NAME,
        SheetPart::Id(0),
        Part::Abs(3),
        Part::Rel(1),
        "='O''Neil'!B$4",
    ),
];

/// Whether the reference names a place within the limits of a sheet.
fn is_inside(reference: Ref, home: Home) -> bool
    ensures { IsTrue result ↔ IsInside (corner_at (base_of home) reference).at }
{
    let at = reference.at(home).at;
    at.row < ROWS && at.col < COLS
}

// Whether the reference lies within the limits, and is printed as the text.
fn is_printed(
    alloc: Global,
    sheets: &OneSheet,
    home: Home,
    reference: Ref,
    text: &str,
) -> Result<bool, AllocError> {
    if !is_inside(reference, home) {
        return Ok(false);
    }
    let tree = Rc::new(alloc, Node::Cell(reference))?;
    Ok(print(alloc, &tree, home, sheets)?.as_str() == text)
}

#[test]
fn texts_of_references(rt: HostRuntime) -> Result<(), Fail> {
    let sheets = OneSheet {
        name: Text::from_str(rt.alloc(), "O'Neil")?,
    };
    for cell in CELLS {
        let (home, sheet, row, col, text) = *cell;
        let reference = Ref { sheet, row, col };
        assert!(rt;
            is_printed(rt.alloc(), &sheets, home, reference, text)?,
            "{text}"
        );
    }
    Ok(())
}

// The first and last cell of a block: the home's own sheet by its number, and corners with other `$`.
const FIRST: Ref = Ref {
    sheet: SheetPart::Id(1),
    row: Part::Abs(0),
    col: Part::Rel(0),
};

const LAST: Ref = Ref {
    sheet: SheetPart::Id(1),
    row: Part::Rel(1_048_575),
    col: Part::Abs(2),
};

// Whether the block between them is printed as the text.
fn block_is_printed(alloc: Global, sheets: &OneSheet, text: &str) -> Result<bool, AllocError> {
    if !is_inside(FIRST, HOME) || !is_inside(LAST, HOME) {
        return Ok(false);
    }
    let tree = Rc::new(alloc, Node::Area(FIRST, LAST))?;
    Ok(print(alloc, &tree, HOME, sheets)?.as_str() == text)
}

#[test]
fn text_of_a_block(rt: HostRuntime) -> Result<(), Fail> {
    let sheets = OneSheet {
        name: Text::from_str(rt.alloc(), "Two")?,
    };
    assert!(rt; block_is_printed(rt.alloc(), &sheets, "=A$1:$C1048576")?);
    Ok(())
}
