use cell_addr::{Block, OneSheet, Place, Text};
use formula_parse::{ParseError, parse};
use formula_tree::{Home, Link, Pool, Tree, depth, names_of, places_of};
use std::alloc::{AllocError, Global};
use std::test::Fail;

// E5 on the sheet with the number 1.
const E5: Place = Place {
    sheet: 1,
    row: 4,
    col: 4,
};

// A1 to B3 on the sheet with the number 0.
const FIRST_CELLS: Block = Block {
    sheet: 0,
    top: 0,
    left: 0,
    bottom: 2,
    right: 1,
};

const FORMULA: &str = "=SUM(e5,'two'!$B$3:A1,-rate%,(TRUE),\"x\")*#n/a+1.5";

const NO_FORMULAS: &[&str] = &["1", "=1+", "=Two !A1"];

// Reads a formula of E5.
fn read(
    alloc: Global,
    pool: &mut Pool,
    sheets: &OneSheet,
    text: &str,
) -> Result<Option<Tree>, AllocError> {
    match parse(alloc, pool, text, Home::Cell(E5), sheets) {
        Ok(tree) => Ok(Some(tree)),
        Err(ParseError::Bad) => Ok(None),
        Err(ParseError::NoMemory) => Err(AllocError),
    }
}

// Whether the tree has one name, the rate.
fn has_name(alloc: Global, tree: &Tree) -> Result<bool, AllocError> {
    match names_of(alloc, tree)?.as_slice() {
        [name] => Ok(name.as_str() == "rate"),
        _ => Ok(false),
    }
}

// Whether the tree is linked to its own cell and to the first ones.
fn has_links(alloc: Global, tree: &Tree) -> Result<bool, AllocError> {
    match places_of(alloc, tree, Home::Cell(E5))?.as_slice() {
        [cell, area] => Ok(cell.same(&Link::Cell(E5)) && area.same(&Link::Area(FIRST_CELLS))),
        _ => Ok(false),
    }
}

// Whether the formula is read with its levels, its name and its links.
fn is_read(alloc: Global, pool: &mut Pool, sheets: &OneSheet) -> Result<bool, AllocError> {
    match read(alloc, pool, sheets, FORMULA)? {
        Some(tree) => {
            Ok(depth(&tree) == 6 && has_name(alloc, &tree)? && has_links(alloc, &tree)?)
        }
        None => Ok(false),
    }
}

// Whether none of the texts is a formula, and the pool stays empty.
fn are_bad(
    alloc: Global,
    pool: &mut Pool,
    sheets: &OneSheet,
    texts: &[&str],
) -> Result<bool, AllocError> {
    for text in texts {
        if read(alloc, pool, sheets, text)?.is_some() {
            return Ok(false);
        }
    }
    Ok(pool.is_empty())
}

#[test]
fn formulas_are_read(rt: HostRuntime) -> Result<(), Fail> {
    let sheets = OneSheet {
        name: Text::from_str(rt.alloc(), "Two")?,
    };
    let mut pool = Pool::new(rt.alloc())?;
    assert!(rt; are_bad(rt.alloc(), &mut pool, &sheets, NO_FORMULAS)?);
    assert!(rt; is_read(rt.alloc(), &mut pool, &sheets)?);
    Ok(())
}
