// What is copied, cut and pasted.
ghost use Rattle.formula_tree.specs.Reference.{IsHomeInside};
ghost use Rattle.formula_tree.specs.Seen.{seen};
ghost use Rattle.formula_tree.specs.StandsFor.{ArePlacesInside};

use cell_addr::{Block, OneSheet, Place, Text};
use clip_board::{Clip, CopyItem, CopyList, pasted};
use fix_num::Fixed;
use formula_tree::{Corner, Home, Plain, Pool, Tree};
use grid_store::Cell;
use std::alloc::{AllocError, Global};
use std::test::Fail;

const A1: Place = Place {
    sheet: 0,
    row: 0,
    col: 0,
};

const B2: Place = Place {
    sheet: 0,
    row: 1,
    col: 1,
};

const C4: Place = Place {
    sheet: 0,
    row: 3,
    col: 2,
};

// A reference to A1 without a `$`.
fn reference() -> Plain
    ensures { ArePlacesInside (seen result) }
{
    Plain::Cell(Corner {
        at: A1,
        row_fixed: false,
        col_fixed: false,
    })
}

// Pastes the formula of B2 into the home. Whether it keeps its tree.
fn keeps_tree(
    alloc: Global,
    pool: &mut Pool,
    copied: &Tree,
    to: Home,
    sheets: &OneSheet,
) -> Result<bool, AllocError>
    requires { IsHomeInside to }
{
    let tree = pasted(alloc, pool, copied, Home::Cell(B2), to, sheets)?;
    Ok(Tree::ptr_eq(&tree, copied))
}

// Whether a formula keeps its tree where its reference moves along, and gets another one where the reference is lost.
fn is_pasted(alloc: Global, pool: &mut Pool, sheets: &OneSheet) -> Result<bool, AllocError> {
    let copied = pool.intern(&reference(), Home::Cell(B2))?;
    let is_kept = keeps_tree(alloc, pool, &copied, Home::Cell(C4), sheets)? && pool.len() == 1;
    let is_lost = !keeps_tree(alloc, pool, &copied, Home::Cell(A1), sheets)?;
    Ok(is_kept && is_lost && pool.len() == 2)
}

#[test]
fn a_formula_is_pasted(rt: HostRuntime) -> Result<(), Fail> {
    let sheets = OneSheet {
        name: Text::from_str(rt.alloc(), "Plan")?,
    };
    let mut pool = Pool::new(rt.alloc())?;
    assert!(rt; is_pasted(rt.alloc(), &mut pool, &sheets)?);
    Ok(())
}

const AREA: Block = Block {
    sheet: 0,
    top: 1,
    left: 1,
    bottom: 1,
    right: 1,
};

// Puts a formula into the list.
fn put_formula(alloc: Global, cells: &mut CopyList) -> Result<(), AllocError> {
    let mut pool = Pool::new(alloc)?;
    let tree = pool.intern(&reference(), Home::Cell(B2))?;
    cells.push(B2, CopyItem::Formula(tree))?;
    Ok(())
}

// Whether a copy stays where a cut would end.
fn copy_stays(cells: CopyList) -> bool {
    let mut copy = Clip::copy_of(AREA, cells);
    copy.clear_cut();
    matches!(copy, Clip::Copied(_, _))
}

// Whether a cut ends.
fn cut_ends() -> bool {
    let mut cut = Clip::cut_of(AREA);
    cut.clear_cut();
    matches!(cut, Clip::Nothing)
}

#[test]
fn a_cut_ends_and_a_copy_stays(rt: HostRuntime) -> Result<(), Fail> {
    let mut cells = CopyList::new(rt.alloc())?;
    put_formula(rt.alloc(), &mut cells)?;
    assert!(rt; copy_stays(cells));
    assert!(rt; cut_ends());
    Ok(())
}

// Whether a list of what was copied has the one content that is put in.
fn has_copy(alloc: Global) -> Result<bool, AllocError> {
    let mut list = CopyList::new(alloc)?;
    list.push(B2, CopyItem::Kept(Cell::Number(Fixed::ONE)))?;
    Ok(
        matches!(list.items(), [(at, CopyItem::Kept(Cell::Number(one)))] if *at == B2 && *one == Fixed::ONE),
    )
}

#[test]
fn copies_have_what_is_put_in(rt: HostRuntime) -> Result<(), Fail> {
    assert!(rt; has_copy(rt.alloc())?);
    Ok(())
}
