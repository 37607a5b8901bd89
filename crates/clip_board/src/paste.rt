// Formulas as they are pasted.
ghost use Rattle.std.specs.Prelude.{◌≡◌, ◌<◌, ◌^◌, ◌&&◌, IfOk, OnErr, true};
ghost use Rattle.formula_tree.specs.Grammar.{placed};
ghost use Rattle.formula_tree.specs.Pooled.{held};
ghost use Rattle.formula_tree.specs.Reference.{IsHomeInside, base_of, corner_at, ref_from};
ghost use Rattle.formula_tree.specs.Relative.{relative};
ghost use Rattle.formula_tree.specs.StandsFor.{StandsFor, at_home, from_home};
ghost use Rattle.tree_rewrite.specs.Pasted as pasting;
ghost use Rattle.tree_rewrite.specs.Pasted.{address_pasted, is_inside, line_pasted, sheet_if, sheet_pasted};
ghost use Rattle.tree_rewrite.specs.Pooled.{HoldsChanged};

use cell_addr::{Axis, COLS, ROWS, SheetNames};
use cell_value::FaultKind;
use formula_tree::{Address, Corner, Home, NO_LINE, Node, Pool, Ref, Tree};
use std::alloc::{AllocError, Global};
use tree_rewrite::{Replacement, changed_area, changed_cell, replaced};

/// The tree of a formula that is copied at `from` and pasted at `to`, in a workbook of these sheets.
///
/// A row or column without `$` goes as far as the formula does. A reference to the sheet of `from` becomes one to that of
/// `to`. Then what is off the sheet, or on a sheet that isn't listed, is the fault `#REF!`, a block where one of its corners
/// is, and a range of whole rows or columns where one of its ends is; and the corners of a block, and the ends of such a
/// range, are in order again, each row and each column with its `$`. Both homes lie within the limits of a sheet.
///
/// A tree that stays the same as seen from its home is answered as it is, and the pool stays as it was; another one is
/// shared in the pool. Where there is no memory the pool stays as it was. Costs about the nodes of the tree, and asking for
/// the sheet of each reference.
pub fn pasted<S: SheetNames>(
    alloc: Global,
    pool: &mut Pool,
    tree: &Tree,
    from: Home,
    to: Home,
    sheets: &S,
) -> Result<Tree, AllocError>
    requires from { IsHomeInside from }
    requires to { IsHomeInside to }
    ensures tree { IfOk result (λ t. StandsFor t to (pasting.pasted (S.sheets sheets.now) from to (at_home from (relative tree.now.value)))) }
    ensures seen { IfOk result (λ t. relative t.value ≡ from_home to (pasting.pasted (S.sheets sheets.now) from to (at_home from (relative tree.now.value)))) }
    ensures held { IfOk result (λ t. HoldsChanged (held pool.old) (relative tree.now.value) (relative t.value) (held pool.new)) }
    ensures err { OnErr result (held pool.new ≡ held pool.old) }
{
    let paste = Paste { from, to, sheets };
    let tree = replaced(alloc, pool, &paste, tree)?;
    Ok(tree)
}

// The way of a copied formula, and the sheets that are there where it is pasted.
#[derive(Drop)]
struct Paste<'a, S: SheetNames> {
    from: Home,
    to: Home,
    sheets: &'a S,
}

impl<'a, S: SheetNames> Paste<'a, S> {
    // Where a corner comes to.
    fn address(&self, corner: Corner) -> Address
        requires from { IsHomeInside self.now.from }
        requires to { IsHomeInside self.now.to }
        ensures { result ≡ address_pasted (base_of self.now.from) (base_of self.now.to) corner }
    {
        let (from, to) = (self.from.base(), self.to.base());
        Address {
            row: line(corner.at.row, corner.row_fixed, from.row, to.row),
            col: line(corner.at.col, corner.col_fixed, from.col, to.col),
            row_fixed: corner.row_fixed,
            col_fixed: corner.col_fixed,
        }
    }

    // The sheet that a reference comes to, where it is listed and all fits; else none.
    fn sheet(&self, sheet: u32, fits: bool) -> Option<u32>
        ensures { result ≡ sheet_if (S.sheets self.now.sheets.now) (sheet_pasted (base_of self.now.from) (base_of self.now.to) sheet) fits }
    {
        let (from, to) = (self.from.base(), self.to.base());
        let sheet = if sheet == from.sheet { to.sheet } else { sheet };
        if self.sheets.name_of(sheet).is_some() && fits {
            Some(sheet)
        } else {
            None
        }
    }

    // How an address on a sheet is seen from the new home.
    fn seen(&self, sheet: u32, address: Address) -> Ref
        requires to { IsHomeInside self.now.to }
        requires inside { is_inside address ≡ true }
        ensures { result ≡ ref_from (base_of self.now.to) (placed sheet address) }
    {
        Ref::of(address.on(sheet), self.to)
    }
}

impl<'a, S: SheetNames> Replacement for Paste<'a, S> {
    ghost use Rattle.clip_board.specs.internal.Moved.{AreHomesInside, cell_moved, area_moved};

    ghost TakesCell = { λ p r. AreHomesInside p.from p.to };

    ghost TakesArea = { λ p lines r q. AreHomesInside p.from p.to };

    ghost for_cell = { λ p r. cell_moved (S.sheets p.sheets.now) p.from p.to r };

    ghost for_area = { λ p lines r q. area_moved (S.sheets p.sheets.now) p.from p.to lines r q };

    fn reference(&self, reference: Ref) -> Option<Node> {
        let corner = reference.at(self.from);
        let address = self.address(corner);
        let Some(sheet) = self.sheet(corner.at.sheet, inside(address)) else {
            return Some(Node::Fault(FaultKind::Ref));
        };
        let new = self.seen(sheet, address);
        changed_cell(new, reference)
    }

    fn area(&self, lines: Option<Axis>, first: Ref, last: Ref) -> Option<Node> {
        let (top, bottom) = (first.at(self.from), last.at(self.from));
        let (a, b) = (self.address(top), self.address(bottom));
        let Some(sheet) = self.sheet(top.at.sheet, both_inside(a, b)) else {
            return Some(Node::Fault(FaultKind::Ref));
        };
        let (low, high) = Address::in_order(a, b);
        let new = (self.seen(sheet, low), self.seen(sheet, high));
        changed_area(lines, new, (first, last))
    }
}

// The row or column that this one becomes where a formula goes from one to another.
fn line(line: u32, fixed: bool, from: u32, to: u32) -> u32
    requires from { from < 2 ^ 31 }
    requires to { to < 2 ^ 31 }
    ensures { result ≡ line_pasted from to fixed line }
{
    if fixed {
        return line;
    }
    line.checked_add_signed(to as i32 - from as i32)
        .unwrap_or(NO_LINE)
}

// Whether the address lies within the limits of a sheet.
fn inside(address: Address) -> bool
    ensures { result ≡ is_inside address }
{
    address.row < ROWS && address.col < COLS
}

// Whether both addresses do.
fn both_inside(a: Address, b: Address) -> bool
    ensures { result ≡ (is_inside a && is_inside b) }
{
    inside(a) && inside(b)
}
