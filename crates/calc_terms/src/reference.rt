// References as arguments of functions.
ghost use Rattle.std.specs.Prelude.{◌≡◌};
ghost use Rattle.formula_tree.specs.Reference.{base_of, corner_at};
ghost use Rattle.formula_tree.specs.Relative.{relative};
ghost use Rattle.formula_tree.specs.StandsFor.{at_home};
ghost use Rattle.formula_tree.specs.Whole.{first_ref, last_ref};
ghost use Rattle.calc_terms.specs.References.{area_reference, own_reference, reference_block};
ghost use Rattle.calc_terms.specs.References as references;

use crate::block::SheetBlock;
use cell_addr::{Axis, Block, Place};
use formula_tree::{Home, Node, Part, Ref, SheetPart};

/// A cell or a block that an argument of a function stands for.
#[derive(Clone, Copy, PartialEq, Eq, Debug)]
pub enum Reference {
    /// One cell.
    Cell(Place),
    /// A block of cells, or all those of a whole range.
    Area(SheetBlock),
}

impl Reference {
    /// The reference that the tree is itself in a formula at the home; a whole range is its block. A
    /// parenthesis round one is none, and so is a block beyond the limits of a sheet, which no formula has. This
    /// project's own.
    pub fn of(tree: &Node, home: Home) -> Option<Reference>
        ensures { result ≡ own_reference (at_home home (relative tree.now)) }
    {
        match tree {
            Node::Cell(corner) => Some(Reference::Cell(corner.at(home).at)),
            Node::Area(first, last) => of_block(first.at(home).block_to(last.at(home))),
            Node::WholeRows(sheet, first, last) => {
                of_block(full_block(Axis::Rows, *sheet, *first, *last, home))
            }
            Node::WholeCols(sheet, first, last) => {
                of_block(full_block(Axis::Cols, *sheet, *first, *last, home))
            }
            _ => None,
        }
    }

    /// The block of its cells.
    pub fn block(self) -> Block
        ensures { result ≡ reference_block self }
    {
        match self {
            Reference::Cell(at) => Block {
                sheet: at.sheet,
                top: at.row,
                left: at.col,
                bottom: at.row,
                right: at.col,
            },
            Reference::Area(block) => block.block(),
        }
    }
}

// The block as a reference, where it lies within the limits of a sheet.
fn of_block(block: Block) -> Option<Reference>
    ensures { result ≡ area_reference block }
{
    match SheetBlock::new(block) {
        Some(block) => Some(Reference::Area(block)),
        None => None,
    }
}

// The block of all cells of the whole range that a node with these parts names in a formula at the home.
#[tactic(auto, using(crate::proofs::WholeBlocks::block_between))]
pub(crate) fn full_block(axis: Axis, sheet: SheetPart, first: Part, last: Part, home: Home) -> Block
    ensures { result ≡ references.full_block axis (corner_at (base_of home) (first_ref axis sheet first)) (corner_at (base_of home) (last_ref axis sheet last)) }
{
    let first = Ref::first_of(axis, sheet, first).at(home);
    first.block_to(Ref::last_of(axis, sheet, last).at(home))
}
