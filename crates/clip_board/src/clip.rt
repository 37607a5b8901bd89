// What was copied or cut.
ghost use Rattle.std.specs.Prelude.{◌≡◌, ◌++◌, ◌∷◌, [], IfOk, OnOk, OnErr};
ghost use Rattle.clip_board.specs.declared.clip.Clip.TheVariants as clips;

use cell_addr::{Block, Place};
use formula_tree::Tree;
use grid_store::Cell;
use std::alloc::{AllocError, Global};

/// What a filled cell held when it was copied.
#[derive(Drop)]
pub enum CopyItem {
    /// A formula, by its tree as seen from the cell.
    Formula(Tree),
    /// What has no tree.
    Kept(Cell),
}

/// A list of places and what they held when they were copied.
#[derive(Drop)]
pub struct CopyList {
    list: Vec<(Place, CopyItem)>,
}

impl CopyList {
    ghost use Rattle.clip_board.specs.Clips.{items_of};

    /// A list of nothing.
    pub fn new(alloc: Global) -> Result<CopyList, AllocError>
        ensures { IfOk result (λ list. items_of list ≡ []) }
    {
        Ok(CopyList {
            list: Vec::new(alloc),
        })
    }

    /// Puts what a place held at the end. Where there is no memory the list stays as it was.
    pub fn push(&mut self, at: Place, item: CopyItem) -> Result<(), AllocError>
        ensures ok { OnOk result (items_of self.new ≡ items_of self.old ++ (at, item) ∷ []) }
        ensures err { OnErr result (items_of self.new ≡ items_of self.old) }
    {
        self.list.push((at, item))?;
        Ok(())
    }

    /// The places and what they held, in order.
    pub fn items(&self) -> &[(Place, CopyItem)]
        ensures { result.now ≡ items_of self.now }
    {
        &self.list
    }
}

/// What waits to be pasted.
#[derive(Drop)]
pub enum Clip {
    /// Nothing.
    Nothing,
    /// A copied block, and what its filled cells held at the copy. Later operations don't change it.
    Copied(Block, CopyList),
    /// A cut block, which is moved where it is pasted.
    Cut(Block),
}

impl Clip {
    ghost use Rattle.clip_board.specs.Clips.{without_cut};

    /// A copy of a block whose filled cells held this.
    pub fn copy_of(area: Block, cells: CopyList) -> Clip
        ensures { result ≡ clips.Copied area cells }
    {
        Clip::Copied(area, cells)
    }

    /// A cut block.
    pub fn cut_of(area: Block) -> Clip
        ensures { result ≡ clips.Cut area }
    {
        Clip::Cut(area)
    }

    /// Ends a cut, so that nothing waits; a copy stays.
    pub fn clear_cut(&mut self)
        ensures { self.new ≡ without_cut self.old }
    {
        if let Clip::Cut(_) = self {
            *self = Clip::Nothing;
        }
    }
}
