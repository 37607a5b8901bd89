// Lists of words with their holders.
ghost use Rattle.std.specs.Prelude.{◌≡◌, ◌++◌, ◌∷◌, [], IfOk, OnOk, OnErr};

use std::alloc::{AllocError, Global};

/// A list of pairs of a word's number and the holder of its named expression.
#[derive(Drop)]
pub struct NameList {
    pairs: Vec<(u64, u64)>,
}

impl NameList {
    ghost use Rattle.name_table.specs.Named.{items_of};

    /// A list without pairs.
    pub fn new(alloc: Global) -> Result<NameList, AllocError>
        ensures { IfOk result (λ list. items_of list ≡ []) }
    {
        Ok(NameList {
            pairs: Vec::new(alloc),
        })
    }

    /// Adds a pair at the end. For want of memory the list is as it was.
    pub fn push(&mut self, word: u64, holder: u64) -> Result<(), AllocError>
        ensures ok { OnOk result (items_of self.new ≡ items_of self.old ++ (word, holder) ∷ []) }
        ensures err { OnErr result (items_of self.new ≡ items_of self.old) }
    {
        self.pairs.push((word, holder))?;
        Ok(())
    }

    /// The pairs, in order.
    pub fn items(&self) -> &[(u64, u64)]
        ensures { result.now ≡ items_of self.now }
    {
        &self.pairs
    }
}
