// Where trees are shared.
ghost use Rattle.std.specs.Prelude.{◌≡◌, ◌↔◌, [], map, length, Contains, IsTrue, IfOk, OnOk, OnErr};
ghost use Rattle.std.specs.List.{list_any};
ghost use Rattle.formula_tree.specs.Term.{Term};
ghost use Rattle.formula_tree.specs.Seen.{seen};
ghost use Rattle.formula_tree.specs.Reference.{IsHomeInside};
ghost use Rattle.formula_tree.specs.Relative.{relative};
ghost use Rattle.formula_tree.specs.StandsFor.{StandsFor, ArePlacesInside, from_home};
ghost use Rattle.formula_tree.specs.internal.Code.{same_code};
ghost use Rattle.formula_tree.specs.declared.reference.Ref.{Ref};

use crate::entry::Entry;
use crate::leaves::Leaves;
use crate::node::Tree;
use crate::plain::Plain;
use crate::reference::Home;
use indexmap::IndexSet;
use std::alloc::{AllocError, Global};
use std::rc::Rc;

/// Where trees are shared: a list of distinct trees, each as it is seen from the homes of its formulas.
/// Trees that differ share their equal references, names and other leaves.
pub struct Pool {
    alloc: Global,
    trees: IndexSet<Entry>,
    leaves: Leaves,
}

// Written out, so that whoever drops one calls one function.
impl Drop for Pool {
    fn drop(self) {
        let Pool {
            alloc: _,
            trees: _trees,
            leaves: _leaves,
        } = self;
    }
}

impl Pool {
    ghost use Rattle.formula_tree.specs.Pooled.{held, HoldsToo, AreDistinct, IsPart};

    /// A pool of no trees.
    pub fn new(alloc: Global) -> Result<Pool, AllocError>
        ensures { IfOk result (λ pool. held pool ≡ []) }
    {
        Ok(Pool {
            alloc,
            trees: IndexSet::new(alloc),
            leaves: Leaves::new(alloc),
        })
    }

    /// How many trees the pool holds; no two of them are equal.
    pub fn len(&self) -> usize
        ensures len { result ≡ length (held self.now) }
        ensures distinct { AreDistinct (held self.now) }
    {
        self.trees.len()
    }

    /// Whether the pool holds no tree.
    pub fn is_empty(&self) -> bool
        ensures { IsTrue result ↔ (held self.now ≡ []) }
    {
        self.trees.is_empty()
    }

    /// The tree of the pool that is equal to this one, which is added where there is none. Where there
    /// is no memory the pool stays as it was. Costs about the size of the tree.
    pub fn share(&mut self, tree: Tree) -> Result<Tree, AllocError>
        ensures tree { IfOk result (λ shared. relative shared.value ≡ relative tree.value) }
        ensures held { OnOk result (HoldsToo (held self.old) (relative tree.value) (held self.new)) }
        ensures err { OnErr result (held self.new ≡ held self.old) }
    {
        let entry = Entry { tree };
        if let Some(known) = self.trees.get(&entry) {
            return Ok(known.tree.clone()?);
        }
        let tree = self.leaves.shared(&entry.tree)?;
        let shared = tree.clone()?;
        self.trees.insert(Entry { tree })?;
        Ok(shared)
    }

    /// The shared tree that stands for this one in a formula at the home. The places of the tree and
    /// the home lie within the limits of a sheet.
    pub fn intern(&mut self, tree: &Plain, home: Home) -> Result<Tree, AllocError>
        requires places { ArePlacesInside (seen tree.now) }
        requires home { IsHomeInside home }
        ensures tree { IfOk result (λ shared. relative shared.value ≡ from_home home (seen tree.now)) }
        ensures stands_for { IfOk result (λ shared. StandsFor shared home (seen tree.now)) }
        ensures held { OnOk result (HoldsToo (held self.old) (from_home home (seen tree.now)) (held self.new)) }
        ensures err { OnErr result (held self.new ≡ held self.old) }
    {
        let node = tree.seen_from(self.alloc, home)?;
        let own = Rc::new(self.alloc, node)?;
        let shared = self.share(own)?;
        Ok(shared)
    }

    /// Forgets each tree that is equal to none of these, which are all that somebody still holds; the
    /// others stay, in their order, and are found again as before. Where there is no memory the pool
    /// stays as it was. Costs about the size of these trees and of the pool's.
    pub fn sweep(&mut self, in_use: &[Tree]) -> Result<(), AllocError>
        ensures part { IsPart (held self.new) (held self.old) }
        ensures kept { OnOk result ((t : Term Ref) → Contains (held self.new) t
            ↔ (Contains (held self.old) t × Contains (map (λ tree. relative tree.value) in_use.now) t)) }
        ensures err { OnErr result (held self.new ≡ held self.old) }
    {
        let mut kept = IndexSet::new(self.alloc);
        'trees: for tree in in_use {
            kept.insert(Entry {
                tree: tree.clone()?,
            })?;
        }
        self.trees.retain(
            |entry: &Entry| -> bool
                ensures { result ≡ list_any (λ k. same_code (relative entry.now.tree.value) (relative k.tree.value)) kept.keys }
            { kept.contains(entry) },
        );
        self.leaves.sweep();
        Ok(())
    }
}
