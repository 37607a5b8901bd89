// Formulas taken back over a run of operations, and their trees shared.
ghost use Rattle.std.specs.Prelude.{◌≡◌, ◌≢◌, None, Some, IfOk, OnErr};
ghost use Rattle.formula_tree.specs.Pooled.{held};
ghost use Rattle.formula_tree.specs.Reference.{IsHomeInside};
ghost use Rattle.formula_tree.specs.Relative.{relative};
ghost use Rattle.formula_tree.specs.StandsFor.{StandsFor, at_home};
ghost use Rattle.run_walk.specs.Run.{AreSound, home_back, tree_back};
ghost use Rattle.tree_rewrite.specs.Pooled.{HoldsChanged};
ghost use Rattle.tree_rewrite.specs.References.{FitsSheets};

use crate::run::home_back;
use crate::walk::Walk;
use crate::way::Steps;
use formula_tree::{Home, Pool, Tree};
use shift_core::Shift;
use std::alloc::{AllocError, Global};
use tree_rewrite::{Direction, replaced};

/// The tree and the home of a formula before all operations of the run, as far as those after it tell: as
/// [`tree_rewrite::backward`] over one after the other gives them, from the last to the first, but that only the last
/// tree is made. A tree that an operation of the run lost something of is no more what it was.
///
/// The operations are sound; the home, and the references, blocks and whole ranges of the tree lie within the limits of a
/// sheet, and the home came from somewhere. A tree that stays the same as seen from its home is answered as it is, and the pool
/// stays as it was; another one is shared in the pool. Where there is no memory the pool stays as it was. Costs about
/// the nodes of the tree, and for each reference, block or whole range the operations back to the one before which it was
/// nowhere.
pub fn backward_over(
    alloc: Global,
    pool: &mut Pool,
    tree: &Tree,
    home: Home,
    run: &[Shift],
) -> Result<(Tree, Home), AllocError>
    requires sound { AreSound run.now }
    requires home { IsHomeInside home }
    requires fits { FitsSheets (at_home home (relative tree.now.value)) }
    requires kept { home_back run.now home ≢ None }
    ensures home { IfOk result (λ r. home_back run.now home ≡ Some r.1) }
    ensures tree { IfOk result (λ r. StandsFor r.0 r.1 (tree_back run.now (at_home home (relative tree.now.value)))) }
    ensures inside { IfOk result (λ r. IsHomeInside r.1) }
    ensures fits { IfOk result (λ r. FitsSheets (at_home r.1 (relative r.0.value))) }
    ensures held { IfOk result (λ r. HoldsChanged (held pool.old) (relative tree.now.value) (relative r.0.value) (held pool.new)) }
    ensures err { OnErr result (held pool.new ≡ held pool.old) }
{
    if run.is_empty() {
        return Ok((tree.clone()?, home));
    }
    let Some(to) = home_back(run, home) else {
        unreachable!()
    };
    let walk = Walk {
        direction: Direction::Backward,
        way: &Steps::over(run),
        count: run.len(),
        from: home,
        to,
    };
    let tree = replaced(alloc, pool, &walk, tree)?;
    Ok((tree, to))
}
