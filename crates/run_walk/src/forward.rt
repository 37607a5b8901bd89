// Formulas taken over a run of operations, and their trees shared.
ghost use Rattle.std.specs.Prelude.{◌≡◌, ◌≢◌, ◌≤◌, None, Some, IfOk, OnErr, length, take};
ghost use Rattle.formula_tree.specs.Pooled.{held};
ghost use Rattle.formula_tree.specs.Reference.{IsHomeInside};
ghost use Rattle.formula_tree.specs.Relative.{relative};
ghost use Rattle.formula_tree.specs.StandsFor.{StandsFor, at_home};
ghost use Rattle.run_walk.specs.Run.{AreSound, home_over, tree_over};
ghost use Rattle.tree_rewrite.specs.Pooled.{HoldsChanged};
ghost use Rattle.tree_rewrite.specs.References.{FitsSheets};

use crate::walk::Walk;
use crate::way::{Steps, Way, home_by};
use formula_tree::{Home, Pool, Tree};
use shift_core::Shift;
use std::alloc::{AllocError, Global};
use tree_rewrite::{Direction, replaced};

/// The tree and the home of a formula after all operations of the run: as [`tree_rewrite::forward`] over one after the
/// other gives them, but that only the last tree is made.
///
/// The operations are sound; the home, and the references, blocks and whole ranges of the tree lie within the limits of a
/// sheet, and no operation loses the home. A tree that stays the same as seen from its home is answered as it is, and the pool
/// stays as it was; another one is shared in the pool. Where there is no memory the pool stays as it was. Costs about
/// the nodes of the tree, and for each reference, block or whole range the operations up to the one that loses it.
pub fn forward_over(
    alloc: Global,
    pool: &mut Pool,
    tree: &Tree,
    home: Home,
    run: &[Shift],
) -> Result<(Tree, Home), AllocError>
    requires sound { AreSound run.now }
    requires home { IsHomeInside home }
    requires fits { FitsSheets (at_home home (relative tree.now.value)) }
    requires kept { home_over run.now home ≢ None }
    ensures home { IfOk result (λ r. home_over run.now home ≡ Some r.1) }
    ensures tree { IfOk result (λ r. StandsFor r.0 r.1 (tree_over run.now (at_home home (relative tree.now.value)))) }
    ensures inside { IfOk result (λ r. IsHomeInside r.1) }
    ensures fits { IfOk result (λ r. FitsSheets (at_home r.1 (relative r.0.value))) }
    ensures held { IfOk result (λ r. HoldsChanged (held pool.old) (relative tree.now.value) (relative r.0.value) (held pool.new)) }
    ensures err { OnErr result (held pool.new ≡ held pool.old) }
{
    forward_by(alloc, pool, tree, home, &Steps::over(run), run.len())
}

/// The same after the first `count` operations of the way. For each reference, block or whole range it costs what the way
/// does where that tells, and else the operations.
pub fn forward_by<W: Way>(
    alloc: Global,
    pool: &mut Pool,
    tree: &Tree,
    home: Home,
    way: &W,
    count: usize,
) -> Result<(Tree, Home), AllocError>
    requires sound { AreSound (W.shifts way.now) }
    requires within { count ≤ length (W.shifts way.now) }
    requires home { IsHomeInside home }
    requires fits { FitsSheets (at_home home (relative tree.now.value)) }
    requires kept { home_over (take count (W.shifts way.now)) home ≢ None }
    ensures home { IfOk result (λ r. home_over (take count (W.shifts way.now)) home ≡ Some r.1) }
    ensures tree { IfOk result (λ r. StandsFor r.0 r.1 (tree_over (take count (W.shifts way.now)) (at_home home (relative tree.now.value)))) }
    ensures inside { IfOk result (λ r. IsHomeInside r.1) }
    ensures fits { IfOk result (λ r. FitsSheets (at_home r.1 (relative r.0.value))) }
    ensures held { IfOk result (λ r. HoldsChanged (held pool.old) (relative tree.now.value) (relative r.0.value) (held pool.new)) }
    ensures err { OnErr result (held pool.new ≡ held pool.old) }
{
    if count == 0 {
        return Ok((tree.clone()?, home));
    }
    let Some(to) = home_by(way, count, home) else {
        unreachable!()
    };
    let walk = Walk {
        direction: Direction::Forward,
        way,
        count,
        from: home,
        to,
    };
    let tree = replaced(alloc, pool, &walk, tree)?;
    Ok((tree, to))
}
