// Formulas taken over a structural operation, and their trees shared.
ghost use Rattle.std.specs.Prelude.{◌≡◌, ◌≢◌, None, Some, IfOk, OnErr};
ghost use Rattle.formula_tree.specs.Pooled.{held};
ghost use Rattle.formula_tree.specs.Reference.{IsHomeInside};
ghost use Rattle.formula_tree.specs.Relative.{relative};
ghost use Rattle.formula_tree.specs.StandsFor.{StandsFor, at_home};
ghost use Rattle.shift_core.specs.Sound.{IsSound};
ghost use Rattle.tree_rewrite.specs.Pooled.{HoldsChanged};
ghost use Rattle.tree_rewrite.specs.References.{FitsSheets};
ghost use Rattle.tree_rewrite.specs.Rewritten.{rewritten, returned, home_after, home_before};
ghost use Rattle.tree_rewrite.specs.internal.Passage.{tree_in, home_in};

use crate::direction::Direction;
use crate::passage::Passage;
use crate::replacement::replaced;
use formula_tree::{Home, Pool, Tree};
use shift_core::Shift;
use std::alloc::{AllocError, Global};

/// The tree and the home of a formula after the operation: each reference follows its place, each block and
/// whole range its ends, a `$` stays, and what is lost becomes the fault `#REF!`.
///
/// The operation is sound; the home, and the references, blocks and whole ranges of the tree lie within the
/// limits of a sheet, and the home isn't lost. A tree that stays the same as seen from its home is answered as it
/// is, and the pool stays as it was; another one is shared in the pool. Where there is no memory the pool stays
/// as it was. Costs about the nodes of the tree.
pub fn forward(
    alloc: Global,
    pool: &mut Pool,
    tree: &Tree,
    home: Home,
    s: &Shift,
) -> Result<(Tree, Home), AllocError>
    requires sound { IsSound s.now }
    requires home { IsHomeInside home }
    requires fits { FitsSheets (at_home home (relative tree.now.value)) }
    requires kept { home_after s.now home ≢ None }
    ensures home { IfOk result (λ r. home_after s.now home ≡ Some r.1) }
    ensures tree { IfOk result (λ r. StandsFor r.0 r.1 (rewritten s.now (at_home home (relative tree.now.value)))) }
    ensures inside { IfOk result (λ r. IsHomeInside r.1) }
    ensures fits { IfOk result (λ r. FitsSheets (at_home r.1 (relative r.0.value))) }
    ensures held { IfOk result (λ r. HoldsChanged (held pool.old) (relative tree.now.value) (relative r.0.value) (held pool.new)) }
    ensures err { OnErr result (held pool.new ≡ held pool.old) }
{
    pass(alloc, pool, tree, home, s, Direction::Forward)
}

/// The tree and the home of a formula before the operation, as far as those after it tell: each reference goes
/// where its place came from, each block and whole range where its ends did; what came from nowhere is the
/// fault `#REF!`.
///
/// The conditions are those of [`forward`], but that the home came from somewhere; so are the pool, want of
/// memory and the cost.
pub fn backward(
    alloc: Global,
    pool: &mut Pool,
    tree: &Tree,
    home: Home,
    s: &Shift,
) -> Result<(Tree, Home), AllocError>
    requires sound { IsSound s.now }
    requires home { IsHomeInside home }
    requires fits { FitsSheets (at_home home (relative tree.now.value)) }
    requires kept { home_before s.now home ≢ None }
    ensures home { IfOk result (λ r. home_before s.now home ≡ Some r.1) }
    ensures tree { IfOk result (λ r. StandsFor r.0 r.1 (returned s.now (at_home home (relative tree.now.value)))) }
    ensures inside { IfOk result (λ r. IsHomeInside r.1) }
    ensures fits { IfOk result (λ r. FitsSheets (at_home r.1 (relative r.0.value))) }
    ensures held { IfOk result (λ r. HoldsChanged (held pool.old) (relative tree.now.value) (relative r.0.value) (held pool.new)) }
    ensures err { OnErr result (held pool.new ≡ held pool.old) }
{
    pass(alloc, pool, tree, home, s, Direction::Backward)
}

// The tree and the home of a formula at the other end of the operation.
fn pass(
    alloc: Global,
    pool: &mut Pool,
    tree: &Tree,
    home: Home,
    s: &Shift,
    direction: Direction,
) -> Result<(Tree, Home), AllocError>
    requires sound { IsSound s.now }
    requires home { IsHomeInside home }
    requires fits { FitsSheets (at_home home (relative tree.now.value)) }
    requires kept { home_in direction s.now home ≢ None }
    ensures home { IfOk result (λ r. home_in direction s.now home ≡ Some r.1) }
    ensures tree { IfOk result (λ r. StandsFor r.0 r.1 (tree_in direction s.now (at_home home (relative tree.now.value)))) }
    ensures inside { IfOk result (λ r. IsHomeInside r.1) }
    ensures fits { IfOk result (λ r. FitsSheets (at_home r.1 (relative r.0.value))) }
    ensures held { IfOk result (λ r. HoldsChanged (held pool.old) (relative tree.now.value) (relative r.0.value) (held pool.new)) }
    ensures err { OnErr result (held pool.new ≡ held pool.old) }
{
    let Some(to) = direction.home(s, home) else {
        unreachable!()
    };
    let passage = Passage {
        direction,
        shift: *s,
        from: home,
        to,
    };
    let tree = replaced(alloc, pool, &passage, tree)?;
    Ok((tree, to))
}
