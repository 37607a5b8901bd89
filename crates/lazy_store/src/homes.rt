// Where homes came from.
ghost use Rattle.std.specs.Prelude.{◌≡◌};
ghost use Rattle.shift_core.specs.Sound.{IsSound};
ghost use Rattle.tree_rewrite.specs.Rewritten.{home_before};

use formula_tree::Home;
use shift_core::{Shift, back_place};

// Where the home was before the operation; None where it came from nowhere.
pub(crate) fn home_before(home: Home, s: &Shift) -> Option<Home>
    requires { IsSound s.now }
    ensures { result ≡ home_before s.now home }
{
    match home {
        Home::Cell(at) => Some(Home::Cell(back_place(s, at)?)),
        Home::Name { .. } => Some(home),
    }
}
