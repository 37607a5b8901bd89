// The two directions over a structural operation.
ghost use Rattle.std.specs.Prelude.{◌≡◌};
ghost use Rattle.shift_core.specs.Sound.{IsSound};

use crate::areas::{back_area, moved_area};
use cell_addr::{Axis, Block, Place};
use formula_tree::Home;
use shift_core::{Shift, back_place, moved_place};

/// A direction over an operation, or over several.
#[derive(Clone, Copy, PartialEq, Eq, Debug)]
pub enum Direction {
    /// From before the first to after the last one.
    Forward,
    /// From after the last to before the first one.
    Backward,
}

impl Direction {
    ghost use Rattle.tree_rewrite.specs.internal.Passage.{area_in, home_in, place_in};

    // Where a place goes; None where it is lost, or came from nowhere.
    pub(crate) fn place(self, s: &Shift, p: Place) -> Option<Place>
        requires { IsSound s.now }
        ensures { result ≡ place_in self s.now p }
    {
        match self {
            Direction::Forward => moved_place(s, p),
            Direction::Backward => back_place(s, p),
        }
    }

    // Where a block goes, and as its block a whole range along an axis; None where it is lost, or an end of it came
    // from nowhere.
    pub(crate) fn area(self, s: &Shift, lines: Option<Axis>, b: Block) -> Option<Block>
        requires { IsSound s.now }
        ensures { result ≡ area_in self s.now lines b }
    {
        match self {
            Direction::Forward => moved_area(s, lines, b),
            Direction::Backward => back_area(s, lines, b),
        }
    }

    // Where a home goes: that of a formula as its cell, and that of a name nowhere else.
    pub(crate) fn home(self, s: &Shift, home: Home) -> Option<Home>
        requires { IsSound s.now }
        ensures { result ≡ home_in self s.now home }
    {
        match home {
            Home::Cell(at) => Some(Home::Cell(self.place(s, at)?)),
            Home::Name { .. } => Some(home),
        }
    }
}
