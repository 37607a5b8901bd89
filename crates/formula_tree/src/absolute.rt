// From plain trees to shared ones, and back.
ghost use Rattle.std.specs.Prelude.{◌≡◌, IfOk};
ghost use Rattle.cell_addr.specs.Place.{IsInside};
ghost use Rattle.formula_tree.specs.Seen.{seen, seen_list};
ghost use Rattle.formula_tree.specs.Term.{each_corner_all, EachCornerOfAll};
ghost use Rattle.formula_tree.specs.Reference.{base_of, IsHomeInside, corner_at, ref_from};
ghost use Rattle.formula_tree.specs.Relative.{relative, relative_list};
ghost use Rattle.formula_tree.specs.StandsFor.{StandsFor, ArePlacesInside, at_home, from_home};

use crate::node::{Node, Tree, TreeList};
use crate::plain::{Plain, PlainList};
use crate::reference::{Home, Ref};
use crate::whole::whole_at;
use cell_addr::Axis;
use std::alloc::{AllocError, Global};
use std::rc::Rc;

impl Node {
    // The tree with every reference as the place that it names in a formula at the home.
    #[cycle(placed)]
    fn placed(&self, alloc: Global, home: Home) -> Result<Plain, AllocError>
        ensures { IfOk result (λ plain. seen plain ≡ at_home home (relative self.now)) }
    {
        match self {
            Node::Number(number) => Ok(Plain::Number(*number)),
            Node::Text(text) => Ok(Plain::Text(text.copy(alloc)?)),
            Node::Truth(truth) => Ok(Plain::Truth(*truth)),
            Node::Fault(fault) => Ok(Plain::Fault(*fault)),
            Node::Cell(corner) => Ok(Plain::Cell(corner.at(home))),
            Node::Area(first, last) => Ok(Plain::Area(first.at(home), last.at(home))),
            Node::WholeRows(sheet, first, last) => Ok(Plain::Whole(
                whole_at(Axis::Rows, *sheet, *first, *last, home),
                first.is_fixed(),
                last.is_fixed(),
            )),
            Node::WholeCols(sheet, first, last) => Ok(Plain::Whole(
                whole_at(Axis::Cols, *sheet, *first, *last, home),
                first.is_fixed(),
                last.is_fixed(),
            )),
            Node::Name(name) => Ok(Plain::Name(name.copy(alloc)?)),
            Node::Prefix(sign, part) => Ok(Plain::Prefix(
                *sign,
                Box::new(alloc, part.placed(alloc, home)?)?,
            )),
            Node::Percent(part) => {
                Ok(Plain::Percent(Box::new(alloc, part.placed(alloc, home)?)?))
            }
            Node::Binary(op, left, right) => {
                let left = Box::new(alloc, left.placed(alloc, home)?)?;
                let right = Box::new(alloc, right.placed(alloc, home)?)?;
                Ok(Plain::Binary(*op, left, right))
            }
            Node::Call(word, list) => {
                Ok(Plain::Call(word.copy(alloc)?, list.placed(alloc, home)?))
            }
            Node::Paren(part) => Ok(Plain::Paren(Box::new(alloc, part.placed(alloc, home)?)?)),
        }
    }
}

impl TreeList {
    // The arguments with every reference as the place that it names in a formula at the home.
    #[cycle(placed)]
    fn placed(&self, alloc: Global, home: Home) -> Result<PlainList, AllocError>
        ensures { IfOk result (λ plain. seen_list plain ≡ each_corner_all (corner_at (base_of home)) (relative_list self.now)) }
    {
        let mut placed = PlainList::new(alloc)?;
        'arguments: for argument in self.items() {
            placed.push(argument.placed(alloc, home)?)?;
        }
        Ok(placed)
    }
}

/// The tree that a formula at the home has, with every reference as the place that it names.
pub fn to_absolute(alloc: Global, tree: &Tree, home: Home) -> Result<Plain, AllocError>
    ensures { IfOk result (λ plain. StandsFor tree.now home (seen plain)) }
{
    let plain = tree.placed(alloc, home)?;
    Ok(plain)
}

impl Plain {
    // The tree as it is seen from the home.
    #[cycle(seen_from)]
    pub(crate) fn seen_from(&self, alloc: Global, home: Home) -> Result<Node, AllocError>
        requires places { ArePlacesInside (seen self.now) }
        requires home { IsHomeInside home }
        ensures { IfOk result (λ node. relative node ≡ from_home home (seen self.now)) }
    {
        match self {
            Plain::Number(number) => Ok(Node::Number(*number)),
            Plain::Text(text) => Ok(Node::Text(text.copy(alloc)?)),
            Plain::Truth(truth) => Ok(Node::Truth(*truth)),
            Plain::Fault(fault) => Ok(Node::Fault(*fault)),
            Plain::Cell(corner) => Ok(Node::Cell(Ref::of(*corner, home))),
            Plain::Area(first, last) => Ok(Node::Area(Ref::of(*first, home), Ref::of(*last, home))),
            Plain::Whole(whole, first_fixed, last_fixed) => {
                Ok(Node::whole(*whole, *first_fixed, *last_fixed, home))
            }
            Plain::Name(name) => Ok(Node::Name(name.copy(alloc)?)),
            Plain::Prefix(sign, part) => Ok(Node::Prefix(
                *sign,
                Rc::new(alloc, part.seen_from(alloc, home)?)?,
            )),
            Plain::Percent(part) => {
                Ok(Node::Percent(Rc::new(alloc, part.seen_from(alloc, home)?)?))
            }
            Plain::Binary(op, left, right) => {
                let left = Rc::new(alloc, left.seen_from(alloc, home)?)?;
                let right = Rc::new(alloc, right.seen_from(alloc, home)?)?;
                Ok(Node::Binary(*op, left, right))
            }
            Plain::Call(word, list) => {
                Ok(Node::Call(word.copy(alloc)?, list.seen_from(alloc, home)?))
            }
            Plain::Paren(part) => Ok(Node::Paren(Rc::new(alloc, part.seen_from(alloc, home)?)?)),
        }
    }
}

impl PlainList {
    // The arguments as they are seen from the home.
    #[cycle(seen_from)]
    fn seen_from(&self, alloc: Global, home: Home) -> Result<TreeList, AllocError>
        requires places { EachCornerOfAll (λ c. IsInside c.at) (seen_list self.now) }
        requires home { IsHomeInside home }
        ensures { IfOk result (λ list. relative_list list ≡ each_corner_all (ref_from (base_of home)) (seen_list self.now)) }
    {
        let mut list = TreeList::new(alloc)?;
        'arguments: for argument in self.items() {
            list.push(Rc::new(alloc, argument.seen_from(alloc, home)?)?)?;
        }
        Ok(list)
    }
}
