// What a tree mentions.
ghost use Rattle.std.specs.Prelude.{◌≡◌, ◌++◌, ◌∷◌, [], if◌then◌else◌, IfOk, OnOk};
ghost use Rattle.std.specs.List.{list_any};
ghost use Rattle.formula_tree.specs.Mentions.{mentions_in, same_mention};
ghost use Rattle.formula_tree.specs.Links.{once};
ghost use Rattle.formula_tree.specs.Reference.{base_of, corner_at};
ghost use Rattle.formula_tree.specs.Relative.{relative, relative_list};
ghost use Rattle.formula_tree.specs.StandsFor.{StandsFor, at_home};
ghost use Rattle.formula_tree.specs.Term.{Term, each_corner_all};
ghost use Rattle.formula_tree.specs.declared.reference.Corner.{Corner};

use crate::link::is_place_word;
use crate::node::{Node, Tree, TreeList};
use crate::reference::Home;
use crate::whole::whole_at;
use cell_addr::{Axis, Block, Place, Text, Whole, same_folded};
use std::alloc::{AllocError, Global};

/// What a formula mentions: a cell, a block, a whole range, or a name as it is written.
#[derive(Drop, Debug)]
pub enum Mention {
    /// A cell.
    Cell(Place),
    /// A block of cells.
    Area(Block),
    /// All rows or all columns from one to another.
    Whole(Whole),
    /// A name, by its word. Which named expression that is depends on the names of the workbook.
    Name(Text),
}

impl Mention {
    /// Whether both are the same cell, block, whole range or word; words are the same in any case of their
    /// ASCII letters. A cell and the block of it alone are two, and so are a whole range and its block.
    pub fn same(&self, other: &Mention) -> bool
        ensures { result ≡ same_mention self.now other.now }
    {
        match (self, other) {
            (Mention::Cell(place), Mention::Cell(second)) => *place == *second,
            (Mention::Area(block), Mention::Area(second)) => *block == *second,
            (Mention::Whole(whole), Mention::Whole(second)) => *whole == *second,
            (Mention::Name(word), Mention::Name(second)) => {
                same_folded(word.as_str(), second.as_str())
            }
            _ => false,
        }
    }
}

impl Node {
    ghost use Rattle.formula_tree.specs.Links.{once_after};

    // Puts what the tree mentions after the others, but for what stands there already.
    #[cycle(mentions)]
    fn add_mentions(
        &self,
        alloc: Global,
        home: Home,
        list: &mut Vec<Mention>,
    ) -> Result<(), AllocError>
        ensures { OnOk result (list.new.items ≡ once_after same_mention list.old.items (mentions_in (at_home home (relative self.now)))) }
    {
        match self {
            Node::Cell(corner) => add_mention(Mention::Cell(corner.at(home).at), list)?,
            Node::Area(first, last) => add_mention(
                Mention::Area(first.at(home).block_to(last.at(home))),
                list,
            )?,
            Node::WholeRows(sheet, first, last) => add_mention(
                Mention::Whole(whole_at(Axis::Rows, *sheet, *first, *last, home)),
                list,
            )?,
            Node::WholeCols(sheet, first, last) => add_mention(
                Mention::Whole(whole_at(Axis::Cols, *sheet, *first, *last, home)),
                list,
            )?,
            Node::Name(word) => add_mention(Mention::Name(word.copy(alloc)?), list)?,
            Node::Prefix(_, part) => part.add_mentions(alloc, home, list)?,
            Node::Percent(part) => part.add_mentions(alloc, home, list)?,
            Node::Paren(part) => part.add_mentions(alloc, home, list)?,
            Node::Binary(_, left, right) => {
                left.add_mentions(alloc, home, list)?;
                right.add_mentions(alloc, home, list)?;
            }
            Node::Call(word, arguments) => {
                arguments.add_mentions(alloc, home, is_place_word(word.as_str()), list)?
            }
            Node::Number(_) | Node::Text(_) | Node::Truth(_) | Node::Fault(_) => {}
        }
        Ok(())
    }
}

impl TreeList {
    ghost use Rattle.formula_tree.specs.Links.{once_after};
    ghost use Rattle.formula_tree.specs.Mentions.{mentions_in_all};

    // Puts what all arguments mention after the others; where asked, arguments that are themselves
    // references are skipped.
    #[cycle(mentions)]
    fn add_mentions(
        &self,
        alloc: Global,
        home: Home,
        skip: bool,
        list: &mut Vec<Mention>,
    ) -> Result<(), AllocError>
        ensures { OnOk result (list.new.items ≡ once_after same_mention list.old.items (mentions_in_all skip (each_corner_all (corner_at (base_of home)) (relative_list self.now)))) }
    {
        'arguments: for argument in self.items() {
            if argument.is_skipped(skip) {
                continue;
            }
            argument.add_mentions(alloc, home, list)?;
        }
        Ok(())
    }
}

// Puts a mention after the others, unless it stands there already.
fn add_mention(mention: Mention, list: &mut Vec<Mention>) -> Result<(), AllocError>
    ensures { OnOk result (list.new.items ≡ (if list_any (same_mention mention) list.old.items then list.old.items else list.old.items ++ mention ∷ [])) }
{
    if !has_mention(list, &mention) {
        list.push(mention)?;
    }
    Ok(())
}

// Whether one of them is the same.
fn has_mention(list: &[Mention], mention: &Mention) -> bool
    ensures { result ≡ list_any (same_mention mention.now) list.now }
{
    list.iter().any(|known| mention.same(known))
}

/// What the tree mentions: its places, blocks, whole ranges and names in the order of first occurrence, each
/// once, with every reference as the place that it names in a formula at the home. A reference, block or whole
/// range that is itself the argument of ROW, COLUMN, ROWS or COLUMNS is not among them; a name is. Costs about the size of the
/// tree, and each mention is compared with those listed before it.
pub fn mentions_of(alloc: Global, tree: &Tree, home: Home) -> Result<Vec<Mention>, AllocError>
    ensures { IfOk result (λ list. (t : Term Corner) → StandsFor tree.now home t → list.items ≡ once same_mention (mentions_in t)) }
{
    let mut list = Vec::new(alloc);
    tree.add_mentions(alloc, home, &mut list)?;
    Ok(list)
}
