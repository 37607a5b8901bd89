// The names of a tree, and the places, blocks and whole ranges that its value depends on.
ghost use Rattle.std.specs.Prelude.{◌≡◌, ◌&&◌, ◌++◌, [], ◌∷◌, if◌then◌else◌, IfOk, OnOk};
ghost use Rattle.std.specs.List.{list_any};
ghost use Rattle.cell_addr.specs.Sheets.{same_name};
ghost use Rattle.formula_tree.specs.Links.{once, names_in, links_in, same_link, is_place_word};
ghost use Rattle.formula_tree.specs.Term.{Term, each_corner_all, is_reference};
ghost use Rattle.formula_tree.specs.Relative.{relative, relative_list};
ghost use Rattle.formula_tree.specs.Reference.{base_of, corner_at};
ghost use Rattle.formula_tree.specs.StandsFor.{StandsFor, at_home};
ghost use Rattle.formula_tree.specs.declared.reference.Corner.{Corner};
ghost use Rattle.formula_tree.specs.declared.reference.Home.{Home};

use crate::node::{Node, Tree, TreeList};
use crate::reference::Home;
use crate::whole::whole_at;
use cell_addr::{Axis, Block, Place, Text, Whole, same_folded};
use std::alloc::{AllocError, Global};

/// What the value of a formula depends on.
#[derive(Drop, Debug)]
pub enum Link {
    /// A cell.
    Cell(Place),
    /// A block of cells.
    Area(Block),
    /// All rows or all columns from one to another.
    Whole(Whole),
    /// A named expression, by its scope and its name: the number of a sheet, or none for the global
    /// scope.
    Name(Option<u32>, Text),
}

impl Link {
    ghost use Rattle.formula_tree.specs.Links.{same_link};

    /// Whether both are the same cell, block, whole range or name; names are the same in any case of their
    /// ASCII letters. A cell and the block of it alone are two links, and so are a whole range and its block.
    pub fn same(&self, other: &Link) -> bool
        ensures { result ≡ same_link self.now other.now }
    {
        match (self, other) {
            (Link::Cell(place), Link::Cell(second)) => *place == *second,
            (Link::Area(block), Link::Area(second)) => *block == *second,
            (Link::Whole(whole), Link::Whole(second)) => *whole == *second,
            (Link::Name(scope, name), Link::Name(second_scope, second)) => {
                *scope == *second_scope && same_folded(name.as_str(), second.as_str())
            }
            _ => false,
        }
    }
}

impl Node {
    ghost use Rattle.formula_tree.specs.Links.{once_after, names_in, links_in};

    // Puts the names of the tree after the others, but for those that stand there already.
    #[cycle(names)]
    fn add_names(&self, alloc: Global, names: &mut Vec<Text>) -> Result<(), AllocError>
        ensures { OnOk result (names.new.items ≡ once_after same_name names.old.items (names_in (relative self.now))) }
    {
        match self {
            Node::Name(name) => add_name(alloc, name, names)?,
            Node::Prefix(_, part) => part.add_names(alloc, names)?,
            Node::Percent(part) => part.add_names(alloc, names)?,
            Node::Paren(part) => part.add_names(alloc, names)?,
            Node::Binary(_, left, right) => {
                left.add_names(alloc, names)?;
                right.add_names(alloc, names)?;
            }
            Node::Call(_, list) => list.add_names(alloc, names)?,
            Node::Number(_) | Node::Text(_) | Node::Truth(_) | Node::Fault(_) => {}
            Node::Cell(_) | Node::Area(_, _) => {}
            Node::WholeRows(_, _, _) | Node::WholeCols(_, _, _) => {}
        }
        Ok(())
    }

    // Puts the places, blocks and whole ranges of the tree after the others, but for those that stand
    // there already.
    #[cycle(links)]
    fn add_links(&self, home: Home, links: &mut Vec<Link>) -> Result<(), AllocError>
        ensures { OnOk result (links.new.items ≡ once_after same_link links.old.items (links_in (at_home home (relative self.now)))) }
    {
        match self {
            Node::Cell(corner) => add_link(Link::Cell(corner.at(home).at), links)?,
            Node::Area(first, last) => add_link(
                Link::Area(first.at(home).block_to(last.at(home))),
                links,
            )?,
            Node::WholeRows(sheet, first, last) => add_link(
                Link::Whole(whole_at(Axis::Rows, *sheet, *first, *last, home)),
                links,
            )?,
            Node::WholeCols(sheet, first, last) => add_link(
                Link::Whole(whole_at(Axis::Cols, *sheet, *first, *last, home)),
                links,
            )?,
            Node::Prefix(_, part) => part.add_links(home, links)?,
            Node::Percent(part) => part.add_links(home, links)?,
            Node::Paren(part) => part.add_links(home, links)?,
            Node::Binary(_, left, right) => {
                left.add_links(home, links)?;
                right.add_links(home, links)?;
            }
            Node::Call(word, list) => list.add_links(home, is_place_word(word.as_str()), links)?,
            Node::Number(_) | Node::Text(_) | Node::Truth(_) | Node::Fault(_) | Node::Name(_) => {}
        }
        Ok(())
    }

    // Whether arguments that are themselves references are skipped, and the tree is one.
    pub(crate) fn is_skipped(&self, skip: bool) -> bool
        ensures { result ≡ (skip && is_reference (relative self.now)) }
    {
        skip && self.is_reference()
    }
}

impl TreeList {
    ghost use Rattle.formula_tree.specs.Links.{once_after, names_in_all, links_in_all};

    // Puts the names of all arguments after the others.
    #[cycle(names)]
    fn add_names(&self, alloc: Global, names: &mut Vec<Text>) -> Result<(), AllocError>
        ensures { OnOk result (names.new.items ≡ once_after same_name names.old.items (names_in_all (relative_list self.now))) }
    {
        'arguments: for argument in self.items() {
            argument.add_names(alloc, names)?;
        }
        Ok(())
    }

    // Puts the places, blocks and whole ranges of all arguments after the others; where asked, arguments
    // that are themselves references are skipped.
    #[cycle(links)]
    fn add_links(&self, home: Home, skip: bool, links: &mut Vec<Link>) -> Result<(), AllocError>
        ensures { OnOk result (links.new.items ≡ once_after same_link links.old.items (links_in_all skip (each_corner_all (corner_at (base_of home)) (relative_list self.now)))) }
    {
        'arguments: for argument in self.items() {
            if argument.is_skipped(skip) {
                continue;
            }
            argument.add_links(home, links)?;
        }
        Ok(())
    }
}

// Puts a link after the others, unless it stands there already.
fn add_link(link: Link, links: &mut Vec<Link>) -> Result<(), AllocError>
    ensures { OnOk result (links.new.items ≡ (if list_any (same_link link) links.old.items then links.old.items else links.old.items ++ link ∷ [])) }
{
    if !has_link(links, &link) {
        links.push(link)?;
    }
    Ok(())
}

// Whether one of the links is the same.
fn has_link(links: &[Link], link: &Link) -> bool
    ensures { result ≡ list_any (same_link link.now) links.now }
{
    links.iter().any(|known| link.same(known))
}

/// Whether the function asks where a reference is, and not what its cells show: ROW, COLUMN, ROWS and
/// COLUMNS.
pub fn is_place_word(word: &str) -> bool
    ensures { result ≡ is_place_word word.now }
{
    word == "ROW" || word == "COLUMN" || word == "ROWS" || word == "COLUMNS"
}

// Puts a name after the others, unless it stands there already.
fn add_name(alloc: Global, name: &Text, names: &mut Vec<Text>) -> Result<(), AllocError>
    ensures { OnOk result (names.new.items ≡ (if list_any (same_name name.now) names.old.items then names.old.items else names.old.items ++ name.now ∷ [])) }
{
    if !has_name(names, name) {
        names.push(name.copy(alloc)?)?;
    }
    Ok(())
}

// Whether one of the names is the same.
fn has_name(names: &[Text], name: &Text) -> bool
    ensures { result ≡ list_any (same_name name.now) names.now }
{
    names.iter().any(|known| is_same_name(name, known))
}

// Whether the names are the same in any case of their ASCII letters.
fn is_same_name(a: &Text, b: &Text) -> bool
    ensures { result ≡ same_name a.now b.now }
{
    same_folded(a.as_str(), b.as_str())
}

/// The names of the tree in the order of first occurrence, each once. Names are the same in any case
/// of their ASCII letters; each is spelled as where it first occurs. Costs about the size of the tree, and
/// each of its names is compared with those listed before it.
pub fn names_of(alloc: Global, tree: &Tree) -> Result<Vec<Text>, AllocError>
    ensures { IfOk result (λ names. (home : Home) (t : Term Corner) → StandsFor tree.now home t → names.items ≡ once same_name (names_in t)) }
{
    let mut names = Vec::new(alloc);
    tree.add_names(alloc, &mut names)?;
    Ok(names)
}

/// The places, blocks and whole ranges of the tree in the order of first occurrence, each once, with every
/// reference as the place that it names in a formula at the home. One that is itself the argument of ROW,
/// COLUMN, ROWS or COLUMNS is not among them. Costs about the size of the tree, and each of its
/// references is compared with those listed before it.
pub fn places_of(alloc: Global, tree: &Tree, home: Home) -> Result<Vec<Link>, AllocError>
    ensures { IfOk result (λ places. (t : Term Corner) → StandsFor tree.now home t → places.items ≡ once same_link (links_in t)) }
{
    let mut links = Vec::new(alloc);
    tree.add_links(home, &mut links)?;
    Ok(links)
}
