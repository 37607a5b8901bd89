// A session as a recalculation reads it: what stands at a node, and which name a word finds.
ghost use Rattle.std.specs.Prelude.{◌≡◌, ℕ, None, Some, IfOk, option_copied, slice_get};
ghost use Rattle.std.specs.FinMap as map;
ghost use Rattle.book_model.specs.Answers.{valued};
ghost use Rattle.book_values.specs.Workbook as seen;
ghost use Rattle.book_values.specs.Workbook.{content_tree};
ghost use Rattle.kept_book.specs.Kept.{id_of};
ghost use Rattle.kept_steps.specs.internal.GivenCell.{given_plain};
ghost use Rattle.name_table.specs.Named.{words_of};
ghost use Rattle.recalc_core.specs.Given.{HasGiven, HasGivenAt, IsFound};
ghost use Rattle.recalc_core.specs.Nodes.{name_at, scope_at};

use crate::session::Session;
use cell_addr::{NO_SHEET, Place};
use cell_value::{FaultKind, Scalar};
use dep_graph::Node;
use formula_tree::Home;
use grid_store::Cell;
use kept_book::home_in;
use recalc_core::{NodeContent, Trees};
use std::alloc::{AllocError, Global};

/// The workbook is the present one, with its names, and words are numbered as the table of names numbers them. A call takes
/// the formula of the one cell or name that it is asked for along the line, and looks at no other one.
impl Trees for Session {
    ghost use Rattle.kept_steps.specs.Reads.{Reads};
    ghost use Rattle.kept_steps.specs.Session.{state_of};
    ghost use Rattle.kept_steps.specs.internal.ReadsOrder.{reads-order};

    ghost workbook = { λ s. valued (state_of s).book };

    ghost words = { λ s. words_of s.book.names };

    ghost leaves = { Reads };

    ghost laws = { reads-order };

    fn given(&mut self, a: Node) -> Result<NodeContent, AllocError> {
        match a {
            Node::Cell(at) => self.given_cell(at),
            Node::Name { scope, word } => self.given_name(scope, word),
            Node::Range(_) | Node::Whole(_) => Ok(NodeContent::Nothing),
        }
    }

    fn find(&mut self, word: &str, sheet: u32) -> Result<Option<Node>, AllocError> {
        Ok(self.name_found(word, sheet))
    }
}

impl Session {
    ghost use Rattle.kept_steps.specs.Reads.{Reads};
    ghost use Rattle.kept_steps.specs.Session.{state_of};

    // What stands at a place.
    fn given_cell(&mut self, at: Place) -> Result<NodeContent, AllocError>
        ensures given { IfOk result (HasGiven (valued (state_of self.old).book) (seen.place at)) }
        ensures reads { Reads self.old self.new }
    {
        match self.formula(at)? {
            Some(tree) => Ok(NodeContent::Formula(tree, Home::Cell(at))),
            None => self.given_value(at),
        }
    }

    // What stands at a place that holds no formula with a tree.
    fn given_value(&self, at: Place) -> Result<NodeContent, AllocError>
        requires { content_tree (map.get (state_of self.now).book.cells at) ≡ None }
        ensures { IfOk result (HasGiven (valued (state_of self.now).book) (seen.place at)) }
    {
        given_plain(self.book.alloc, self.book.grid.cell(at))
    }

    // What stands under the word of this number in the scope.
    fn given_name(&mut self, scope: u32, word: u64) -> Result<NodeContent, AllocError>
        ensures given { IfOk result (HasGivenAt (valued (state_of self.old).book) (name_at scope (slice_get (words_of self.old.book.names) word))) }
        ensures reads { Reads self.old self.new }
    {
        let scope = scope_at(scope);
        match self.named(scope, word)? {
            Some(tree) => Ok(NodeContent::Formula(tree, home_in(scope))),
            None => Ok(NodeContent::Nothing),
        }
    }

    // The name that the word finds on the sheet.
    fn name_found(&self, word: &str, sheet: u32) -> Option<Node>
        ensures { IsFound (valued (state_of self.now).book) (words_of self.now.book.names) word.now sheet result }
    {
        let names = &self.book.names;
        let word = names.known(word)?;
        let (scope, _) = names.find(word, sheet)?;
        Some(Node::Name {
            scope: scope.unwrap_or(NO_SHEET),
            word,
        })
    }
}

// What a cell that holds no formula with a tree is given as.
fn given_plain(alloc: Global, cell: Option<&Cell>) -> Result<NodeContent, AllocError>
    requires { id_of (option_copied cell) ≡ None }
    ensures { IfOk result (λ given. given ≡ given_plain (option_copied cell.entry)) }
{
    match cell {
        None => Ok(NodeContent::Nothing),
        Some(Cell::Number(number)) => Ok(NodeContent::Value(Scalar::Number(*number))),
        Some(Cell::Truth(truth)) => Ok(NodeContent::Value(Scalar::Truth(*truth))),
        Some(Cell::Text(text)) => Ok(NodeContent::Value(Scalar::Text(text.copy(alloc)?))),
        Some(Cell::Formula(_)) => unreachable!(),
        Some(Cell::Broken(_)) => Ok(NodeContent::Value(Scalar::Fault(FaultKind::Error))),
    }
}

// The scope of this number.
fn scope_at(scope: u32) -> Option<u32>
    ensures { result ≡ scope_at scope }
{
    if scope == NO_SHEET { None } else { Some(scope) }
}
