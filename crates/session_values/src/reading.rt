// Values that are read.
ghost use Rattle.std.specs.Prelude.{◌≡◌, ℕ, ℤ, IfOk, List, OnOk, Some, true, false, is_some, ◌≤◌, ◌+◌};
ghost use Rattle.custom_fn.specs.declared.rule.Rule.{Rule};
ghost use Rattle.formula_tree.specs.Reference.{sheet_of};
ghost use Rattle.formula_tree.specs.Relative.{relative};
ghost use Rattle.formula_tree.specs.StandsFor.{at_home};
ghost use Rattle.calc_terms.specs.Meaning.{meaning};
ghost use Rattle.book_values.specs.Names.{Key, found, tree_in};
ghost use Rattle.book_values.specs.Values.{value_of, world_of};
ghost use Rattle.book_values.specs.Workbook as nodes;
ghost use Rattle.marked_values.specs.Marks.{IsBookInside};
ghost use Rattle.recalc_core.specs.Nodes.{node_at};
ghost use Rattle.recalc_core.specs.Steps.{formula_cost};
ghost use Rattle.kept_steps.specs.Reads.{Reads};
ghost use Rattle.kept_steps.specs.declared.session.Session.{Session as SessionSeen};
ghost use Rattle.kept_values.specs.Values.{Follows};
ghost use Rattle.session_values.specs.Touched.{AreTouched};
ghost use Rattle.session_values.specs.Refreshed.{IsUnmarked, TakesStepsIn};
ghost use Rattle.session_values.specs.Following.{AreFollowing, AreShowing, book_of, name_shown, words_in};

use crate::values::SessionValues;
use calc_eval::Customs;
use cell_addr::Place;
use cell_value::{FaultKind, Scalar};
use dep_graph::Node;
use formula_tree::{Home, Tree};
use kept_steps::Session;
use kept_values::Values;
use recalc_core::Trees;
use std::alloc::{AllocError, Global};
use std::sync::ledger::Ledger;
use steps::Steps;

impl SessionValues {
    /// Brings what is kept up to date with the session, with these custom functions, on the day of this serial number. Where nothing
    /// is kept, the whole workbook is linked and worked out; else what was touched is linked anew, unless it was since, and it is worked
    /// out with all that it reaches. Afterwards what is kept of every place and every name is its value.
    ///
    /// For want of memory what is kept follows the session still. Each place and each name is worked out once at most. Costs what
    /// [`Values::refresh`](kept_values::Values::refresh) does; where nothing was kept, that of the whole workbook.
    pub fn refresh<C: Customs, L: Ledger>(
        &mut self,
        session: &mut Session,
        customs: &C,
        day: i32,
        steps: &mut Steps<L>,
    ) -> Result<(), AllocError>
        requires inside { IsBookInside (book_of session.old) }
        requires follows { AreFollowing (C.customs customs.now) day session.old self.old.values }
        ensures shows { OnOk result (AreShowing (C.customs customs.now) day session.new self.new.values) }
        ensures unmarked { OnOk result (IsUnmarked self.new.values) }
        ensures follows { AreFollowing (C.customs customs.now) day session.new self.new.values }
        ensures reads { Reads session.old session.new }
        ensures least { steps.old ≤ steps.new }
        ensures most { TakesStepsIn (book_of session.old) (words_in session.old) (C.customs customs.now) day self.old.values steps.old steps.new }
    {
        session.names_are_nodes();
        let mut values = match self.values.take() {
            Some(values) => values,
            None => all_marked(session)?,
        };
        let done = values.refresh(session, customs, day, steps);
        self.values = Some(values);
        done
    }

    /// What a cell shows, where what is kept is right: nothing, where it is empty. Costs a look-up.
    pub fn shown(&self, alloc: Global, at: Place) -> Result<Scalar, AllocError>
        ensures { (session : SessionSeen) (customs : List (List ℕ × Rule)) (today : ℤ) → AreShowing customs today session self.now.values → IfOk result (λ scalar. scalar ≡ value_of (book_of session) customs today (nodes.place at)) }
    {
        let Some(values) = &self.values else {
            return Ok(Scalar::Empty);
        };
        match values.value(Node::Cell(at)) {
            Some(scalar) => scalar.copy(alloc),
            None => Ok(Scalar::Empty),
        }
    }

    /// What the name shows that the word finds on the sheet, where what is kept is right: `#NAME?`, where it finds none. Costs a
    /// look-up of the word and one of the name.
    pub fn named(&self, session: &mut Session, word: &str, sheet: u32) -> Result<Scalar, AllocError>
        ensures named { (customs : List (List ℕ × Rule)) (today : ℤ) → AreShowing customs today session.old self.now.values → IfOk result (λ scalar. scalar ≡ name_shown (book_of session.old) customs today (found (book_of session.old).names word.now sheet)) }
        ensures reads { Reads session.old session.new }
    {
        let alloc = session.book.alloc;
        match session.find(word, sheet)? {
            Some(name) => self.node_shown(alloc, name),
            None => Ok(Scalar::Fault(FaultKind::Name)),
        }
    }

    // What is kept of a name, where what is kept is right.
    fn node_shown(&self, alloc: Global, name: Node) -> Result<Scalar, AllocError>
        ensures { (session : SessionSeen) (customs : List (List ℕ × Rule)) (today : ℤ) (key : Key) → AreShowing customs today session self.now.values → is_some (tree_in (book_of session).names key) ≡ true → node_at (words_in session) name ≡ Some (nodes.name key)
            → IfOk result (λ scalar. scalar ≡ value_of (book_of session) customs today (nodes.name key)) }
    {
        let Some(values) = &self.values else {
            return Ok(Scalar::Empty);
        };
        match values.value(name) {
            Some(scalar) => scalar.copy(alloc),
            None => Ok(Scalar::Empty),
        }
    }

    /// What the tree means in a formula at the home, where what is kept is right; that stays as it is. Costs its steps.
    pub fn tried<C: Customs, L: Ledger>(
        &mut self,
        session: &mut Session,
        tree: &Tree,
        home: Home,
        customs: &C,
        day: i32,
        steps: &mut Steps<L>,
    ) -> Result<Scalar, AllocError>
        requires shows { AreShowing (C.customs customs.now) day session.old self.old.values }
        ensures same { AreTouched (λ p. false) self.old.values self.new.values }
        ensures means { IfOk result (λ scalar. scalar ≡ meaning (world_of (book_of session.old).names day (value_of (book_of session.old) (C.customs customs.now) day)) (C.customs customs.now) home (at_home home (relative tree.now.value))) }
        ensures reads { Reads session.old session.new }
        ensures least { steps.old ≤ steps.new }
        ensures most { steps.new ≤ steps.old + formula_cost (book_of session.old) (C.customs customs.now) day (sheet_of home) (at_home home (relative tree.now.value)) }
    {
        match &mut self.values {
            Some(values) => values.tried(session, tree, home, customs, day, steps),
            None => unreachable!(),
        }
    }
}

// Values of which nothing is linked and kept yet, where all that stands is marked.
pub(crate) fn all_marked(session: &Session) -> Result<Values, AllocError>
    ensures { IfOk result (λ values. (customs : List (List ℕ × Rule)) (today : ℤ) → Follows (book_of session.now) (words_in session.now) customs today values) }
{
    session.names_are_nodes();
    let nodes = session.nodes()?;
    let mut values = Values::new(session.book.alloc)?;
    values.mark_all(nodes.items())?;
    Ok(values)
}
