// What links tell: which formulas mention a cell, and which cells are on a cycle.
ghost use Rattle.std.specs.Prelude.{◌≡◌, ℕ, ℤ, IfOk, List, OnOk, filter};
ghost use Rattle.custom_fn.specs.declared.rule.Rule.{Rule};
ghost use Rattle.value_network.specs.Network.{cyclic};
ghost use Rattle.book_values.specs.Values.{network};
ghost use Rattle.book_values.specs.Workbook as nodes;
ghost use Rattle.dep_graph.specs.Nodes.{items_of};
ghost use Rattle.kept_steps.specs.Reads.{Reads};
ghost use Rattle.marked_values.specs.Marks.{IsBookInside};
ghost use Rattle.session_values.specs.Following.{AreFollowing, book_of, words_in};
ghost use Rattle.session_values.specs.Users.{AreUsersIn};
ghost use Rattle.session_values.specs.internal.Linked.{AreLinkedIn};

use crate::reading::all_marked;
use crate::values::SessionValues;
use cell_addr::Place;
use dep_graph::Nodes;
use kept_steps::Session;
use std::alloc::AllocError;

impl SessionValues {
    /// The cells and the names whose formulas mention the cell themselves, by a reference to it or a range, whole or not, that
    /// covers it: each once, in any order. What was touched since it was last linked is linked anew, but nothing is worked out.
    ///
    /// For want of memory what is kept follows the session still. Costs the links of what was touched since it was last linked, by a
    /// call of this or a refresh, and what [`Values::users`](kept_values::Values::users) does; where nothing was kept, the links of
    /// the whole workbook.
    pub fn users(&mut self, session: &mut Session, at: Place) -> Result<Nodes, AllocError>
        requires inside { IsBookInside (book_of session.old) }
        requires follows { (customs : List (List ℕ × Rule)) × (today : ℤ) × AreFollowing customs today session.old self.old.values }
        ensures users { IfOk result (λ nodes. AreUsersIn (book_of session.old) (words_in session.old) at (items_of nodes)) }
        ensures follows { (customs : List (List ℕ × Rule)) (today : ℤ) → AreFollowing customs today session.old self.old.values → AreFollowing customs today session.new self.new.values }
        ensures reads { Reads session.old session.new }
    {
        self.link(session)?;
        match &self.values {
            Some(values) => values.users(at),
            None => Nodes::new(session.book.alloc),
        }
    }

    /// Those of the places that are on a cycle, so that they show `#CYCLE!` by themselves, in their order. What was touched since it
    /// was last linked is linked anew, but nothing is worked out.
    ///
    /// For want of memory what is kept follows the session still. Costs the links of what was touched since it was last linked, as
    /// [`SessionValues::users`] does, and what [`Values::on_cycle`](kept_values::Values::on_cycle) does.
    pub fn on_cycle(
        &mut self,
        session: &mut Session,
        places: &[Place],
    ) -> Result<Vec<Place>, AllocError>
        requires inside { IsBookInside (book_of session.old) }
        requires follows { (customs : List (List ℕ × Rule)) × (today : ℤ) × AreFollowing customs today session.old self.old.values }
        ensures found { IfOk result (λ found. (customs : List (List ℕ × Rule)) (today : ℤ) → found.items ≡ filter (λ p. cyclic (network (book_of session.old) customs today) (nodes.place p)) places.now) }
        ensures follows { (customs : List (List ℕ × Rule)) (today : ℤ) → AreFollowing customs today session.old self.old.values → AreFollowing customs today session.new self.new.values }
        ensures reads { Reads session.old session.new }
    {
        session.names_are_nodes();
        self.link(session)?;
        match &self.values {
            Some(values) => values.on_cycle(places),
            None => Ok(Vec::new(session.book.alloc)),
        }
    }

    // Links anew what was touched since it was last linked; where nothing was kept, the whole workbook, of which all is marked then.
    fn link(&mut self, session: &mut Session) -> Result<(), AllocError>
        requires inside { IsBookInside (book_of session.old) }
        requires follows { (customs : List (List ℕ × Rule)) × (today : ℤ) × AreFollowing customs today session.old self.old.values }
        ensures linked { OnOk result (AreLinkedIn (book_of session.old) (words_in session.old) self.new.values) }
        ensures follows { (customs : List (List ℕ × Rule)) (today : ℤ) → AreFollowing customs today session.old self.old.values → AreFollowing customs today session.new self.new.values }
        ensures reads { Reads session.old session.new }
    {
        session.names_are_nodes();
        let mut values = match self.values.take() {
            Some(values) => values,
            None => all_marked(session)?,
        };
        let done = values.link(session);
        self.values = Some(values);
        done
    }
}
