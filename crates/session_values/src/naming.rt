// What is kept of a session's values over a change of a name.
ghost use Rattle.std.specs.Prelude.{◌≡◌, ◌≢◌, ◌||◌, true, IfSome, IsTrue, None, OnOk, Some};
ghost use Rattle.cell_addr.specs.declared.place.TheConstants.{NO_SHEET as no_sheet};
ghost use Rattle.book_values.specs.Names.{key_of};
ghost use Rattle.book_values.specs.Workbook as nodes;
ghost use Rattle.recalc_core.specs.Nodes.{node_at};
ghost use Rattle.session_values.specs.Following.{words_in};
ghost use Rattle.session_values.specs.Naming.{FollowsAddition, FollowsChange, FollowsRemoval, FollowsTurn, MarksAddition, MarksChange, MarksRemoval, MarksTurn, had_formula, has_formula, turn_of};
ghost use Rattle.session_values.specs.Parts.{FollowsTurnIn};
ghost use Rattle.session_values.specs.internal.Marked.{AreMade, HasMarked, HasMarkedLinked, HasSought, HasTurned, own_node, whole_node};

use crate::values::SessionValues;
use cell_addr::NO_SHEET;
use dep_graph::Node;
use kept_steps::Session;
use kept_values::Values;
use name_table::NameKey;
use std::alloc::AllocError;

/// What a step back or forth does to a name.
#[derive(Clone, Copy, PartialEq, Eq, Debug)]
pub enum NameTurn {
    /// It gets another formula.
    Changed,
    /// It is there again.
    Added,
    /// It is there no more.
    Removed,
    /// It isn't there, neither before nor after.
    Absent,
}

impl NameTurn {
    /// That of a name, by whether it had a formula and has one.
    pub fn of(had: bool, has: bool) -> NameTurn
        ensures { result ≡ turn_of had has }
    {
        if had {
            if has {
                NameTurn::Changed
            } else {
                NameTurn::Removed
            }
        } else if has {
            NameTurn::Added
        } else {
            NameTurn::Absent
        }
    }
}

impl SessionValues {
    /// Takes what is kept along with a name of the scope that got another formula, after the session's call: marks the name alone.
    /// What followed the workbook before follows the one after it.
    ///
    /// Where there is no memory for it, nothing is kept any more. Costs a look-up or two.
    pub fn name_changed(&mut self, session: &Session, scope: Option<u32>, word: &str)
        requires { scope ≢ Some no_sheet }
        ensures follows { FollowsChange (key_of scope word.now) session.now self.old.values self.new.values }
        ensures marks { MarksChange (key_of scope word.now) session.now self.old.values self.new.values }
    {
        if self.change_marked(node_of(session, scope, word)) {
            return;
        }
        self.forget();
    }

    // Marks a name, where anything is kept: whether there is one, and memory for it.
    fn change_marked(&mut self, name: Option<Node>) -> bool
        ensures { IsTrue result → AreMade (HasMarked name) self.old.values self.new.values }
    {
        match &mut self.values {
            Some(values) => name_marked(values, name),
            None => true,
        }
    }

    /// Takes what is kept along with a name of the scope that was added, after the session's call: marks the name, each formula
    /// that uses its word where that found no name, and each that is linked to the whole workbook's name of the word, which a
    /// sheet's own name hides on its sheet. What followed the workbook before follows the one after it.
    ///
    /// Where there is no memory for it, nothing is kept any more. Costs a look-up for each such formula.
    pub fn name_added(&mut self, session: &Session, scope: Option<u32>, word: &str)
        requires { scope ≢ Some no_sheet }
        ensures follows { FollowsAddition (key_of scope word.now) session.now self.old.values self.new.values }
        ensures marks { MarksAddition scope word.now session.now self.old.values self.new.values }
    {
        let name = node_of(session, scope, word);
        if self.addition_marked(name, node_of(session, None, word), word) {
            return;
        }
        self.forget();
    }

    // Marks a name, what is linked to another one and what seeks the word, likewise.
    fn addition_marked(&mut self, name: Option<Node>, whole: Option<Node>, word: &str) -> bool
        ensures { IsTrue result → AreMade (HasSought name whole word.now) self.old.values self.new.values }
    {
        match &mut self.values {
            Some(values) => sought_marked(values, name, whole, word),
            None => true,
        }
    }

    /// Takes what is kept along with a name of the scope that was removed, after the session's call: marks the name, and each
    /// formula that is linked to it. What followed the workbook before follows the one after it.
    ///
    /// Where there is no memory for it, nothing is kept any more. Costs a look-up for each such formula.
    pub fn name_removed(&mut self, session: &Session, scope: Option<u32>, word: &str)
        requires { scope ≢ Some no_sheet }
        ensures follows { FollowsRemoval (key_of scope word.now) session.now self.old.values self.new.values }
        ensures marks { MarksRemoval (key_of scope word.now) session.now self.old.values self.new.values }
    {
        if self.removal_marked(node_of(session, scope, word)) {
            return;
        }
        self.forget();
    }

    // Marks a name and what is linked to it, likewise.
    fn removal_marked(&mut self, name: Option<Node>) -> bool
        ensures { IsTrue result → AreMade (HasMarkedLinked name) self.old.values self.new.values }
    {
        match &mut self.values {
            Some(values) => linked_marked(values, name),
            None => true,
        }
    }

    /// Takes what is kept along with a name that a step back or forth gave another formula, or one again, or none, after the
    /// session's call: marks what a change of the name, its addition or its removal marks; where it had no formula and has none,
    /// nothing is kept any more. What followed the workbook before follows the one after it.
    ///
    /// Where there is no memory for it, nothing is kept any more. Costs a look-up for each formula that is marked.
    pub fn name_turned(&mut self, session: &Session, key: NameKey, turn: NameTurn)
        requires { (had_formula turn || has_formula turn) ≡ true → key.scope ≢ Some no_sheet }
        ensures follows { FollowsTurn key turn session.now self.old.values self.new.values }
        ensures marks { MarksTurn key turn session.now self.old.values self.new.values }
        ensures between { FollowsTurnIn key turn (words_in session.now) self.old.values self.new.values }
    {
        if self.turn_marked(session, key, turn) {
            return;
        }
        self.forget();
    }

    // Marks what a change of the name touches, likewise.
    fn turn_marked(&mut self, session: &Session, key: NameKey, turn: NameTurn) -> bool
        ensures { IsTrue result → AreMade (HasTurned (words_in session.now) key turn) self.old.values self.new.values }
    {
        match &mut self.values {
            Some(values) => turned(values, session, key, turn),
            None => true,
        }
    }
}

// Marks what a change of the name touches: whether there is anything, and memory for it.
fn turned(values: &mut Values, session: &Session, key: NameKey, turn: NameTurn) -> bool
    ensures { IsTrue result → HasTurned (words_in session.now) key turn values.old values.new }
{
    match turn {
        NameTurn::Changed => name_marked(values, Some(own_node(key))),
        NameTurn::Removed => linked_marked(values, Some(own_node(key))),
        NameTurn::Added => match session.book.names.spelling(key.word) {
            Some(word) => sought_marked(
                values,
                Some(own_node(key)),
                Some(whole_node(key)),
                word.as_str(),
            ),
            None => false,
        },
        NameTurn::Absent => false,
    }
}

// The node of a name.
fn own_node(key: NameKey) -> Node
    ensures { result ≡ own_node key }
{
    Node::Name {
        scope: key.scope.unwrap_or(NO_SHEET),
        word: key.word,
    }
}

// The node of the whole workbook's name of the same word.
fn whole_node(key: NameKey) -> Node
    ensures { result ≡ whole_node key }
{
    Node::Name {
        scope: NO_SHEET,
        word: key.word,
    }
}

// The node of the scope's name of the word; `None` where the session's names have no such word.
fn node_of(session: &Session, scope: Option<u32>, word: &str) -> Option<Node>
    requires { scope ≢ Some no_sheet }
    ensures { IfSome result (λ n. node_at (words_in session.now) n ≡ Some (nodes.name (key_of scope word.now))) }
{
    let word = session.book.names.known(word)?;
    Some(Node::Name {
        scope: scope.unwrap_or(NO_SHEET),
        word,
    })
}

// Marks the node: whether there is one, and memory for it.
fn name_marked(values: &mut Values, name: Option<Node>) -> bool
    ensures { IsTrue result → HasMarked name values.old values.new }
{
    match name {
        Some(name) => values.mark(name).is_ok(),
        None => false,
    }
}

// Marks the node and each that is linked to it, likewise.
fn linked_marked(values: &mut Values, name: Option<Node>) -> bool
    ensures { IsTrue result → HasMarkedLinked name values.old values.new }
{
    match name {
        Some(name) => mark_linked(values, name).is_ok(),
        None => false,
    }
}

// Marks the node and each that is linked to it.
fn mark_linked(values: &mut Values, name: Node) -> Result<(), AllocError>
    ensures { OnOk result (HasMarkedLinked (Some name) values.old values.new) }
{
    let linked = values.linked_to(name)?;
    values.mark_all(linked.items())?;
    values.mark(name)
}

// Marks the first node, each that is linked to the second one, and each formula that uses the word where it finds no name, likewise.
fn sought_marked(values: &mut Values, name: Option<Node>, whole: Option<Node>, word: &str) -> bool
    ensures { IsTrue result → HasSought name whole word.now values.old values.new }
{
    match (name, whole) {
        (Some(name), Some(whole)) => mark_sought(values, name, whole, word).is_ok(),
        _ => false,
    }
}

// Marks these.
fn mark_sought(values: &mut Values, name: Node, whole: Node, word: &str) -> Result<(), AllocError>
    ensures { OnOk result (HasSought (Some name) (Some whole) word.now values.old values.new) }
{
    let linked = values.linked_to(whole)?;
    values.mark_seeking(word)?;
    values.mark_all(linked.items())?;
    values.mark(name)
}
