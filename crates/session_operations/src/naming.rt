// Named expressions that are added, changed and removed.
ghost use Rattle.std.specs.Prelude.{◌≡◌, ⊤, OnErr, OnOk, Some};
ghost use Rattle.book_values.specs.Names.{key_of};
ghost use Rattle.name_table.specs.Listed.{listed};
ghost use Rattle.formula_tree.specs.Proper.{IsProper};
ghost use Rattle.formula_tree.specs.Reference.{IsHomeInside, sheet_of};
ghost use Rattle.formula_tree.specs.Relative.{relative};
ghost use Rattle.formula_tree.specs.StandsFor.{at_home};
ghost use Rattle.book_values.specs.Workbook.{scope_sheet};
ghost use Rattle.book_model.specs.Changes.{name_tree};
ghost use Rattle.book_model.specs.Content.{tree_given};
ghost use Rattle.book_model.specs.Operation as op;
ghost use Rattle.book_model.specs.Refusals.{cause, first_cause, of_name_text, of_tried_text};
ghost use Rattle.kept_book.specs.Formula.{tree_in_scope};
ghost use Rattle.kept_steps.specs.Kept.{KeepsInUse};
ghost use Rattle.session_values.specs.Naming.{MarksAddition, MarksChange, MarksRemoval};
ghost use Rattle.session_operations.specs.Turns.{Answered, NoAnswer, Turns};
ghost use Rattle.session_operations.specs.Seen.{Fits, ValuesFollowStill, state_of};

use crate::absolute::are_absolute;
use crate::parts::Parts;
use crate::stop::Stop;
use book_model::{MAX_TEXT, Refusal};
use formula_parse::{ParseError, parse};
use formula_tree::{Home, Pool, Tree};
use kept_book::home_in;
use kept_steps::Session;
use name_table::Names;
use std::alloc::Global;

impl Parts {
    /// Adds a name with the formula of a text, in the scope of a sheet, or of the whole workbook where there is none. Marks the
    /// name, each formula that uses its word where that found no name, and each that used the whole workbook's name of the word; or
    /// nothing is kept any more. Costs about the length of the text, and a look-up for each that is marked.
    ///
    /// # Errors
    /// `NoSheet` for a scope that doesn't exist, `NameInvalid`, `NameTaken` where the scope has the name, in some case of its ASCII
    /// letters, `TextLimit` past 8,192 bytes, `BadFormula` where the text is no formula, `RelativeAddress` where a reference lacks
    /// a `$` or its sheet; the first that holds.
    pub fn add_name(&mut self, name: &str, scope: Option<u32>, text: &str) -> Result<(), Stop>
        requires { Fits self.old }
        ensures turns { Turns (op.add_name name.now scope text.now) NoAnswer (state_of self.old) (state_of self.new) result }
        ensures fits { Fits self.new }
        ensures kept { KeepsInUse self.old.session self.new.session.book.lazy }
        ensures follow { ValuesFollowStill self.old self.new }
        ensures marks { OnOk result (MarksAddition scope name.now self.new.session self.old.values.values self.new.values.values) }
        ensures left { OnErr result (self.new.values ≡ self.old.values) }
    {
        self.check_new_name(name, scope)?;
        let Session { pool, book, .. } = &mut self.session;
        let tree = read_name(book.alloc, pool, &book.names, scope, text)?;
        self.session.name(scope, name, Some(tree))?;
        self.values.name_added(&self.session, scope, name);
        Ok(())
    }

    /// Gives a name of the scope the formula of another text, and marks it alone; or nothing is kept any more. Costs about the
    /// length of the text.
    ///
    /// # Errors
    /// `NoSheet`, `NoSuchName` where the scope hasn't the name, and of the text those of [`Parts::add_name`]; the first that holds.
    pub fn change_name(&mut self, name: &str, scope: Option<u32>, text: &str) -> Result<(), Stop>
        requires { Fits self.old }
        ensures turns { Turns (op.change_name name.now scope text.now) NoAnswer (state_of self.old) (state_of self.new) result }
        ensures fits { Fits self.new }
        ensures kept { KeepsInUse self.old.session self.new.session.book.lazy }
        ensures follow { ValuesFollowStill self.old self.new }
        ensures marks { OnOk result (MarksChange (key_of scope name.now) self.new.session self.old.values.values self.new.values.values) }
        ensures left { OnErr result (self.new.values ≡ self.old.values) }
    {
        self.check_known_name(name, scope)?;
        let Session { pool, book, .. } = &mut self.session;
        let tree = read_name(book.alloc, pool, &book.names, scope, text)?;
        self.session.name(scope, name, Some(tree))?;
        self.values.name_changed(&self.session, scope, name);
        Ok(())
    }

    /// Takes a name of the scope away. Marks the name, and each formula that used it; or nothing is kept any more. Costs a look-up
    /// for each of these.
    ///
    /// # Errors
    /// `NoSheet`, `NoSuchName`.
    pub fn remove_name(&mut self, name: &str, scope: Option<u32>) -> Result<(), Stop>
        requires { Fits self.old }
        ensures turns { Turns (op.remove_name name.now scope) NoAnswer (state_of self.old) (state_of self.new) result }
        ensures fits { Fits self.new }
        ensures kept { KeepsInUse self.old.session self.new.session.book.lazy }
        ensures follow { ValuesFollowStill self.old self.new }
        ensures marks { OnOk result (MarksRemoval (key_of scope name.now) self.new.session self.old.values.values self.new.values.values) }
        ensures left { OnErr result (self.new.values ≡ self.old.values) }
    {
        self.check_known_name(name, scope)?;
        self.session.name(scope, name, None)?;
        self.values.name_removed(&self.session, scope, name);
        Ok(())
    }

    /// Why [`Parts::add_name`] would be refused now, if it would: the first cause that holds. Costs the reading of the text.
    ///
    /// # Errors
    /// That cause; or there was no memory to read the text.
    pub fn check_added(&self, name: &str, scope: Option<u32>, text: &str) -> Result<(), Stop>
        ensures { Answered (cause (op.add_name name.now scope text.now) (state_of self.now)) (λ x. ⊤) result }
    {
        self.check_new_name(name, scope)?;
        self.check_name_text(scope, text)
    }

    /// Why [`Parts::change_name`] would be refused now, if it would: the first cause that holds. Costs the reading of the text.
    ///
    /// # Errors
    /// That cause; or there was no memory to read the text.
    pub fn check_changed(&self, name: &str, scope: Option<u32>, text: &str) -> Result<(), Stop>
        ensures { Answered (cause (op.change_name name.now scope text.now) (state_of self.now)) (λ x. ⊤) result }
    {
        self.check_known_name(name, scope)?;
        self.check_name_text(scope, text)
    }

    // Where a text is given to a name of the scope: its tree is read, and dropped.
    fn check_name_text(&self, scope: Option<u32>, text: &str) -> Result<(), Stop>
        ensures { Answered (first_cause (of_name_text text.now (name_tree scope text.now (state_of self.now).book))) (λ x. ⊤) result }
    {
        let book = &self.session.book;
        let mut pool = Pool::new(book.alloc)?;
        let _tree = read_name(book.alloc, &mut pool, &book.names, scope, text)?;
        Ok(())
    }
}

// The tree of a text that is given to a name of the scope.
fn read_name(
    alloc: Global,
    pool: &mut Pool,
    sheets: &Names,
    scope: Option<u32>,
    text: &str,
) -> Result<Tree, Stop>
    ensures { Answered (first_cause (of_name_text text.now (tree_given (listed sheets.now) (scope_sheet scope) text.now))) (λ tree. (tree_given (listed sheets.now) (scope_sheet scope) text.now ≡ Some (tree_in_scope scope tree)) × IsProper (tree_in_scope scope tree)) result }
{
    let tree = read_tree(alloc, pool, sheets, home_in(scope), text)?;
    if !are_absolute(&tree, home_in(scope)) {
        return Err(Stop::Refused(Refusal::RelativeAddress));
    }
    Ok(tree)
}

/// The tree of a text that is given to a name or tried, in a formula at the home; its trees are shared by the pool. Costs about the
/// length of the text.
///
/// # Errors
/// `TextLimit` past 8,192 bytes, `BadFormula` where the text is no formula.
pub fn read_tree(
    alloc: Global,
    pool: &mut Pool,
    sheets: &Names,
    home: Home,
    text: &str,
) -> Result<Tree, Stop>
    requires { IsHomeInside home }
    ensures { Answered (first_cause (of_tried_text text.now (tree_given (listed sheets.now) (sheet_of home) text.now))) (λ tree. (tree_given (listed sheets.now) (sheet_of home) text.now ≡ Some (at_home home (relative tree.value))) × IsProper (at_home home (relative tree.value))) result }
{
    if text.len() > MAX_TEXT {
        return Err(Stop::Refused(Refusal::TextLimit));
    }
    match parse(alloc, pool, text, home, sheets) {
        Ok(tree) => Ok(tree),
        Err(ParseError::Bad) => Err(Stop::Refused(Refusal::BadFormula)),
        Err(ParseError::NoMemory) => Err(Stop::NoMemory),
    }
}
