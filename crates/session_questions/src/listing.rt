// Named expressions that are listed, and their texts.
ghost use Rattle.std.specs.Prelude.{◌≡◌, ◌++◌, IfOk, OnOk, Some, map, option_map};
ghost use Rattle.std.specs.BTreeSet.{IsOrdered, contains};
ghost use Rattle.std.specs.FinMap as fin;
ghost use Rattle.std.specs.List.{list_any};
ghost use Rattle.name_table.specs.Named.{words_of};
ghost use Rattle.book_values.specs.Names.{key_of};
ghost use Rattle.book_model.specs.Operation as op;
ghost use Rattle.book_model.specs.Refusals.{cause};
ghost use Rattle.kept_book.specs.Formula.{tree_in_scope};
ghost use Rattle.session_questions.specs.Areas.{entries_of, name_text_of};
ghost use Rattle.session_operations.specs.Turns.{Answered};
ghost use Rattle.session_operations.specs.Seen.{Fits, ValuesFollowStill, state_of};
ghost use Rattle.session_questions.specs.internal.Listing.{entry_shown, is_listed_as, shown_key};
ghost use Rattle.session_questions.specs.internal.Names.{shown_cmp};

use crate::links::add;
use crate::shown_name::ShownName;
use book_model::Refusal;
use cell_addr::{Text, capitals};
use formula_print::print;
use formula_tree::Tree;
use kept_book::home_in;
use name_table::{NameKey, Names};
use session_operations::{Parts, Stop};
use std::alloc::{AllocError, Global};
use std::collections::BTreeSet;

/// A named expression as it is listed.
#[derive(Drop, Debug)]
pub struct NameEntry {
    /// The sheet whose own name it is; `None` for one of the whole workbook.
    pub scope: Option<u32>,
    /// The name in capitals.
    pub name: Text,
}

/// All named expressions: those of the whole workbook, then those of each sheet by its number; within a scope by the bytes of the names
/// in capitals. Costs the sorting of them.
pub fn names_listed(parts: &Parts) -> Result<Vec<NameEntry>, AllocError>
    ensures { IfOk result (λ list. list.items ≡ entries_of (state_of parts.now).book) }
{
    let book = &parts.session.book;
    let keys = book.names.all()?;
    let names = names_shown(book.alloc, &book.names, &keys)?;
    entries(book.alloc, &names)
}

/// The canonical text of the expression of the scope's own name, in any case of its ASCII letters. Costs what a read of a cell's
/// formula does, and a look-up of the name.
///
/// # Errors
/// `NoSheet` for a scope that doesn't exist, `NoSuchName` where the scope hasn't the name.
pub fn name_text(parts: &mut Parts, name: &str, scope: Option<u32>) -> Result<Text, Stop>
    requires { Fits parts.old }
    ensures answered { Answered (cause (op.remove_name name.now scope) (state_of parts.old)) (λ text. name_text_of (state_of parts.old).book (key_of scope name.now) ≡ Some text) result }
    ensures state { state_of parts.new ≡ state_of parts.old }
    ensures fits { Fits parts.new }
    ensures line { parts.new.session.book.lazy.line ≡ parts.old.session.book.lazy.line }
    ensures follow { ValuesFollowStill parts.old parts.new }
    ensures values { parts.new.values ≡ parts.old.values }
{
    if !parts.has_scope(scope) {
        return Err(Stop::Refused(Refusal::NoSheet));
    }
    let Some(tree) = tree_named(parts, name, scope)? else {
        return Err(Stop::Refused(Refusal::NoSuchName));
    };
    let book = &parts.session.book;
    let text = print(book.alloc, &tree, home_in(scope), &book.names)?;
    Ok(text)
}

// The tree of the scope's own name, if it has the name.
#[tactic(auto, using(session_operations::proofs::Following::follow_reads))]
fn tree_named(parts: &mut Parts, name: &str, scope: Option<u32>) -> Result<Option<Tree>, AllocError>
    ensures tree { IfOk result (λ tree. option_map (tree_in_scope scope) tree ≡ fin.get (state_of parts.old).book.names (key_of scope name.now)) }
    ensures state { state_of parts.new ≡ state_of parts.old }
    ensures names { parts.new.session.book.names ≡ parts.old.session.book.names }
    ensures line { parts.new.session.book.lazy.line ≡ parts.old.session.book.lazy.line }
    ensures follow { ValuesFollowStill parts.old parts.new }
    ensures values { parts.new.values ≡ parts.old.values }
{
    match parts.session.book.names.known(name) {
        Some(word) => parts.session.named(scope, word),
        None => Ok(None),
    }
}

// The names of a table as links show them, in order.
fn names_shown(
    alloc: Global,
    names: &Names,
    keys: &[(NameKey, u64)],
) -> Result<BTreeSet<ShownName>, AllocError>
    ensures { IfOk result (λ set. (q : ShownName) → contains shown_cmp set q ≡ list_any (is_listed_as (words_of names.now) q) keys.now) }
{
    let mut shown = BTreeSet::new(alloc);
    'keys: for key in keys {
        let name = key_shown(alloc, names, key.0)?;
        add(&mut shown, name)?;
    }
    Ok(shown)
}

// A name of a table as links show it, if its word is known.
fn key_shown(alloc: Global, names: &Names, key: NameKey) -> Result<Option<ShownName>, AllocError>
    ensures { IfOk result (λ name. name ≡ shown_key (words_of names.now) key) }
{
    match names.spelling(key.word) {
        Some(spelling) => {
            let word = capitals(alloc, spelling.as_str())?;
            Ok(Some(ShownName {
                scope: key.scope,
                word,
            }))
        }
        None => Ok(None),
    }
}

// The names as they are listed, in order.
fn entries(alloc: Global, names: &BTreeSet<ShownName>) -> Result<Vec<NameEntry>, AllocError>
    ensures order { IsOrdered shown_cmp names.now }
    ensures list { IfOk result (λ list. list.items ≡ map entry_shown names.now.keys) }
{
    let mut list = Vec::new(alloc);
    'names: for name in names {
        let word = name.word.copy(alloc)?;
        list.push(NameEntry {
            scope: name.scope,
            name: word,
        })?;
    }
    Ok(list)
}
