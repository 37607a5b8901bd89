// Formulas as such, which no cell holds: their canonical texts, the names that they use, and where their texts go wrong.
ghost use Rattle.std.specs.Prelude.{◌≡◌, ◌++◌, ◌∷◌, [], IfOk, OnOk, Some, map};
ghost use Rattle.std.specs.List.{filter_map};
ghost use Rattle.cell_addr.specs.Text.{capitals};
ghost use Rattle.formula_tree.specs.Mentions.{word_of};
ghost use Rattle.formula_tree.specs.Proper.{IsProper};
ghost use Rattle.formula_tree.specs.StandsFor as standing;
ghost use Rattle.formula_tree.specs.Term.{Term};
ghost use Rattle.formula_tree.specs.declared.reference.Corner.{Corner};
ghost use Rattle.book_model.specs.Answers.{first_cell};
ghost use Rattle.kept_book.specs.Formula.{tree_at};
ghost use Rattle.session_operations.specs.Turns.{Answered};
ghost use Rattle.session_questions.specs.Formulas.{TellsWrong, names_used_of, normal_text_of, text_cause, tree_on, untold_cause, words_used};
ghost use Rattle.session_operations.specs.Seen.{Fits, ValuesFollowStill, state_of};

use book_model::{MAX_TEXT, Refusal};
use cell_addr::{Text, capitals};
use formula_parse::{TextSpan, parse_error};
use formula_print::print;
use formula_tree::{Home, Mention, Tree, mentions_of};
use kept_steps::Session;
use session_operations::{Parts, Stop, first_cell, read_tree};
use std::alloc::{AllocError, Global};

/// The canonical text of the formula that the text spells on the sheet. Costs about the bytes of both texts.
///
/// # Errors
/// `NoSheet`, `TextLimit` past 8,192 bytes, `BadFormula` where the text is no formula; the first that holds.
pub fn normal_text(parts: &mut Parts, sheet: u32, text: &str) -> Result<Text, Stop>
    requires { Fits parts.old }
    ensures answered { Answered (text_cause (state_of parts.old).book sheet text.now) (λ shown. normal_text_of (state_of parts.old).book sheet text.now ≡ Some shown) result }
    ensures state { state_of parts.new ≡ state_of parts.old }
    ensures fits { Fits parts.new }
    ensures book { parts.new.session.book ≡ parts.old.session.book }
    ensures follow { ValuesFollowStill parts.old parts.new }
    ensures values { parts.new.values ≡ parts.old.values }
{
    let tree = tree_on(parts, sheet, text)?;
    let book = &parts.session.book;
    let home = Home::Cell(first_cell(sheet));
    let shown = print(book.alloc, &tree, home, &book.names)?;
    Ok(shown)
}

/// The names that the formula of the text uses, in capitals, in the order of the formula, each once; whether or not there are such
/// named expressions. Costs about the bytes of the text, and each word is compared with those listed before it.
///
/// # Errors
/// Those of [`normal_text`].
pub fn names_in(parts: &mut Parts, sheet: u32, text: &str) -> Result<Vec<Text>, Stop>
    requires { Fits parts.old }
    ensures answered { Answered (text_cause (state_of parts.old).book sheet text.now) (λ words. names_used_of (state_of parts.old).book sheet text.now ≡ Some words.items) result }
    ensures state { state_of parts.new ≡ state_of parts.old }
    ensures fits { Fits parts.new }
    ensures book { parts.new.session.book ≡ parts.old.session.book }
    ensures follow { ValuesFollowStill parts.old parts.new }
    ensures values { parts.new.values ≡ parts.old.values }
{
    let tree = tree_on(parts, sheet, text)?;
    let home = Home::Cell(first_cell(sheet));
    let words = words_used(parts.session.book.alloc, &tree, home)?;
    Ok(words)
}

/// Where a text stops being a formula, in bytes; `None` where it is one ([`parse_error`]). Costs about the bytes of the text, and takes
/// no memory.
///
/// # Errors
/// `NoSheet`, `TextLimit` past 8,192 bytes; the first that holds.
#[tactic(auto, using(crate::proofs::WrongTexts::wrong_or_none))]
pub fn wrong_span(parts: &Parts, sheet: u32, text: &str) -> Result<Option<TextSpan>, Stop>
    ensures { Answered (untold_cause (state_of parts.now).book sheet text.now) (TellsWrong text.now) result }
{
    parts.check_sheet(sheet)?;
    if text.len() > MAX_TEXT {
        return Err(Stop::Refused(Refusal::TextLimit));
    }
    Ok(parse_error(text))
}

// The tree that the text spells on the sheet, in a formula in its first cell.
#[tactic(auto, using(session_operations::proofs::Following::follow_same))]
fn tree_on(parts: &mut Parts, sheet: u32, text: &str) -> Result<Tree, Stop>
    ensures answered { Answered (text_cause (state_of parts.old).book sheet text.now) (λ tree. (tree_on (state_of parts.old).book sheet text.now ≡ Some (tree_at (first_cell sheet) tree)) × IsProper (tree_at (first_cell sheet) tree)) result }
    ensures state { state_of parts.new ≡ state_of parts.old }
    ensures book { parts.new.session.book ≡ parts.old.session.book }
    ensures follow { ValuesFollowStill parts.old parts.new }
    ensures values { parts.new.values ≡ parts.old.values }
{
    parts.check_sheet(sheet)?;
    let Session { pool, book, .. } = &mut parts.session;
    read_tree(
        book.alloc,
        pool,
        &book.names,
        Home::Cell(first_cell(sheet)),
        text,
    )
}

// The words of the names that the tree uses in a formula at the home, in capitals, each once.
fn words_used(alloc: Global, tree: &Tree, home: Home) -> Result<Vec<Text>, AllocError>
    ensures { IfOk result (λ words. (t : Term Corner) → standing.StandsFor tree.now home t → words.items ≡ words_used t) }
{
    let mentions = mentions_of(alloc, tree, home)?;
    let words = raised_words(alloc, &mentions)?;
    Ok(words)
}

// The words of the names among the mentions, in capitals.
fn raised_words(alloc: Global, mentions: &[Mention]) -> Result<Vec<Text>, AllocError>
    ensures { IfOk result (λ words. words.items ≡ map capitals (filter_map word_of mentions.now)) }
{
    let mut words = Vec::new(alloc);
    'mentions: for mention in mentions {
        push_word(alloc, &mut words, mention)?;
    }
    Ok(words)
}

// Puts the word of a mention at the end, in capitals, if it is a name.
fn push_word(alloc: Global, words: &mut Vec<Text>, mention: &Mention) -> Result<(), AllocError>
    ensures { OnOk result (words.new.items ≡ words.old.items ++ map capitals (filter_map word_of (mention.now ∷ []))) }
{
    if let Mention::Name(word) = mention {
        words.push(capitals(alloc, word.as_str())?)?;
    }
    Ok(())
}
