// Words of formulas that find no name.
ghost use Rattle.std.specs.Prelude.{◌≡◌, ◌⊎◌, ◌&&◌, ℕ, true, IfOk, List, OnOk};
ghost use Rattle.std.specs.List.{list_any};
ghost use Rattle.std.specs.Option.{is_none};
ghost use Rattle.cell_addr.specs.Sheets.{same_name};
ghost use Rattle.formula_tree.specs.Reference.{sheet_of};
ghost use Rattle.formula_tree.specs.Relative.{relative};
ghost use Rattle.formula_tree.specs.StandsFor.{at_home};
ghost use Rattle.book_values.specs.Names.{found};
ghost use Rattle.dep_graph.specs.Nodes.{same_node};
ghost use Rattle.dep_graph.specs.declared.node.Node.{Node as NodeSeen};
ghost use Rattle.kept_values.specs.Sought.{noted_under};
ghost use Rattle.kept_values.specs.Values.{seeks};

use crate::sought::{Sought, put_under};
use cell_addr::Text;
use dep_graph::Node;
use formula_tree::{Home, Tree, names_of};
use recalc_core::Trees;
use std::alloc::{AllocError, Global};

// Notes the node under each word of the formula that finds no name.
pub(crate) fn note_sought<T: Trees>(
    alloc: Global,
    trees: &mut T,
    tree: &Tree,
    home: Home,
    a: Node,
    sought: &mut Sought,
) -> Result<(), AllocError>
    ensures stay { (word : List ℕ) (b : NodeSeen) → noted_under sought.old word b ≡ true → noted_under sought.new word b ≡ true }
    ensures only { (word : List ℕ) (b : NodeSeen) → noted_under sought.new word b ≡ true → (noted_under sought.old word b ≡ true) ⊎ (same_node b a ≡ true) }
    ensures seeks { OnOk result ((word : List ℕ) → seeks (T.workbook trees.old).names (sheet_of home) word (at_home home (relative tree.now.value)) ≡ true → noted_under sought.new word a ≡ true) }
    ensures leaves { T.workbook trees.new ≡ T.workbook trees.old }
    ensures words { T.words trees.new ≡ T.words trees.old }
    ensures reads { T.leaves trees.old trees.new }
{
    let words = names_of(alloc, tree)?;
    note_words(alloc, trees, &words, home.sheet(), a, sought)
}

// Notes the node under each of the words that finds no name on the sheet.
fn note_words<T: Trees>(
    alloc: Global,
    trees: &mut T,
    words: &[Text],
    sheet: u32,
    a: Node,
    sought: &mut Sought,
) -> Result<(), AllocError>
    ensures stay { (word : List ℕ) (b : NodeSeen) → noted_under sought.old word b ≡ true → noted_under sought.new word b ≡ true }
    ensures only { (word : List ℕ) (b : NodeSeen) → noted_under sought.new word b ≡ true → (noted_under sought.old word b ≡ true) ⊎ (same_node b a ≡ true) }
    ensures seeks { OnOk result ((word : List ℕ) → list_any (λ w. same_name word w && is_none (found (T.workbook trees.old).names w sheet)) words.now ≡ true → noted_under sought.new word a ≡ true) }
    ensures leaves { T.workbook trees.new ≡ T.workbook trees.old }
    ensures words { T.words trees.new ≡ T.words trees.old }
    ensures reads { T.leaves trees.old trees.new }
{
    'words: for word in words {
        note_word(alloc, trees, word, sheet, a, sought)?;
    }
    Ok(())
}

// Notes the node under the word, if it finds no name on the sheet.
fn note_word<T: Trees>(
    alloc: Global,
    trees: &mut T,
    word: &Text,
    sheet: u32,
    a: Node,
    sought: &mut Sought,
) -> Result<(), AllocError>
    ensures stay { (w : List ℕ) (b : NodeSeen) → noted_under sought.old w b ≡ true → noted_under sought.new w b ≡ true }
    ensures only { (w : List ℕ) (b : NodeSeen) → noted_under sought.new w b ≡ true → (noted_under sought.old w b ≡ true) ⊎ (same_node b a ≡ true) }
    ensures seeks { OnOk result ((w : List ℕ) → (same_name w word.now && is_none (found (T.workbook trees.old).names word.now sheet)) ≡ true → noted_under sought.new w a ≡ true) }
    ensures leaves { T.workbook trees.new ≡ T.workbook trees.old }
    ensures words { T.words trees.new ≡ T.words trees.old }
    ensures reads { T.leaves trees.old trees.new }
{
    let none = finds_none(trees, word, sheet)?;
    if none {
        put_under(alloc, sought, word, a)
    } else {
        Ok(())
    }
}

// Whether the word finds no name on the sheet.
fn finds_none<T: Trees>(trees: &mut T, word: &Text, sheet: u32) -> Result<bool, AllocError>
    ensures none { IfOk result (λ is_so. is_so ≡ is_none (found (T.workbook trees.old).names word.now sheet)) }
    ensures leaves { T.workbook trees.new ≡ T.workbook trees.old }
    ensures words { T.words trees.new ≡ T.words trees.old }
    ensures reads { T.leaves trees.old trees.new }
{
    match trees.find(word.as_str(), sheet)? {
        Some(_) => Ok(false),
        None => Ok(true),
    }
}
