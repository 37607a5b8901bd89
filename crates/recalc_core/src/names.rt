// The names that a formula reads.
ghost use Rattle.std.specs.Prelude.{◌≡◌, IfOk, OnOk};
ghost use Rattle.formula_tree.specs.Links.{names_in};
ghost use Rattle.formula_tree.specs.Relative.{relative};
ghost use Rattle.formula_tree.specs.StandsFor.{at_home};
ghost use Rattle.formula_tree.specs.declared.reference.Home.{Home};
ghost use Rattle.recalc_core.specs.internal.Seen.{AddsRead, AreRead};

use crate::trees::{NodeContent, Trees};
use cell_addr::Text;
use dep_graph::Node;
use formula_tree::{Home, Tree, names_of};
use std::alloc::{AllocError, Global};

// A name that a formula reads: a word by which it does, and the node, home and tree of the name.
#[derive(Drop)]
pub(crate) struct ReadName {
    pub(crate) word: Text,
    pub(crate) node: Node,
    pub(crate) home: Home,
    pub(crate) tree: Tree,
}

// The names that the words of a tree find on the sheet.
pub(crate) fn read_names<T: Trees>(
    alloc: Global,
    trees: &mut T,
    tree: &Tree,
    sheet: u32,
) -> Result<Vec<ReadName>, AllocError>
    ensures read { IfOk result (λ names. (home : Home) → AreRead (T.workbook trees.old) (T.words trees.old) sheet (names_in (at_home home (relative tree.now.value))) names.items) }
    ensures leaves { T.workbook trees.new ≡ T.workbook trees.old }
    ensures words { T.words trees.new ≡ T.words trees.old }
    ensures reads { T.leaves trees.old trees.new }
{
    let words = names_of(alloc, tree)?;
    read_words(alloc, trees, &words, sheet)
}

// The names that the words find on the sheet.
fn read_words<T: Trees>(
    alloc: Global,
    trees: &mut T,
    words: &[Text],
    sheet: u32,
) -> Result<Vec<ReadName>, AllocError>
    ensures read { IfOk result (λ names. AreRead (T.workbook trees.old) (T.words trees.old) sheet words.now names.items) }
    ensures leaves { T.workbook trees.new ≡ T.workbook trees.old }
    ensures words { T.words trees.new ≡ T.words trees.old }
    ensures reads { T.leaves trees.old trees.new }
{
    let mut names = Vec::new(alloc);
    'words: for word in words {
        read_word(alloc, trees, word, sheet, &mut names)?;
    }
    Ok(names)
}

// Adds the name that the word finds on the sheet, where it finds one.
fn read_word<T: Trees>(
    alloc: Global,
    trees: &mut T,
    word: &Text,
    sheet: u32,
    names: &mut Vec<ReadName>,
) -> Result<(), AllocError>
    ensures read { OnOk result (AddsRead (T.workbook trees.old) (T.words trees.old) sheet word.now names.old.items names.new.items) }
    ensures leaves { T.workbook trees.new ≡ T.workbook trees.old }
    ensures words { T.words trees.new ≡ T.words trees.old }
    ensures reads { T.leaves trees.old trees.new }
{
    let Some(node) = trees.find(word.as_str(), sheet)? else {
        return Ok(());
    };
    match trees.given(node)? {
        NodeContent::Formula(tree, home) => names.push(ReadName {
            word: word.copy(alloc)?,
            node,
            home,
            tree,
        })?,
        NodeContent::Nothing => unreachable!(),
        NodeContent::Value(_) => unreachable!(),
    }
    Ok(())
}
