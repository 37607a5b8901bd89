// Nodes that stand under words.
ghost use Rattle.std.specs.Prelude.{◌≡◌, ◌⊎◌, true, false, ℕ, List, OnOk};
ghost use Rattle.cell_addr.specs.Sheets.{same_name};
ghost use Rattle.shift_core.specs.Sound.{IsSound};
ghost use Rattle.dep_graph.specs.Nodes.{has, same_node};
ghost use Rattle.dep_graph.specs.declared.node.Node.{Node as NodeSeen};
ghost use Rattle.folded_key.specs.Key.{text_of};
ghost use Rattle.kept_values.specs.Sought.{noted_under};
ghost use Rattle.kept_values.specs.internal.TakenAlong.{AreMoved};

use crate::shifting::moved_nodes;
use cell_addr::Text;
use dep_graph::Node;
use folded_key::FoldedKey;
use indexmap::{IndexMap, IndexSet};
use shift_core::Shift;
use std::alloc::{AllocError, Global};
use std::mem;

/// The nodes that stand under each word, which is the same in any case of its ASCII letters.
pub(crate) type Sought = IndexMap<FoldedKey<'static>, IndexSet<Node>>;

// Puts the node under the word.
pub(crate) fn put_under(
    alloc: Global,
    sought: &mut Sought,
    word: &Text,
    a: Node,
) -> Result<(), AllocError>
    ensures stay { (w : List ℕ) (b : NodeSeen) → noted_under sought.old w b ≡ true → noted_under sought.new w b ≡ true }
    ensures only { (w : List ℕ) (b : NodeSeen) → noted_under sought.new w b ≡ true → (noted_under sought.old w b ≡ true) ⊎ (same_node b a ≡ true) }
    ensures there { OnOk result ((w : List ℕ) → same_name w word.now ≡ true → noted_under sought.new w a ≡ true) }
{
    let key = FoldedKey::Own(word.copy(alloc)?);
    match sought.get_mut(&key) {
        Some(nodes) => add(a, nodes),
        None => put_first(alloc, sought, key, a),
    }
}

// Puts the node under a word under which nothing stands.
fn put_first(
    alloc: Global,
    sought: &mut Sought,
    key: FoldedKey<'static>,
    a: Node,
) -> Result<(), AllocError>
    requires { (b : NodeSeen) → noted_under sought.old (text_of key) b ≡ false }
    ensures stay { (w : List ℕ) (b : NodeSeen) → noted_under sought.old w b ≡ true → noted_under sought.new w b ≡ true }
    ensures only { (w : List ℕ) (b : NodeSeen) → noted_under sought.new w b ≡ true → (noted_under sought.old w b ≡ true) ⊎ (same_node b a ≡ true) }
    ensures there { OnOk result ((w : List ℕ) → same_name w (text_of key.entry) ≡ true → noted_under sought.new w a ≡ true) }
{
    let mut nodes = IndexSet::new(alloc);
    add(a, &mut nodes)?;
    sought.insert(key, nodes)?;
    Ok(())
}

// Adds the node to the set.
fn add(a: Node, nodes: &mut IndexSet<Node>) -> Result<(), AllocError>
    ensures stay { (b : NodeSeen) → has b nodes.old.keys ≡ true → has b nodes.new.keys ≡ true }
    ensures only { (b : NodeSeen) → has b nodes.new.keys ≡ true → (has b nodes.old.keys ≡ true) ⊎ (same_node b a ≡ true) }
    ensures there { OnOk result (has a nodes.new.keys ≡ true) }
{
    nodes.insert(a)?;
    Ok(())
}

// Takes the nodes under each word to where the operation takes them; a word of which it loses all is gone. For want of memory some
// are gone.
pub(crate) fn move_words(alloc: Global, s: &Shift, sought: &mut Sought) -> Result<(), AllocError>
    requires { IsSound s.now }
    ensures { OnOk result ((word : List ℕ) → AreMoved s.now (noted_under sought.old word) (noted_under sought.new word)) }
{
    let mut left = mem::replace(sought, IndexMap::new(alloc));
    'words: while let Some((key, nodes)) = left.pop() {
        move_word(alloc, s, key, &nodes, sought)?;
    }
    Ok(())
}

// Puts the nodes under a word, under which nothing stands, where the operation takes them.
fn move_word(
    alloc: Global,
    s: &Shift,
    key: FoldedKey<'static>,
    nodes: &IndexSet<Node>,
    moved: &mut Sought,
) -> Result<(), AllocError>
    requires { IsSound s.now }
    ensures here { OnOk result ((w : List ℕ) → same_name (text_of key.entry) w ≡ true → ((b : NodeSeen) → noted_under moved.old w b ≡ false) → AreMoved s.now (λ a. has a nodes.now.keys) (noted_under moved.new w)) }
    ensures others { OnOk result ((w : List ℕ) (b : NodeSeen) → same_name (text_of key.entry) w ≡ false → noted_under moved.new w b ≡ noted_under moved.old w b) }
{
    let along = moved_nodes(alloc, s, nodes.as_slice())?;
    if along.is_empty() {
        return Ok(());
    }
    moved.insert(key, along)?;
    Ok(())
}
