// The nodes that have numbers.
ghost use Rattle.std.specs.Prelude.{◌≡◌, ◌<◌, [], position, IfOk};
ghost use Rattle.dep_graph.specs.internal.Keys.{AreKeysOnce, AreNarrow};

use crate::key::Key;
use crate::node::Node;
use indexmap::IndexSet;
use near_hash::NearHash;
use place_lines::PlaceLines;
use std::alloc::{AllocError, Global};

// The nodes that were linked to others or that others were linked to, under numbers from 0 on.
pub(crate) struct NodeTable {
    // Where their lines stand.
    pub(crate) lines: PlaceLines,
    // Their keys, in the order in which they came.
    pub(crate) keys: IndexSet<Key, NearHash>,
    pub ghost once: { AreKeysOnce keys.keys },
    pub ghost narrow: { AreNarrow keys.keys },
}

// Written out, so that whoever drops one calls one function.
impl Drop for NodeTable {
    fn drop(self) {
        let NodeTable {
            lines: _lines,
            keys: _keys,
        } = self;
    }
}

impl NodeTable {
    ghost use Rattle.dep_graph.specs.internal.Keys.{key_of, same_key};
    ghost use Rattle.dep_graph.specs.internal.Numbers.{count_of, found_at, key_at};

    // No nodes, on sheets that were never edited.
    pub(crate) fn new(alloc: Global) -> Result<NodeTable, AllocError>
        ensures { IfOk result (λ table. table.keys.keys ≡ []) }
    {
        Ok(NodeTable {
            lines: PlaceLines::new(alloc)?,
            keys: IndexSet::with_hasher(alloc, NearHash::new()),
        })
    }

    // Where the lines stand.
    pub(crate) fn lines(&self) -> &PlaceLines
        ensures { result.now ≡ self.now.lines }
    {
        &self.lines
    }

    // How many numbers there are.
    pub(crate) fn len(&self) -> usize
        ensures { result ≡ count_of self.now }
    {
        self.keys.len()
    }

    // The number of a node that has one.
    pub(crate) fn number(&self, a: Node) -> Option<usize>
        ensures { result ≡ position (same_key (key_of self.now.lines a)) self.now.keys.keys }
    {
        self.keys.get_index_of(&Key::of(&self.lines, a))
    }

    // The key of a number.
    pub(crate) fn key(&self, number: usize) -> Key
        requires { number < count_of self.now }
        ensures { result ≡ key_at self.now number }
    {
        self.keys.as_slice()[number]
    }

    // The node of a number; None past the last number, and where one of its lines stands nowhere.
    pub(crate) fn node(&self, number: usize) -> Option<Node>
        ensures { result ≡ found_at self.now number }
    {
        match self.keys.as_slice().get(number) {
            Some(key) => key.node(&self.lines),
            None => None,
        }
    }
}
