// Trees as a pool keys them.
ghost use Rattle.std.specs.Cmp.{partial_equiv_from_equiv};
ghost use Rattle.std.specs.Cmp.Lexicographic.{on_texts_equal, bytes_decides};
ghost use Rattle.std.proofs.Common.{ap, []};
ghost use Rattle.formula_tree.specs.Relative.{relative};
ghost use Rattle.formula_tree.specs.internal.Code.{fed_words, code, same_code};

use crate::node::Tree;
use std::hash::{Hash, Hasher};

// A tree that is compared and hashed by what it is as seen from its homes.
#[derive(Drop)]
pub(crate) struct Entry {
    pub(crate) tree: Tree,
}

impl PartialEq for Entry {
    ghost eq = { λ a b. same_code (relative a.tree.value) (relative b.tree.value) };

    ghost laws = { partial_equiv_from_equiv (on_texts_equal (λ a. code (relative a.tree.value) [])) };

    fn eq(&self, other: &Entry) -> bool {
        self.tree.same(&other.tree)
    }
}

impl Eq for Entry {
    ghost laws = { on_texts_equal (λ a. code (relative a.tree.value) []) };
}

impl Hash for Entry {
    ghost hash_input = { λ a. fed_words (code (relative a.tree.value) []) };

    ghost respects_eq = { λ a b h. ap fed_words ((bytes_decides (code (relative a.tree.value) []) (code (relative b.tree.value) [])).0 h) };

    fn hash<H: Hasher>(&self, state: &mut H) {
        self.tree.feed(state);
    }
}
