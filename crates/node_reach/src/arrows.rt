// Graphs whose nodes are numbers.
ghost use Rattle.std.specs.Prelude.{◌≡◌, ◌<◌, ℕ, List, IfOk};
ghost use Rattle.std.specs.List.{All};

use std::alloc::{AllocError, Global};

/// Nodes, which are the numbers below a count, and arrows that lead from some of them to others.
pub trait Arrows {
    // How many nodes there are.
    ghost count: { Self → ℕ };

    // The nodes to which arrows lead from a node.
    ghost targets: { Self → ℕ → List ℕ };

    /// The nodes to which arrows lead from a node, in any order, each as often as it likes. Errs for want of memory.
    fn arrows(&self, alloc: Global, node: usize) -> Result<Vec<usize>, AllocError>
        requires { node < count self.now }
        ensures targets { IfOk result (λ nodes. nodes.items ≡ targets self.now node) }
        ensures nodes { IfOk result (λ nodes. All (λ b. b < count self.now) nodes.items) };
}
