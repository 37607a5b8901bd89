// Lists of nodes, most of which are short.
use smallvec::SmallVec;

/// A list of nodes, which takes no memory of its own for two of them or fewer.
pub type NodeList = SmallVec<usize, 2>;
