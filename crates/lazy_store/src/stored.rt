// A formula as it is kept.
use formula_tree::{Home, Tree};

/// A formula as a store keeps it, without catching up: home and tree as of a position of the line.
#[derive(Drop)]
pub struct Stored<'a> {
    pub position: u64,
    pub home: Home,
    pub tree: &'a Tree,
}
