// Steps.
use kept_book::Part;

/// A step that can be undone or done again: what its operations changed, one after the other.
#[derive(Drop)]
pub struct Entry {
    pub parts: Vec<Part>,
}
