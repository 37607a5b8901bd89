/// What stands on cycles, and an order in which each node stands after all that it needs.
#[derive(Debug, Drop)]
pub struct Order {
    /// Every node once.
    pub nodes: Vec<usize>,
    /// For each node, by its number, whether needs lead from it back to it.
    pub on_cycle: Vec<bool>,
}
