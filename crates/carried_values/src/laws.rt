// What goes over from one network to another, as laws. `K` and `L` are the types of nodes, `V` that of values.
ghost use Rattle.carried_values.specs.Laws.{CyclesGoOver, ValuesGoOver};

/// A node of a set that goes over shows what the node showed from which it came.
pub fn values_go_over<K, L, V>()
    ensures { ValuesGoOver K L V }
{}

/// It is on a cycle exactly where that one was.
pub fn cycles_go_over<K, L, V>()
    ensures { CyclesGoOver K L V }
{}
