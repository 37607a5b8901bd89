// Which nodes use a cell.
ghost use Rattle.std.specs.Prelude.{◌≡◌, ◌<◌, ◌++◌, ℕ, true, IfOk, OnOk};
ghost use Rattle.std.specs.List.{flat_map};
ghost use Rattle.needs_order.specs.Needs.{has};
ghost use Rattle.dep_graph.specs.Graph.{links_of};
ghost use Rattle.dep_graph.specs.Nodes.{items_of};
ghost use Rattle.dep_graph.specs.Users.{AreLinkedTo, AreUsers};
ghost use Rattle.dep_graph.specs.internal.Nets.{links_in};
ghost use Rattle.dep_graph.specs.internal.Arrows.{from_slot};
ghost use Rattle.dep_graph.specs.internal.Files.{slot_total};
ghost use Rattle.dep_graph.specs.internal.Touches.{AreInside};
ghost use Rattle.dep_graph.specs.internal.UserNumbers.{AreUsersOf, numbers_over, own_number};

use crate::bent::add_all;
use crate::graph::Graph;
use crate::net::Net;
use crate::node::Node;
use crate::nodes::Nodes;
use cell_addr::Place;
use indexmap::IndexSet;
use near_hash::NearHash;
use std::alloc::AllocError;

impl Graph {
    /// Each node, once, that is linked to the cell itself or to a range that covers it. Costs about the number of links to
    /// these, a look-up for each size of slots in use, and a look at each range that was filed under the cell's slots, also
    /// as it was before it was bent. Errs for want of memory.
    pub fn users(&self, at: Place) -> Result<Nodes, AllocError>
        ensures { IfOk result (λ nodes. AreUsers at (links_of self.now) (items_of nodes)) }
    {
        self.net.users(at)
    }

    /// Each node, once, that is linked to the node itself. Costs about the number of links to it. Errs for want of memory.
    pub fn linked_to(&self, a: Node) -> Result<Nodes, AllocError>
        ensures { IfOk result (λ nodes. AreLinkedTo a (links_of self.now) (items_of nodes)) }
    {
        self.net.linked_to(a)
    }
}

impl Net {
    // As [`Graph::users`].
    fn users(&self, at: Place) -> Result<Nodes, AllocError>
        ensures { IfOk result (λ nodes. AreUsers at (links_in self.now) (items_of nodes)) }
    {
        let over = self.numbers_over(at)?;
        let users = self.users_of(&over)?;
        let none = IndexSet::new(self.alloc);
        self.named(&none, users.as_slice())
    }

    // As [`Graph::linked_to`].
    fn linked_to(&self, a: Node) -> Result<Nodes, AllocError>
        ensures { IfOk result (λ nodes. AreLinkedTo a (links_in self.now) (items_of nodes)) }
    {
        let mut own = Vec::new(self.alloc);
        self.add_own(&mut own, a)?;
        let users = self.users_of(&own)?;
        let none = IndexSet::new(self.alloc);
        self.named(&none, users.as_slice())
    }

    // The number of the cell, where it has one, and those of the used ranges that cover it.
    fn numbers_over(&self, at: Place) -> Result<Vec<usize>, AllocError>
        ensures { IfOk result (λ numbers. numbers.items ≡ numbers_over self.now at) }
    {
        let mut numbers = Vec::new(self.alloc);
        self.add_own(&mut numbers, Node::Cell(at))?;
        let spot = self.nodes.lines().spot(at);
        let slots = self.files.slots_at(spot)?;
        self.add_filed(&mut numbers, &slots)?;
        Ok(numbers)
    }

    // Adds the number of the node, where it has one.
    fn add_own(&self, numbers: &mut Vec<usize>, node: Node) -> Result<(), AllocError>
        ensures { OnOk result (numbers.new.items ≡ numbers.old.items ++ own_number self.now node) }
    {
        if let Some(number) = self.nodes.number(node) {
            numbers.push(number)?;
        }
        Ok(())
    }

    // Adds the used ranges that are filed under the slots.
    fn add_filed(&self, numbers: &mut Vec<usize>, slots: &[usize]) -> Result<(), AllocError>
        requires { (s : ℕ) → has s slots.now ≡ true → s < slot_total self.now.files }
        ensures { OnOk result (numbers.new.items ≡ numbers.old.items ++ flat_map (from_slot self.now) slots.now) }
    {
        'slots: for slot in slots {
            let ranges = self.from_slot(self.alloc, *slot)?;
            numbers.extend_from_slice(&ranges)?;
        }
        Ok(())
    }

    // The numbers of the nodes that are linked to one of these.
    fn users_of(&self, numbers: &[usize]) -> Result<IndexSet<usize, NearHash>, AllocError>
        requires { AreInside self.now.nodes numbers.now }
        ensures { IfOk result (λ users. AreUsersOf self.now numbers.now users.keys) }
    {
        let mut users = IndexSet::with_hasher(self.alloc, NearHash::new());
        'numbers: for number in numbers {
            add_all(&mut users, &self.links.users(*number)?)?;
        }
        Ok(users)
    }
}
