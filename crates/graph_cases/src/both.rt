// A graph of needs beside the plain model: each call is made on both, and then their answers are compared.
ghost use Rattle.shift_core.specs.Sound.{IsSound};

use crate::plain::Plain;
use crate::tally::{Answer, Tally};
use dep_graph::{Graph, Node, Nodes};
use shift_core::Shift;
use std::alloc::{AllocError, Global};

// A graph and the plain model.
#[derive(Drop)]
pub(crate) struct Both {
    alloc: Global,
    graph: Graph,
    plain: Plain,
}

impl Both {
    // No links in either.
    pub(crate) fn new(alloc: Global) -> Result<Both, AllocError> {
        Ok(Both {
            alloc,
            graph: Graph::new(alloc)?,
            plain: Plain::new(alloc),
        })
    }

    // What is linked, or is linked to, by any number.
    pub(crate) fn end_of_a_link(&self, number: u32) -> Option<Node> {
        self.plain.end_of_a_link(number)
    }

    // Replaces what the node was linked to.
    pub(crate) fn link(&mut self, user: Node, needs: &[Node]) -> Result<(), AllocError> {
        self.graph.link(user, needs)?;
        self.plain.link(user, needs)
    }

    // Lets the node be linked to none.
    pub(crate) fn unlink(&mut self, user: Node) {
        self.graph.unlink(user);
        self.plain.unlink(user);
    }

    // Whether needs lead from the node back to it, in the plain model.
    pub(crate) fn is_on_cycle(&self, node: Node) -> Result<bool, AllocError> {
        self.plain.is_on_cycle(node)
    }

    // Moves the nodes.
    pub(crate) fn shift(&mut self, s: &Shift) -> Result<(), AllocError>
        requires { IsSound s.now }
    {
        self.graph.shift(s)?;
        self.plain.shift(s)
    }

    // Goes on with an equal copy of the graph.
    pub(crate) fn go_on_with_a_copy(&mut self) -> Result<(), AllocError> {
        go_on_with_a_copy(&mut self.graph)
    }

    // Compares what the marks reach, and its order.
    pub(crate) fn compare_reach(
        &self,
        marks: &[Node],
        tally: &mut Tally,
    ) -> Result<(), AllocError> {
        let reached = self.graph.reach(&nodes(self.alloc, marks)?)?;
        let expected = self.plain.reached(marks)?;
        tally.compare(Answer::Reach, are_same(reached.items(), &expected));
        self.compare_order(&reached, tally)
    }

    // Compares the order of nodes: those on no cycle, each after all that its needs lead to.
    fn compare_order(&self, reached: &Nodes, tally: &mut Tally) -> Result<(), AllocError> {
        let order = self.graph.order(reached)?;
        let mut same = true;
        let mut ordered: usize = 0;
        'reached: for node in reached.items() {
            let users = self.plain.users(&[*node])?;
            let is_on_cycle = users.contains(node);
            tally.count_reached(is_on_cycle);
            if is_on_cycle {
                continue;
            }
            ordered = ordered.saturating_add(1);
            same = same && stands_before(order.items(), *node, &users);
        }
        tally.compare(Answer::Order, same && order.items().len() == ordered);
        Ok(())
    }

    // Compares whether the node is on a cycle.
    pub(crate) fn compare_cycle(&self, node: Node, tally: &mut Tally) -> Result<(), AllocError> {
        let is_on_cycle = self.graph.on_cycle(node)?;
        let expected = self.plain.is_on_cycle(node)?;
        tally.compare(Answer::OnCycle, is_on_cycle == expected);
        Ok(())
    }

    // Compares the nodes that are linked to the node or to a range that covers it, where it is a cell.
    pub(crate) fn compare_users(&self, node: Node, tally: &mut Tally) -> Result<(), AllocError> {
        let Node::Cell(at) = node else {
            return Ok(());
        };
        let users = self.graph.users(at)?;
        let expected = self.plain.linked_over(node)?;
        tally.users = tally.users.saturating_add(expected.len() as u64);
        tally.compare(Answer::Users, are_same(users.items(), &expected));
        Ok(())
    }

    // Compares the nodes that the operation would bend.
    pub(crate) fn compare_bent(&self, s: &Shift, tally: &mut Tally) -> Result<(), AllocError>
        requires { IsSound s.now }
    {
        let bent = self.graph.bent(s)?;
        let expected = self.plain.bent(s)?;
        tally.bent = tally.bent.saturating_add(expected.len() as u64);
        tally.compare(Answer::Bent, are_same(bent.items(), &expected));
        Ok(())
    }
}

// Replaces the graph by an equal copy.
pub(crate) fn go_on_with_a_copy(graph: &mut Graph) -> Result<(), AllocError> {
    let copy = graph.copied()?;
    *graph = copy;
    Ok(())
}

// The list of these nodes.
pub(crate) fn nodes(alloc: Global, items: &[Node]) -> Result<Nodes, AllocError> {
    let mut nodes = Nodes::new(alloc)?;
    'items: for node in items {
        nodes.push(*node)?;
    }
    Ok(nodes)
}

// Whether the list has exactly these nodes, each once, in some order. No two of them are the same.
pub(crate) fn are_same(list: &[Node], expected: &[Node]) -> bool {
    list.len() == expected.len() && expected.iter().all(|node| list.contains(node))
}

// Whether the node stands in the list, and none of the others before it.
fn stands_before(list: &[Node], node: Node, others: &[Node]) -> bool {
    'list: for item in list {
        if *item == node {
            return true;
        }
        if others.contains(item) {
            return false;
        }
    }
    false
}
