// Equal nets of nodes.
ghost use Rattle.std.specs.Prelude.{◌≡◌, ◌<◌, [], IfOk, OnOk};
ghost use Rattle.std.specs.List.{filter_map};
ghost use Rattle.node_links.specs.Nodes.{needs_of};
ghost use Rattle.dep_graph.specs.Graph.{AreSame};
ghost use Rattle.dep_graph.specs.Nodes.{items_of};
ghost use Rattle.dep_graph.specs.declared.node.Node.{Node};
ghost use Rattle.dep_graph.specs.internal.Copied.{AddsCopied};
ghost use Rattle.dep_graph.specs.internal.Nets.{links_in};
ghost use Rattle.dep_graph.specs.internal.Numbers.{count_of, found_at};

use crate::net::Net;
use crate::nodes::Nodes;
use indexmap::IndexSet;
use std::alloc::AllocError;

impl Net {
    // A net with the same links, on sheets whose lines are numbered anew.
    pub(crate) fn copied(&self) -> Result<Net, AllocError>
        ensures { IfOk result (λ net. AreSame (links_in self.now) (links_in net)) }
    {
        let mut copy = Net::new(self.alloc)?;
        self.copy_all(&mut copy)?;
        Ok(copy)
    }

    // Links the nodes of a net without links as they are linked here.
    fn copy_all(&self, copy: &mut Net) -> Result<(), AllocError>
        requires { (a : Node) → links_in copy.old a ≡ [] }
        ensures { OnOk result (AreSame (links_in self.now) (links_in copy.new)) }
    {
        'nodes: for number in 0..self.nodes.len() {
            self.copy_links(copy, number)?;
        }
        Ok(())
    }

    // Links the node of a number as it is linked here. Where it is linked to none it isn't added.
    fn copy_links(&self, copy: &mut Net, number: usize) -> Result<(), AllocError>
        requires { number < count_of self.now.nodes }
        ensures { OnOk result (AddsCopied self.now number (links_in copy.old) (links_in copy.new)) }
    {
        if self.links.needs(number).is_empty() {
            return Ok(());
        }
        match self.nodes.node(number) {
            Some(node) => {
                let needs = self.needs(number)?;
                copy.link(node, needs.items())
            }
            None => Ok(()),
        }
    }

    // What the node of a number is linked to.
    pub(crate) fn needs(&self, number: usize) -> Result<Nodes, AllocError>
        requires { number < count_of self.now.nodes }
        ensures { IfOk result (λ needs. items_of needs ≡ filter_map (found_at self.now.nodes) (needs_of self.now.links number)) }
    {
        let none = IndexSet::new(self.alloc);
        self.named(&none, self.links.needs(number))
    }
}
