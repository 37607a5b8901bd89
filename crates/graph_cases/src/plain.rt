// The plain model of a graph of needs: a list of links, in which each used range is tested against each cell. All whole
// ranges lie within their sheets.
ghost use Rattle.shift_core.specs.Sound.{IsSound};

use dep_graph::Node;
use shift_core::{Shift, bends_whole, is_bent, is_cut, moved_block, moved_place, moved_whole};
use std::alloc::{AllocError, Global};

// A link of a node to one that it needs.
#[derive(Clone, Copy)]
struct Link {
    user: Node,
    need: Node,
}

// Links, in any order.
#[derive(Drop)]
pub(crate) struct Plain {
    alloc: Global,
    links: Vec<Link>,
}

impl Plain {
    // No links.
    pub(crate) fn new(alloc: Global) -> Plain {
        Plain {
            alloc,
            links: Vec::new(alloc),
        }
    }

    // Replaces what the node was linked to.
    pub(crate) fn link(&mut self, user: Node, needs: &[Node]) -> Result<(), AllocError> {
        self.unlink(user);
        'needs: for need in needs {
            self.links.push(Link { user, need: *need })?;
        }
        Ok(())
    }

    // Lets the node be linked to none.
    pub(crate) fn unlink(&mut self, user: Node) {
        self.links.retain(|link| link.user != user);
    }

    // Moves the links, of which those are left whose ends both stand somewhere.
    pub(crate) fn shift(&mut self, s: &Shift) -> Result<(), AllocError>
        requires { IsSound s.now }
    {
        let mut moved = Vec::new(self.alloc);
        'links: for link in &self.links {
            if let Some(after) = moved_link(s, *link) {
                moved.push(after)?;
            }
        }
        self.links = moved;
        Ok(())
    }

    // An end of one of the links, by any number: what needs, or what it needs.
    pub(crate) fn end_of_a_link(&self, number: u32) -> Option<Node> {
        let count = self.links.len();
        if count == 0 {
            return None;
        }
        let link = self.links.get(number as usize / 2 % count)?;
        Some(if number % 2 == 0 {
            link.user
        } else {
            link.need
        })
    }

    // The nodes that need one of these, directly or through others, each once.
    pub(crate) fn users(&self, nodes: &[Node]) -> Result<Vec<Node>, AllocError> {
        let mut found = Vec::new(self.alloc);
        'nodes: for node in nodes {
            self.add_users(&mut found, *node)?;
        }
        // Each node that is found is an end of some link.
        'found: for place in 0..self.links.len().saturating_mul(2) {
            let Some(node) = found.get(place).copied() else {
                break;
            };
            self.add_users(&mut found, node)?;
        }
        Ok(found)
    }

    // Adds the nodes that need this one directly: those that are linked to it, and used ranges that cover it.
    fn add_users(&self, found: &mut Vec<Node>, node: Node) -> Result<(), AllocError> {
        'links: for link in &self.links {
            if link.need == node {
                add(found, link.user)?;
            }
            if covers(link.need, node) {
                add(found, link.need)?;
            }
        }
        Ok(())
    }

    // The nodes that are linked to the cell or to a range that covers it, each once.
    pub(crate) fn linked_over(&self, cell: Node) -> Result<Vec<Node>, AllocError> {
        let mut found = Vec::new(self.alloc);
        'links: for link in &self.links {
            if link.need == cell || covers(link.need, cell) {
                add(&mut found, link.user)?;
            }
        }
        Ok(found)
    }

    // The marks and the nodes that need one, directly or through others, each once.
    pub(crate) fn reached(&self, marks: &[Node]) -> Result<Vec<Node>, AllocError> {
        let mut reached = self.users(marks)?;
        'marks: for mark in marks {
            add(&mut reached, *mark)?;
        }
        Ok(reached)
    }

    // Whether needs lead from the node back to it.
    pub(crate) fn is_on_cycle(&self, node: Node) -> Result<bool, AllocError> {
        Ok(self.users(&[node])?.contains(&node))
    }

    // The nodes that are linked to one that the operation bends, each once.
    pub(crate) fn bent(&self, s: &Shift) -> Result<Vec<Node>, AllocError>
        requires { IsSound s.now }
    {
        let mut bent = Vec::new(self.alloc);
        'links: for link in &self.links {
            if bends(s, link.need) {
                add(&mut bent, link.user)?;
            }
        }
        Ok(bent)
    }
}

// Adds the node to the list unless it stands there.
fn add(list: &mut Vec<Node>, node: Node) -> Result<(), AllocError> {
    if !list.contains(&node) {
        list.push(node)?;
    }
    Ok(())
}

// Whether the first node is a range, whole or not, that covers the second, a cell.
fn covers(range: Node, cell: Node) -> bool {
    match (range, cell) {
        (Node::Range(block), Node::Cell(at)) => block.holds(at),
        (Node::Whole(whole), Node::Cell(at)) => whole.inside() && whole.block().holds(at),
        _ => false,
    }
}

// Where the link is after the operation; nowhere where one of its ends is lost.
fn moved_link(s: &Shift, link: Link) -> Option<Link>
    requires { IsSound s.now }
{
    Some(Link {
        user: moved_node(s, link.user)?,
        need: moved_node(s, link.need)?,
    })
}

// Where the node is after the operation. Names stay.
fn moved_node(s: &Shift, node: Node) -> Option<Node>
    requires { IsSound s.now }
{
    Some(match node {
        Node::Cell(at) => Node::Cell(moved_place(s, at)?),
        Node::Name { .. } => node,
        Node::Range(block) => Node::Range(moved_block(s, block)?),
        Node::Whole(whole) => {
            if !whole.inside() {
                return None;
            }
            Node::Whole(moved_whole(s, whole)?)
        }
    })
}

// Whether the operation loses the cell, or does more to the range than carry it along.
fn bends(s: &Shift, node: Node) -> bool
    requires { IsSound s.now }
{
    match node {
        Node::Cell(at) => moved_place(s, at).is_none(),
        Node::Name { .. } => false,
        Node::Range(block) => is_bent(s, block) || is_cut(s, block),
        Node::Whole(whole) => whole.inside() && bends_whole(s, whole),
    }
}
