// The arrows of a net, from what is needed to what needs it.
ghost use Rattle.std.specs.Prelude.{◌≡◌, ◌+◌, ◌<◌, ◌++◌, ◌∷◌, [], if◌then◌else◌, map, IfOk, OnOk};
ghost use Rattle.std.specs.List.{flat_map};
ghost use Rattle.dep_graph.specs.internal.Arrows.{from_node, from_slot, node_total, slots_behind, starts_of, targets_of, total};
ghost use Rattle.dep_graph.specs.internal.Files.{slot_total};

use crate::key::Key;
use crate::net::Net;
use crate::node::Node;
use node_reach::Arrows;
use std::alloc::{AllocError, Global};

impl Arrows for Net {
    ghost count = { total };

    ghost targets = { targets_of };

    // A node's users and, of a cell, its slots; a slot's used ranges.
    fn arrows(&self, alloc: Global, node: usize) -> Result<Vec<usize>, AllocError> {
        let count = self.nodes.len();
        if node < count {
            self.from_node(node)
        } else {
            self.from_slot(alloc, node - count)
        }
    }
}

impl Net {
    // The users of a node, and the slots that hold it where it is a cell.
    fn from_node(&self, node: usize) -> Result<Vec<usize>, AllocError>
        requires { node < node_total self.now }
        ensures { IfOk result (λ found. found.items ≡ from_node self.now node) }
    {
        let mut found = self.links.users(node)?;
        self.add_slots(&mut found, self.nodes.key(node))?;
        Ok(found)
    }

    // Adds the slots that hold the node of the key, where it is a cell, as they are numbered behind the nodes.
    fn add_slots(&self, found: &mut Vec<usize>, key: Key) -> Result<(), AllocError>
        ensures { OnOk result (found.new.items ≡ found.old.items ++ slots_behind self.now key) }
    {
        match key {
            Key::Cell(spot) => {
                let slots = self.files.slots_at(spot)?;
                add_behind(found, self.nodes.len(), &slots)
            }
            _ => Ok(()),
        }
    }

    // The used ranges that are filed under a slot.
    pub(crate) fn from_slot(&self, alloc: Global, slot: usize) -> Result<Vec<usize>, AllocError>
        requires { slot < slot_total self.now.files }
        ensures { IfOk result (λ found. found.items ≡ from_slot self.now slot) }
    {
        let mut found = Vec::new(alloc);
        let ranges = self.files.nodes_under(slot)?;
        'filed: for range in &ranges {
            push_if(&mut found, *range, self.is_used(*range))?;
        }
        Ok(found)
    }

    // Where walks from these nodes begin.
    pub(crate) fn starts(&self, nodes: &[Node]) -> Result<Vec<usize>, AllocError>
        ensures { IfOk result (λ starts. starts.items ≡ flat_map (starts_of self.now) nodes.now) }
    {
        let mut starts = Vec::with_capacity(self.alloc, nodes.len())?;
        'nodes: for node in nodes {
            self.add_starts(&mut starts, *node)?;
        }
        Ok(starts)
    }

    // Adds the number of the node, or where it has none the slots that hold it.
    fn add_starts(&self, starts: &mut Vec<usize>, node: Node) -> Result<(), AllocError>
        ensures { OnOk result (starts.new.items ≡ starts.old.items ++ starts_of self.now node) }
    {
        match self.nodes.number(node) {
            Some(number) => {
                starts.push(number)?;
                Ok(())
            }
            None => self.add_slots(starts, Key::of(self.nodes.lines(), node)),
        }
    }
}

// Adds slots as they are numbered behind so many nodes.
pub(crate) fn add_behind(
    found: &mut Vec<usize>,
    count: usize,
    slots: &[usize],
) -> Result<(), AllocError>
    ensures { OnOk result (found.new.items ≡ found.old.items ++ map (λ s. count + s) slots.now) }
{
    'slots: for slot in slots {
        found.push(behind(count, *slot)?)?;
    }
    Ok(())
}

// The number of a slot behind so many nodes. No memory holds more than have numbers.
fn behind(count: usize, slot: usize) -> Result<usize, AllocError>
    ensures { IfOk result (λ number. number ≡ count + slot) }
{
    match count.checked_add(slot) {
        Some(number) => Ok(number),
        None => Err(AllocError),
    }
}

// Adds the number where it is wanted.
fn push_if(found: &mut Vec<usize>, number: usize, is_wanted: bool) -> Result<(), AllocError>
    ensures { OnOk result (found.new.items ≡ (if is_wanted then found.old.items ++ number ∷ [] else found.old.items)) }
{
    if is_wanted {
        found.push(number)?;
    }
    Ok(())
}
