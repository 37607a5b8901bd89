// The search in depth that finds an order.
ghost use Rattle.std.specs.Prelude.{◌≡◌, ◌≤◌, ◌<◌, ◌++◌, ◌∷◌, [], List, ℕ, true, length, reverse, IfOk, OnOk, slice_index_or, slice_set};
ghost use Rattle.needs_order.specs.Needs.{AreNodes, CyclesAre, InOrder, IsEachOnce, lists_of};
ghost use Rattle.needs_order.specs.internal.Search.{GoesThrough, lowered, mark_at, needs_of, with_each};
ghost use Rattle.needs_order.specs.declared.search.Mark.TheVariants.{Closed};

use crate::Order;
use std::alloc::{AllocError, Global};

// How far the search has come with a node.
#[derive(Clone, Copy)]
enum Mark {
    // Not met yet.
    Unseen,
    // On the path, at this place.
    Open(usize),
    // In the order.
    Closed,
}

// A node of the path whose needs are being gone through.
#[derive(Clone, Copy)]
struct Visit {
    node: usize,
    // Where the node stands on the path.
    place: usize,
    // How many of its needs were gone through.
    next: usize,
    // The lowest place of the path to which needs lead back from the node, or from one that was
    // met behind it; the place after the node's own where they lead back to none.
    low: usize,
}

// How far a search has come.
#[derive(Drop)]
struct Search {
    marks: Vec<Mark>,
    // The nodes that were met and aren't closed, each leading to all after it.
    path: Vec<usize>,
    // The visits under way, in the order of their places.
    visits: Vec<Visit>,
    // The closed nodes.
    order: Vec<usize>,
    // Which closed nodes are on a cycle.
    on_cycle: Vec<bool>,
}

impl Search {
    ghost use Rattle.needs_order.specs.internal.Search.{Closes, GoesOn, IsIdle, IsSound, KeepsMet, Opens};

    // No node was met yet.
    fn new(alloc: Global, needs: &[Vec<usize>]) -> Result<Search, AllocError>
        ensures { IfOk result (λ search. IsIdle (lists_of needs.now) search) }
    {
        Ok(Search {
            marks: vec![in alloc; Mark::Unseen; needs.len()]?,
            path: Vec::new(alloc),
            visits: Vec::new(alloc),
            order: Vec::new(alloc),
            on_cycle: vec![in alloc; false; needs.len()]?,
        })
    }

    // Closes a node and all that its needs lead to, unless it is closed.
    fn close_from(&mut self, needs: &[Vec<usize>], node: usize) -> Result<(), AllocError>
        requires nodes { AreNodes (lists_of needs.now) }
        requires inside { node < length needs.now }
        requires idle { IsIdle (lists_of needs.now) self.old }
        ensures idle { OnOk result (IsIdle (lists_of needs.now) self.new) }
        ensures met { OnOk result (KeepsMet self.old self.new) }
        ensures closed { OnOk result (mark_at self.new.marks.items node ≡ Closed) }
    {
        if let Mark::Unseen = mark_of(&self.marks, node) {
            self.open(node)?;
            'walking: while let Some(visit) = self.visits.pop() {
                self.go_on(needs, visit)?;
            }
        }
        Ok(())
    }

    // Puts a node that wasn't met yet at the end of the path, and begins its visit.
    fn open(&mut self, node: usize) -> Result<(), AllocError>
        ensures { OnOk result (Opens node self.old self.new) }
    {
        let place = self.path.len();
        self.path.push(node)?;
        self.visits.push(Visit {
            node,
            place,
            next: 0,
            low: self.path.len(),
        })?;
        put(&mut self.marks, node, Mark::Open(place));
        Ok(())
    }

    // Goes on with a visit: up to the next need that wasn't met yet, whose own visit begins, or to
    // the end.
    fn go_on(&mut self, needs: &[Vec<usize>], visit: Visit) -> Result<(), AllocError>
        requires nodes { AreNodes (lists_of needs.now) }
        requires sound { IsSound (lists_of needs.now) self.old (visit ∷ reverse self.old.visits.items) }
        ensures { OnOk result (GoesOn (lists_of needs.now) self.old self.new) }
    {
        let list = list_of(needs, visit.node);
        let visit = gone_through(visit, list, &self.marks);
        match list.get(visit.next) {
            Some(need) => {
                self.visits.push(visit)?;
                self.open(*need)
            }
            None => self.finish(visit),
        }
    }

    // Ends a visit whose needs were all gone through. Where needs lead back below its place, its
    // stretch of the path becomes part of the one below; else the nodes of its stretch are closed.
    fn finish(&mut self, visit: Visit) -> Result<(), AllocError>
        requires { visit.place ≤ length self.old.path.items }
        ensures { (lists : List (List ℕ)) → IsSound lists self.old (visit ∷ reverse self.old.visits.items) → length (needs_of lists visit.node) ≤ visit.next → OnOk result (GoesOn lists self.old self.new) }
    {
        if visit.low < visit.place {
            lower_last(&mut self.visits, visit.low);
            return Ok(());
        }
        self.close(visit.place, visit.low == visit.place)
    }

    // Closes the nodes of the path from a place on, all on a cycle or none.
    fn close(&mut self, place: usize, are_on_cycle: bool) -> Result<(), AllocError>
        requires { place ≤ length self.old.path.items }
        ensures { OnOk result (Closes place are_on_cycle self.old self.new) }
    {
        let nodes = &self.path[place..];
        self.order.extend_from_slice(nodes)?;
        put_each(&mut self.marks, nodes, Mark::Closed);
        if are_on_cycle {
            put_each(&mut self.on_cycle, nodes, true);
        }
        self.path.truncate(place);
        Ok(())
    }
}

// How far the search has come with a node.
fn mark_of(marks: &[Mark], node: usize) -> Mark
    ensures { result ≡ mark_at marks.now node }
{
    marks.get(node).copied().unwrap_or(Mark::Unseen)
}

// The nodes that a node needs.
fn list_of(needs: &[Vec<usize>], node: usize) -> &[usize]
    ensures { result.now ≡ needs_of (lists_of needs.now) node }
{
    match needs.get(node) {
        Some(list) => list,
        None => &[],
    }
}

// A visit after going through the needs that were met already, up to the first that wasn't.
fn gone_through(visit: Visit, needs: &[usize], marks: &[Mark]) -> Visit
    ensures { GoesThrough needs.now marks.now visit result }
{
    let mut next = visit.next;
    let mut low = visit.low;
    'needs: while next < needs.len() {
        match mark_of(marks, needs[next]) {
            Mark::Unseen => break,
            Mark::Open(place) => low = low.min(place),
            Mark::Closed => (),
        }
        next += 1;
    }
    Visit { next, low, ..visit }
}

// Lets the last visit lead back to this place too.
fn lower_last(visits: &mut Vec<Visit>, low: usize)
    ensures { (front : List Visit) (last : Visit) → visits.old.items ≡ front ++ last ∷ [] → visits.new.items ≡ front ++ lowered last low ∷ [] }
{
    if let Some(visit) = visits.last_mut() {
        visit.low = visit.low.min(low);
    }
}

// Puts a value at a place, where the list has it.
#[tactic(auto, using(std::proofs::lemmas::List::set_past))]
fn put<T: Copy>(list: &mut [T], place: usize, value: T)
    ensures { list.new ≡ slice_set list.old place value }
{
    if place < list.len() {
        list[place] = value;
    }
}

// Puts a value at each of these places.
fn put_each<T: Copy>(list: &mut [T], places: &[usize], value: T)
    ensures { list.new ≡ with_each list.old places.now value }
{
    'places: for place in places {
        put(list, *place, value);
    }
}

/// An order of the nodes, in which each stands after all that it needs, and which are on a cycle.
///
/// Nodes are the numbers below the count of lists; each list has the nodes that one node needs, as
/// often as it likes. In the order every node stands once; what a node's needs lead to, directly or
/// through others, stands before it, except what leads back to it. A node is on a cycle where its
/// needs lead back to it, as where it needs itself. Time and memory are linear in the number of
/// nodes and needs, and no recursion is used. Errs for want of memory.
pub fn order(alloc: Global, needs: &[Vec<usize>]) -> Result<Order, AllocError>
    requires { AreNodes (lists_of needs.now) }
    ensures counts { IfOk result (λ order. length order.on_cycle.items ≡ length needs.now) }
    ensures each_once { IfOk result (λ order. IsEachOnce (length needs.now) order.nodes.items) }
    ensures cycles { IfOk result (λ order. CyclesAre (lists_of needs.now) order.on_cycle.items) }
    ensures in_order { IfOk result (λ order. InOrder (lists_of needs.now) order.nodes.items) }
{
    let mut search = Search::new(alloc, needs)?;
    'nodes: for node in 0..needs.len() {
        search.close_from(needs, node)?;
    }
    Ok(Order {
        nodes: search.order,
        on_cycle: search.on_cycle,
    })
}
