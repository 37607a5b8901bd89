// Graphs moved over structural operations.
ghost use Rattle.std.specs.Prelude.{◌≡◌, ◌≢◌, ◌<◌, ℕ, true, Some, IfOk, OnOk, OnErr};
ghost use Rattle.std.specs.List.{AllPairs};
ghost use Rattle.needs_order.specs.Needs.{has};
ghost use Rattle.node_links.specs.Redirect.{few_target, is_among};
ghost use Rattle.place_lines.specs.Moved.{AreMoved};
ghost use Rattle.shift_core.specs.Form.{form_of};
ghost use Rattle.shift_core.specs.Sound.{IsSound};
ghost use Rattle.dep_graph.specs.Graph.{AreSame, links_of};
ghost use Rattle.dep_graph.specs.Shifted.{AreShifted, node_after};
ghost use Rattle.dep_graph.specs.internal.Keys.{is_narrow};
ghost use Rattle.dep_graph.specs.internal.Nets.{Grows, links_in};
ghost use Rattle.dep_graph.specs.internal.Numbers.{count_of, key_place};
ghost use Rattle.dep_graph.specs.internal.ShiftedNumbers.{AreTargets, SetsTarget, after_at, aim_of, is_linked};
ghost use Rattle.dep_graph.specs.internal.Touches.{AreInside, FindsTouched};

use crate::found::add_between;
use crate::graph::Graph;
use crate::key::Key;
use crate::net::Net;
use crate::node::Node;
use crate::serving::Serving;
use indexmap::IndexSet;
use near_hash::NearHash;
use place_lines::PlaceLines;
use shift_core::{Shift, moved_block, moved_place, moved_whole};
use std::alloc::AllocError;
use std::collections::BTreeMap;

// So many filings of lines that come in between those of ranges take about as much memory as a node does.
const BESIDE: usize = 16;

impl Graph {
    /// Moves the nodes over the operation, with their links. A lost node goes with its links. Two ranges that become
    /// one block, or two whole ranges that become one, are one node, with the needs and the users of both. In which
    /// order a node's links stand then isn't told. Where there is no memory, or where the numbers of lines are used up,
    /// after more edits than fit a lifetime, all links stay as they were.
    ///
    /// Costs an edit of the sheet's lines ([`place_lines`]) and a count for each edited sheet, a search for each run of
    /// the lines that the operation loses or displaces, and for each node that it touches, or that isn't inside its
    /// sheet, and each whole range, on whichever sheet, about the number of its links and of its users' links. It
    /// touches what it loses or bends, and what it takes along with moved cells; what it only carries along isn't
    /// looked at. A range that it touches costs the number of its slots besides; but where its corners keep their lines
    /// and a move leaves their number, just the slots of the lines that come in between. A node that is new since the operation before is first kept where
    /// operations find it, which costs the logarithm of the number of nodes, and for a range besides about the logarithm of
    /// the length of each run of its lines. Now and then, where
    /// operations and links that were replaced may have left behind half of the nodes that are kept, or lines that came in
    /// between those of ranges take as much memory, the graph is made anew, which costs what [`Graph::copied`] does.
    pub fn shift(&mut self, s: &Shift) -> Result<(), AllocError>
        requires { IsSound s.now }
        ensures ok { OnOk result (AreShifted s.now (links_of self.old) (links_of self.new)) }
        ensures err { OnErr result (AreSame (links_of self.old) (links_of self.new)) }
    {
        self.net.shift_and_renew(s)
    }
}

// What an operation touches, by numbers.
#[derive(Drop)]
struct Aims {
    // The numbers of the touched nodes, and of what these become.
    found: IndexSet<usize, NearHash>,
    // The targets of those that become others or none.
    few: BTreeMap<usize, Option<usize>>,
}

impl Net {
    // As [`Graph::shift`].
    fn shift_and_renew(&mut self, s: &Shift) -> Result<(), AllocError>
        requires { IsSound s.now }
        ensures ok { OnOk result (AreShifted s.now (links_in self.old) (links_in self.new)) }
        ensures err { OnErr result (AreSame (links_in self.old) (links_in self.new)) }
    {
        self.shift(s)?;
        if self.is_fragmented() {
            self.renew();
        }
        Ok(())
    }

    // Moves the nodes over the operation, with their links.
    fn shift(&mut self, s: &Shift) -> Result<(), AllocError>
        requires { IsSound s.now }
        ensures ok { OnOk result (AreShifted s.now (links_in self.old) (links_in self.new)) }
        ensures err { OnErr result (AreSame (links_in self.old) (links_in self.new)) }
    {
        self.keep_fresh()?;
        let lines = self.nodes.lines.moved(self.alloc, s)?;
        let aims = self.aims(&lines, s)?;
        self.move_by(lines, s, &aims)
    }

    // What the operation touches, and what that becomes, each of which is added where it isn't known.
    fn aims(&mut self, lines: &PlaceLines, s: &Shift) -> Result<Aims, AllocError>
        requires sound { IsSound s.now }
        requires moved { AreMoved (form_of s.now) self.old.nodes.lines lines.now }
        ensures grown { Grows self.old self.new }
        ensures targets { IfOk result (λ aims. AreTargets s.now lines.now self.new (few_target aims.few)) }
        ensures among { IfOk result (λ aims. (n : ℕ) → is_among aims.few n ≡ true → has n aims.found.keys ≡ true) }
        ensures found { IfOk result (λ aims. FindsTouched s.now self.new.nodes aims.found.keys) }
        ensures inside { IfOk result (λ aims. AreInside self.new.nodes aims.found.keys) }
    {
        let count = self.nodes.len();
        let mut found = self.touched(s)?;
        let few = self.targets(lines, s, found.as_slice())?;
        add_between(&mut found, count, self.nodes.len())?;
        Ok(Aims { found, few })
    }

    // Moves the nodes and their links to the lines after the operation.
    fn move_by(&mut self, lines: PlaceLines, s: &Shift, aims: &Aims) -> Result<(), AllocError>
        requires sound { IsSound s.now }
        requires moved { AreMoved (form_of s.now) self.old.nodes.lines lines }
        requires targets { AreTargets s.now lines self.old (few_target aims.now.few) }
        requires among { (n : ℕ) → is_among aims.now.few n ≡ true → has n aims.now.found.keys ≡ true }
        requires found { FindsTouched s.now self.old.nodes aims.now.found.keys }
        requires inside { AreInside self.old.nodes aims.now.found.keys }
        ensures ok { OnOk result (AreShifted s.now (links_in self.old) (links_in self.new)) }
        ensures err { OnErr result (AreSame (links_in self.old) (links_in self.new)) }
    {
        let filed = self.files.filed;
        let found = aims.found.as_slice();
        let filings = self.refiled(&lines, s, &aims.few, found)?;
        self.touches.keep_all(&lines, s, &self.nodes, found)?;
        self.links.redirect_few(&aims.few)?;
        self.nodes.lines = lines;
        self.files.put_few(&filings);
        let refiled = self.files.filed.saturating_sub(filed);
        let beside = count_beside(&filings);
        self.left_behind = self
            .left_behind
            .saturating_add(aims.few.len())
            .saturating_add(refiled.saturating_sub(beside))
            .saturating_add(beside.div_ceil(BESIDE));
        Ok(())
    }

    // The numbers of what the found nodes become, each of which is added where it isn't known, for those that become
    // others or none.
    fn targets(
        &mut self,
        lines: &PlaceLines,
        s: &Shift,
        found: &[usize],
    ) -> Result<BTreeMap<usize, Option<usize>>, AllocError>
        requires sound { IsSound s.now }
        requires moved { AreMoved (form_of s.now) self.old.nodes.lines lines.now }
        requires found { FindsTouched s.now self.old.nodes found.now }
        requires inside { AreInside self.old.nodes found.now }
        requires once { AllPairs (λ a b. a ≢ b) found.now }
        ensures grown { Grows self.old self.new }
        ensures targets { IfOk result (λ few. AreTargets s.now lines.now self.new (few_target few)) }
        ensures among { IfOk result (λ few. (n : ℕ) → is_among few n ≡ true → has n found.now ≡ true) }
    {
        let mut few = BTreeMap::new(self.alloc);
        'numbers: for number in found {
            let target = self.target(lines, s, *number)?;
            set_target(&mut few, *number, target)?;
        }
        Ok(few)
    }

    // The number of what the node of a number becomes; of a node without links its own.
    fn target(
        &mut self,
        lines: &PlaceLines,
        s: &Shift,
        number: usize,
    ) -> Result<Option<usize>, AllocError>
        requires sound { IsSound s.now }
        requires number { number < count_of self.old.nodes }
        ensures grown { Grows self.old self.new }
        ensures aim { IfOk result (λ target. is_linked self.old number ≡ true → target ≡ aim_of s.now lines.now self.new number) }
        ensures inside { IfOk result (λ target. (t : ℕ) → target ≡ Some t → t < count_of self.new.nodes) }
    {
        if !self.is_linked(number) {
            return Ok(Some(number));
        }
        match self.moved(s, number) {
            Some(after) => self.target_of_key(Key::of(lines, after), number),
            None => Ok(None),
        }
    }

    // The number of a key, which is most often this one.
    fn target_of_key(&mut self, key: Key, number: usize) -> Result<Option<usize>, AllocError>
        requires number { number < count_of self.old.nodes }
        requires narrow { is_narrow key ≡ true }
        ensures grown { Grows self.old self.new }
        ensures place { IfOk result (λ target. target ≡ Some (key_place self.new.nodes key)) }
        ensures inside { IfOk result (λ target. key_place self.new.nodes key < count_of self.new.nodes) }
    {
        if self.nodes.key(number) == key {
            return Ok(Some(number));
        }
        Ok(Some(self.know_key(key)?))
    }

    // Whether the node of a number is linked to some, or some to it.
    fn is_linked(&self, number: usize) -> bool
        requires { number < count_of self.now.nodes }
        ensures { result ≡ is_linked self.now number }
    {
        !self.links.needs(number).is_empty() || self.is_used(number)
    }

    // Where the operation moves the node of a number.
    pub(crate) fn moved(&self, s: &Shift, number: usize) -> Option<Node>
        requires { IsSound s.now }
        ensures { result ≡ after_at s.now self.now number }
    {
        moved_node(s, self.nodes.node(number)?)
    }

    // Whether half of the numbers may have been left behind, or what was takes as much memory.
    fn is_fragmented(&self) -> bool {
        self.left_behind > self.nodes.len() / 2
    }

    // Makes the net anew, with the same links; where there is no memory it stays as it is.
    fn renew(&mut self)
        ensures { AreSame (links_in self.old) (links_in self.new) }
    {
        if let Ok(net) = self.copied() {
            *self = net;
        }
    }
}

// How many of the filings stand beside others of their nodes.
fn count_beside(filings: &BTreeMap<usize, Option<Serving>>) -> usize {
    let mut count = 0usize;
    'filings: for (_, filing) in filings {
        if let Some(all) = filing {
            if all.first != all.last {
                count = count.saturating_add(1);
            }
        }
    }
    count
}

// Sets the target of a number that has none yet, unless it is its own.
fn set_target(
    few: &mut BTreeMap<usize, Option<usize>>,
    number: usize,
    target: Option<usize>,
) -> Result<(), AllocError>
    requires { is_among few.old number ≡ true → ⊥ }
    ensures { OnOk result (SetsTarget number target few.old few.new) }
{
    if target != Some(number) {
        few.insert(number, target)?;
    }
    Ok(())
}

// Where the operation moves the node; None where its place or its block is lost.
pub(crate) fn moved_node(s: &Shift, node: Node) -> Option<Node>
    requires { IsSound s.now }
    ensures { result ≡ node_after s.now node }
{
    match node {
        Node::Cell(at) => Some(Node::Cell(moved_place(s, at)?)),
        Node::Name { .. } => Some(node),
        Node::Range(block) => Some(Node::Range(moved_block(s, block)?)),
        Node::Whole(whole) => Some(Node::Whole(moved_whole(s, whole)?)),
    }
}
