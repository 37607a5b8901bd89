// How ranges are filed after a structural operation.
ghost use Rattle.std.specs.BTreeMap as tree;
ghost use Rattle.std.specs.Prelude.{◌≡◌, ◌↔◌, ◌==◌, ◌<◌, ℕ, true, false, Some, None, length, slice_get, if◌then◌else◌, option_and_then, IsSome, IsTrue, IfOk, OnOk};
ghost use Rattle.std.specs.Ordering.{nat_cmp};
ghost use Rattle.needs_order.specs.Needs.{has};
ghost use Rattle.node_links.specs.Redirect.{few_target, is_among};
ghost use Rattle.place_lines.specs.Moved.{AreMoved};
ghost use Rattle.place_lines.specs.declared.spot.LineSpot.{LineSpot};
ghost use Rattle.shift_core.specs.Form.{form_of};
ghost use Rattle.shift_core.specs.Sound.{IsSound};
ghost use Rattle.dep_graph.specs.Shifted.{node_after};
ghost use Rattle.dep_graph.specs.declared.node.Node.TheVariants as node;
ghost use Rattle.dep_graph.specs.internal.Files.{AreServing, FilesOn, FindsBy, HoldsNode, IsSpotOf, finds_filing};
ghost use Rattle.dep_graph.specs.internal.Filings.{filing_of, filing_then, is_given, owner_at};
ghost use Rattle.dep_graph.specs.internal.Keys.{key_of};
ghost use Rattle.dep_graph.specs.internal.Numbers.{count_of, found_at, is_range};
ghost use Rattle.dep_graph.specs.internal.ShiftedNumbers.{AreAllRefiled, AreFilingsUnder, AreTargets, AreUnfiled, IsRefiled, StillFiled, after_at, range_in};
ghost use Rattle.dep_graph.specs.internal.Touches.{AreInside, FindsTouched, IsHandedNode, fresh_node};

use crate::net::Net;
use crate::node::Node;
use crate::serving::Serving;
use crate::shifted::moved_node;
use crate::touches::handed_on;
use crate::whole::{fresh_whole, hands_on_whole};
use cell_addr::Whole;
use node_links::few_target;
use place_lines::PlaceLines;
use shift_core::Shift;
use std::alloc::{AllocError, Global};
use std::collections::BTreeMap;
use touch_index::fresh_part;

impl Net {
    // The filings after the operation of the found nodes and of what they become: each used range is filed where it goes.
    // All others keep theirs.
    pub(crate) fn refiled(
        &mut self,
        lines: &PlaceLines,
        s: &Shift,
        few: &BTreeMap<usize, Option<usize>>,
        found: &[usize],
    ) -> Result<BTreeMap<usize, Option<Serving>>, AllocError>
        requires sound { IsSound s.now }
        requires moved { AreMoved (form_of s.now) self.old.nodes.lines lines.now }
        requires targets { AreTargets s.now lines.now self.old (few_target few.now) }
        requires among { (n : ℕ) → is_among few.now n ≡ true → has n found.now ≡ true }
        requires found { FindsTouched s.now self.old.nodes found.now }
        requires inside { AreInside self.old.nodes found.now }
        ensures nodes { self.new.nodes ≡ self.old.nodes }
        ensures links { self.new.links ≡ self.old.links }
        ensures files { FilesOn self.old.files self.new.files }
        ensures inside { IfOk result (λ filings. (n : ℕ) → is_given filings n ≡ true → n < count_of self.new.nodes) }
        ensures filings { IfOk result (λ filings. AreFilingsUnder lines.now self.new (filing_then filings self.new.files.current)) }
        ensures refiled { IfOk result (λ filings. AreAllRefiled s.now self.new (few_target few.now) (filing_then filings self.new.files.current)) }
    {
        let mut filings = unfiled(self.alloc, found)?;
        'numbers: for number in found {
            self.refile(&mut filings, lines, s, few, *number)?;
        }
        Ok(filings)
    }

    // Files what the node of a number becomes, where that is a used range, unless it is filed.
    fn refile(
        &mut self,
        filings: &mut BTreeMap<usize, Option<Serving>>,
        lines: &PlaceLines,
        s: &Shift,
        few: &BTreeMap<usize, Option<usize>>,
        number: usize,
    ) -> Result<(), AllocError>
        requires sound { IsSound s.now }
        requires number { number < count_of self.old.nodes }
        requires moved { AreMoved (form_of s.now) self.old.nodes.lines lines.now }
        requires targets { AreTargets s.now lines.now self.old (few_target few.now) }
        requires inside { (n : ℕ) → is_given filings.old n ≡ true → n < count_of self.old.nodes }
        requires filings { AreFilingsUnder lines.now self.old (filing_then filings.old self.old.files.current) }
        ensures nodes { self.new.nodes ≡ self.old.nodes }
        ensures links { self.new.links ≡ self.old.links }
        ensures files { FilesOn self.old.files self.new.files }
        ensures inside { OnOk result ((n : ℕ) → is_given filings.new n ≡ true → n < count_of self.old.nodes) }
        ensures filings { OnOk result (AreFilingsUnder lines.now self.new (filing_then filings.new self.new.files.current)) }
        ensures still { OnOk result (StillFiled (filing_then filings.old self.old.files.current) (filing_then filings.new self.new.files.current)) }
        ensures refiled { OnOk result (IsRefiled s.now self.old (few_target few.now) number (filing_then filings.new self.new.files.current)) }
    {
        if !self.is_used(number) {
            return Ok(());
        }
        match few_target(few, number) {
            Some(target) => {
                let before = self.nodes.node(number);
                match moved_range(s, before) {
                    Some(after) => {
                        self.refile_range(filings, lines, s, number, target, before, after)
                    }
                    None => Ok(()),
                }
            }
            None => Ok(()),
        }
    }

    // Files the range that the node of a number becomes, under its number then, unless it is filed.
    fn refile_range(
        &mut self,
        filings: &mut BTreeMap<usize, Option<Serving>>,
        lines: &PlaceLines,
        s: &Shift,
        number: usize,
        target: usize,
        before: Option<Node>,
        after: Node,
    ) -> Result<(), AllocError>
        requires sound { IsSound s.now }
        requires moved { AreMoved (form_of s.now) self.old.nodes.lines lines.now }
        requires before { before ≡ found_at self.old.nodes number }
        requires after { after_at s.now self.old number ≡ Some after }
        requires range { is_range (Some after) ≡ true }
        requires target { slice_get self.old.nodes.keys.keys target ≡ Some (key_of lines.now after) }
        requires low { target < count_of self.old.nodes }
        requires inside { (n : ℕ) → is_given filings.old n ≡ true → n < count_of self.old.nodes }
        requires filings { AreFilingsUnder lines.now self.old (filing_then filings.old self.old.files.current) }
        ensures nodes { self.new.nodes ≡ self.old.nodes }
        ensures links { self.new.links ≡ self.old.links }
        ensures files { FilesOn self.old.files self.new.files }
        ensures inside { OnOk result ((n : ℕ) → is_given filings.new n ≡ true → n < count_of self.old.nodes) }
        ensures filings { OnOk result (AreFilingsUnder lines.now self.new (filing_then filings.new self.new.files.current)) }
        ensures still { OnOk result (StillFiled (filing_then filings.old self.old.files.current) (filing_then filings.new self.new.files.current)) }
        ensures filed { OnOk result (IsSome (filing_then filings.new self.new.files.current target)) }
    {
        if self.files.filing_then(filings, target).is_some() {
            return Ok(());
        }
        let all = self.filings_after(lines, s, number, target, before, after)?;
        put_filings(filings, target, Some(all))
    }

    // The filings of the range that a range becomes: where it keeps its number and its corners the present ones, and one
    // more for the lines that come in between.
    fn filings_after(
        &mut self,
        lines: &PlaceLines,
        s: &Shift,
        number: usize,
        target: usize,
        before: Option<Node>,
        after: Node,
    ) -> Result<Serving, AllocError>
        requires sound { IsSound s.now }
        requires moved { AreMoved (form_of s.now) self.old.nodes.lines lines.now }
        requires before { before ≡ found_at self.old.nodes number }
        requires range { is_range (Some after) ≡ true }
        requires target { slice_get self.old.nodes.keys.keys target ≡ Some (key_of lines.now after) }
        ensures nodes { self.new.nodes ≡ self.old.nodes }
        ensures links { self.new.links ≡ self.old.links }
        ensures files { FilesOn self.old.files self.new.files }
        ensures serving { IfOk result (λ all. AreServing self.new.files target all) }
        ensures holds { IfOk result (λ all. HoldsNode lines.now (FindsBy self.new.files target all) after) }
    {
        if target == number && is_handed_on(s, before, after) {
            if let Some(first) = self.files.filing(number) {
                return self.file_fresh(lines, s, number, first, after);
            }
        }
        let filing = self.file_part(lines, after, target)?;
        Ok(Serving::since(filing))
    }

    // The present filings of a range that is handed on, and one more for the lines that come in between its own.
    fn file_fresh(
        &mut self,
        lines: &PlaceLines,
        s: &Shift,
        number: usize,
        first: usize,
        after: Node,
    ) -> Result<Serving, AllocError>
        requires sound { IsSound s.now }
        requires moved { AreMoved (form_of s.now) self.old.nodes.lines lines.now }
        requires key { slice_get self.old.nodes.keys.keys number ≡ Some (key_of lines.now after) }
        requires handed { IsHandedNode (form_of s.now) (found_at self.old.nodes number) after }
        requires first { filing_of self.old.files.current number ≡ Some first }
        ensures nodes { self.new.nodes ≡ self.old.nodes }
        ensures links { self.new.links ≡ self.old.links }
        ensures files { FilesOn self.old.files self.new.files }
        ensures serving { IfOk result (λ all. AreServing self.new.files number all) }
        ensures holds { IfOk result (λ all. HoldsNode lines.now (FindsBy self.new.files number all) after) }
    {
        match fresh_node(s, after) {
            Some(part) => {
                let last = self.file_part(lines, part, number)?;
                Ok(Serving { first, last })
            }
            None => Ok(Serving::since(first)),
        }
    }

    // Files a number under the cells of a range, and answers the filing, which doesn't serve the number's node yet.
    fn file_part(
        &mut self,
        lines: &PlaceLines,
        part: Node,
        number: usize,
    ) -> Result<usize, AllocError>
        ensures nodes { self.new.nodes ≡ self.old.nodes }
        ensures links { self.new.links ≡ self.old.links }
        ensures files { FilesOn self.old.files self.new.files }
        ensures new { IfOk result (λ f. length self.old.files.owners.items ≡ f) }
        ensures owner { IfOk result (λ f. owner_at self.new.files.owners f ≡ Some number) }
        ensures exact { IfOk result (λ f. (spot : LineSpot) → IsTrue (finds_filing self.new.files spot f) ↔ IsSpotOf lines.now part spot) }
    {
        self.files.file(lines, part, number)
    }
}

// The range that the operation makes of a node; none where it makes none.
fn moved_range(s: &Shift, before: Option<Node>) -> Option<Node>
    requires { IsSound s.now }
    ensures { result ≡ range_in (option_and_then (node_after s.now) before) }
{
    match moved_node(s, before?)? {
        Node::Range(block) => Some(Node::Range(block)),
        Node::Whole(whole) => Some(Node::Whole(whole)),
        Node::Cell(_) => None,
        Node::Name { .. } => None,
    }
}

// Whether the first node is a range which leaves its lines to the second one, if that has its corners.
fn is_handed_on(s: &Shift, before: Option<Node>, after: Node) -> bool
    ensures { IsTrue result → IsHandedNode (form_of s.now) before after }
{
    match after {
        Node::Range(_) => handed_on(s, before, after).is_some(),
        Node::Whole(whole) => is_handed_whole(s, before, whole),
        Node::Cell(_) => false,
        Node::Name { .. } => false,
    }
}

// The same of a whole range.
fn is_handed_whole(s: &Shift, before: Option<Node>, after: Whole) -> bool
    ensures { IsTrue result → IsHandedNode (form_of s.now) before (node.Whole after) }
{
    match before {
        Some(Node::Whole(whole)) => hands_on_whole(s, whole, after),
        _ => false,
    }
}

// The part of a range on lines that an insert puts between others, where the range is what the operation makes of one.
fn fresh_node(s: &Shift, after: Node) -> Option<Node>
    ensures { result ≡ fresh_node (form_of s.now) after }
{
    match after {
        Node::Range(block) => Some(Node::Range(fresh_part(s, block)?)),
        Node::Whole(whole) => Some(Node::Whole(fresh_whole(s, whole)?)),
        Node::Cell(_) => None,
        Node::Name { .. } => None,
    }
}

// The numbers, each without a filing.
fn unfiled(alloc: Global, numbers: &[usize]) -> Result<BTreeMap<usize, Option<Serving>>, AllocError>
    ensures { IfOk result (AreUnfiled numbers.now) }
{
    let mut filings = BTreeMap::new(alloc);
    'numbers: for number in numbers {
        put_filings(&mut filings, *number, None)?;
    }
    Ok(filings)
}

// Sets the filings of a number.
fn put_filings(
    filings: &mut BTreeMap<usize, Option<Serving>>,
    number: usize,
    all: Option<Serving>,
) -> Result<(), AllocError>
    ensures { OnOk result ((n : ℕ) → tree.get nat_cmp filings.new n ≡ (if n == number then Some all else tree.get nat_cmp filings.old n)) }
{
    filings.insert(number, all)?;
    Ok(())
}
