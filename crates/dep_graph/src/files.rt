// Ranges filed under the slots of their cells.
ghost use Rattle.std.specs.BTreeMap as tree;
ghost use Rattle.std.specs.Prelude.{◌≡◌, ◌↔◌, ◌==◌, ◌<◌, ◌||◌, ◌++◌, ◌∷◌, ℕ, [], true, false, Some, length, if◌then◌else◌, is_ok, IsTrue, IfOk, OnOk};
ghost use Rattle.std.specs.List.{filter_map};
ghost use Rattle.std.specs.Option.{option_map, option_to_list};
ghost use Rattle.std.specs.Ordering.{nat_cmp};
ghost use Rattle.std.specs.declared.ops.Range.{Range};
ghost use Rattle.block_index.specs.Index.{finds};
ghost use Rattle.dep_graph.specs.declared.serving.Serving.{Serving};
ghost use Rattle.dep_graph.specs.internal.Filings.{AreLastServed, filing_of, filing_then, is_given, is_last, is_since, owner_at, serves_at};

use crate::node::Node;
use crate::serving::Serving;
use block_index::BlockIndex;
use cell_addr::{Axis, Block};
use place_lines::PlaceLines;
use std::alloc::{AllocError, Global};
use std::collections::BTreeMap;
use std::ops::Range;

// Ranges under the slots of their cells.
//
// A range is filed under the slots into which the numbers of its lines are cut, and a whole range under those of its lines
// along its axis alone, since it has all lines across, also those that come in later. Its filing has a number of its own, so
// that the range can be filed anew where an operation bends it: the filings that it had before are then nobody's. Where
// lines come in between its own, these get a filing beside the ones that the range has. A filing serves its node only once
// all that belongs to the operation is done, so that one which was left half made for want of memory never does.
pub(crate) struct Files {
    pub(crate) alloc: Global,
    // The filings of ranges under slots.
    pub(crate) index: BlockIndex,
    // Those of whole ranges under the slots of their lines, which stand there as the rows of one column: that of their axis.
    pub(crate) wholes: BlockIndex,
    // For each filing the node that was filed.
    pub(crate) owners: Vec<usize>,
    // For each filing whether it may serve that node.
    pub(crate) serves: Vec<bool>,
    // For each node the first of the filings that serve it: all of its own from this on that may.
    pub(crate) current: Vec<Option<usize>>,
    // How many rectangles were filed.
    pub(crate) filed: usize,
    pub ghost rooms: { length serves.items ≡ length owners.items },
    pub ghost owned: { (n f : ℕ) → filing_of current n ≡ Some f → owner_at owners f ≡ Some n },
    pub ghost served: { (n f : ℕ) → filing_of current n ≡ Some f → serves_at serves f ≡ true },
    pub ghost within: { (sheet row col f : ℕ) → finds index sheet row col f ≡ true → f < length owners.items },
    pub ghost within_wholes: { (sheet row col f : ℕ) → finds wholes sheet row col f ≡ true → f < length owners.items },
}

// Written out, so that whoever drops one calls one function.
impl Drop for Files {
    fn drop(self) {
        let Files {
            alloc: _,
            index: _index,
            wholes: _wholes,
            owners: _owners,
            serves: _serves,
            current: _current,
            filed: _,
        } = self;
    }
}

impl Files {
    ghost use Rattle.place_lines.specs.declared.spot.LineSpot.{LineSpot};
    ghost use Rattle.dep_graph.specs.declared.node.Node.TheVariants as node;
    ghost use Rattle.dep_graph.specs.internal.Files.{AreServing, FilesCells, FilesOn, FilesSpots, IsSpotOf, filed_at, finds_filing, in_area, in_row, in_run, owner_of, slot_total};

    // No range is filed, and there are no nodes.
    pub(crate) fn new(alloc: Global) -> Files
        ensures { result.current.items ≡ [] }
    {
        Files {
            alloc,
            index: BlockIndex::new(alloc),
            wholes: BlockIndex::new(alloc),
            owners: Vec::new(alloc),
            serves: Vec::new(alloc),
            current: Vec::new(alloc),
            filed: 0,
        }
    }

    // The first of the filings that serve a node.
    pub(crate) fn filing(&self, node: usize) -> Option<usize>
        ensures { result ≡ filing_of self.now.current node }
    {
        match self.current.as_slice().get(node) {
            Some(filing) => *filing,
            None => None,
        }
    }

    // The node that the filing serves at present.
    fn owner(&self, filing: usize) -> Option<usize>
        ensures { result ≡ owner_of self.now filing }
    {
        let node = *self.owners.as_slice().get(filing)?;
        if self.may_serve(filing) && is_since(filing, self.filing(node)) {
            Some(node)
        } else {
            None
        }
    }

    // Whether the filing may serve its node.
    fn may_serve(&self, filing: usize) -> bool
        ensures { result ≡ serves_at self.now.serves filing }
    {
        match self.serves.as_slice().get(filing) {
            Some(serves) => *serves,
            None => false,
        }
    }

    // The nodes that are filed under a slot.
    pub(crate) fn nodes_under(&self, slot: usize) -> Result<Vec<usize>, AllocError>
        requires { slot < slot_total self.now }
        ensures { IfOk result (λ nodes. nodes.items ≡ filter_map (owner_of self.now) (filed_at self.now slot)) }
    {
        let mut nodes = Vec::new(self.alloc);
        'filed: for filing in self.filed(slot) {
            push_some(&mut nodes, self.owner(*filing))?;
        }
        Ok(nodes)
    }

    // Files a number under the cells of a range, and answers the filing, which doesn't serve the number's node yet.
    pub(crate) fn file(
        &mut self,
        lines: &PlaceLines,
        range: Node,
        number: usize,
    ) -> Result<usize, AllocError>
        ensures on { FilesOn self.old self.new }
        ensures new { IfOk result (λ f. length self.old.owners.items ≡ f) }
        ensures owner { IfOk result (λ f. owner_at self.new.owners f ≡ Some number) }
        ensures exact { IfOk result (λ f. (spot : LineSpot) → IsTrue (finds_filing self.new spot f) ↔ IsSpotOf lines.now range spot) }
    {
        let filing = self.owners.len();
        push_filing(&mut self.owners, &mut self.serves, number)?;
        self.file_spots(lines, range, filing)?;
        Ok(filing)
    }

    // Files the last filing under the cells of a range; under none for what is no range.
    fn file_spots(
        &mut self,
        lines: &PlaceLines,
        range: Node,
        filing: usize,
    ) -> Result<(), AllocError>
        requires { filing < length self.old.owners.items }
        ensures current { self.new.current ≡ self.old.current }
        ensures owners { self.new.owners ≡ self.old.owners }
        ensures serves { self.new.serves ≡ self.old.serves }
        ensures filed { FilesSpots (IsSpotOf lines.now range) filing self.old self.new }
        ensures found { OnOk result ((spot : LineSpot) → IsSpotOf lines.now range spot → finds_filing self.new spot filing ≡ true) }
    {
        match range {
            Node::Range(block) => self.file_block(lines, block, filing),
            Node::Whole(whole) => self.file_whole(lines, whole, filing),
            Node::Cell(_) => Ok(()),
            Node::Name { .. } => Ok(()),
        }
    }

    // Files the last filing under the cells of a block.
    fn file_block(
        &mut self,
        lines: &PlaceLines,
        block: Block,
        filing: usize,
    ) -> Result<(), AllocError>
        requires { filing < length self.old.owners.items }
        ensures current { self.new.current ≡ self.old.current }
        ensures owners { self.new.owners ≡ self.old.owners }
        ensures serves { self.new.serves ≡ self.old.serves }
        ensures filed { FilesSpots (IsSpotOf lines.now (node.Range block)) filing self.old self.new }
        ensures found { OnOk result ((spot : LineSpot) → IsSpotOf lines.now (node.Range block) spot → finds_filing self.new spot filing ≡ true) }
    {
        let rows = lines.runs(self.alloc, Axis::Rows, block.sheet, block.span(Axis::Rows))?;
        let cols = lines.runs(self.alloc, Axis::Cols, block.sheet, block.span(Axis::Cols))?;
        self.file_all(block.sheet, &rows, &cols, filing)
    }

    // Files the last filing under the cells of these rows and columns.
    fn file_all(
        &mut self,
        sheet: u32,
        rows: &[Range<u64>],
        cols: &[Range<u64>],
        filing: usize,
    ) -> Result<(), AllocError>
        requires { filing < length self.old.owners.items }
        ensures current { self.new.current ≡ self.old.current }
        ensures owners { self.new.owners ≡ self.old.owners }
        ensures serves { self.new.serves ≡ self.old.serves }
        ensures filed { FilesCells (in_area sheet rows.now cols.now) filing self.old self.new }
        ensures found { OnOk result ((spot : LineSpot) → in_area sheet rows.now cols.now spot ≡ true → finds_filing self.new spot filing ≡ true) }
    {
        'rows: for run in rows {
            self.file_row(sheet, run.start..run.end, cols, filing)?;
        }
        Ok(())
    }

    // Files a filing under the cells of a run of rows and these columns.
    fn file_row(
        &mut self,
        sheet: u32,
        rows: Range<u64>,
        cols: &[Range<u64>],
        filing: usize,
    ) -> Result<(), AllocError>
        requires { filing < length self.old.owners.items }
        ensures current { self.new.current ≡ self.old.current }
        ensures owners { self.new.owners ≡ self.old.owners }
        ensures serves { self.new.serves ≡ self.old.serves }
        ensures filed { FilesCells (in_row sheet rows cols.now) filing self.old self.new }
        ensures found { OnOk result ((spot : LineSpot) → in_row sheet rows cols.now spot ≡ true → finds_filing self.new spot filing ≡ true) }
    {
        'cols: for run in cols {
            self.file_cells(sheet, rows.start..rows.end, run.start..run.end, filing)?;
        }
        Ok(())
    }

    // Files a filing under the cells of a run of rows and a run of columns.
    fn file_cells(
        &mut self,
        sheet: u32,
        rows: Range<u64>,
        cols: Range<u64>,
        filing: usize,
    ) -> Result<(), AllocError>
        requires { filing < length self.old.owners.items }
        ensures current { self.new.current ≡ self.old.current }
        ensures owners { self.new.owners ≡ self.old.owners }
        ensures serves { self.new.serves ≡ self.old.serves }
        ensures filed { FilesCells (in_run sheet rows cols) filing self.old self.new }
        ensures found { OnOk result ((spot : LineSpot) → in_run sheet rows cols spot ≡ true → finds_filing self.new spot filing ≡ true) }
    {
        self.filed = self.filed.saturating_add(1);
        self.index.file(sheet, rows, cols, filing)
    }

    // Lets the last filing serve its node, and those before no longer. Takes no memory.
    pub(crate) fn keep(&mut self, node: usize, filing: usize)
        requires node { node < length self.old.current.items }
        requires owner { owner_at self.old.owners filing ≡ Some node }
        ensures count { length self.new.current.items ≡ length self.old.current.items }
        ensures kept { (n : ℕ) → filing_of self.new.current n ≡ (if n == node then Some filing else filing_of self.old.current n) }
        ensures serves { (f : ℕ) → serves_at self.new.serves f ≡ (serves_at self.old.serves f || f == filing) }
        ensures owners { self.new.owners ≡ self.old.owners }
        ensures index { self.new.index ≡ self.old.index }
        ensures wholes { self.new.wholes ≡ self.old.wholes }
    {
        self.current[node] = Some(filing);
        self.serves[filing] = true;
    }

    // The filings of a node where few have others than the present ones, or none.
    pub(crate) fn filing_then(
        &self,
        filings: &BTreeMap<usize, Option<Serving>>,
        node: usize,
    ) -> Option<Serving>
        ensures { result ≡ filing_then filings.now self.now.current node }
    {
        match filings.get(&node) {
            Some(filing) => *filing,
            None => Some(Serving::since(self.filing(node)?)),
        }
    }

    // Lets few nodes be served by these filings. Takes no memory.
    pub(crate) fn put_few(&mut self, filings: &BTreeMap<usize, Option<Serving>>)
        requires inside { (n : ℕ) → is_given filings.now n ≡ true → n < length self.old.current.items }
        requires serving { (n : ℕ) (all : Serving) → filing_then filings.now self.old.current n ≡ Some all → AreServing self.old n all }
        ensures count { length self.new.current.items ≡ length self.old.current.items }
        ensures kept { (n : ℕ) → filing_of self.new.current n ≡ option_map (λ all. all.first) (filing_then filings.now self.old.current n) }
        ensures serves { (n f : ℕ) → owner_at self.old.owners f ≡ Some n → serves_at self.new.serves f ≡ (serves_at self.old.serves f || is_last (filing_then filings.now self.old.current n) f) }
        ensures owners { self.new.owners ≡ self.old.owners }
        ensures index { self.new.index ≡ self.old.index }
        ensures wholes { self.new.wholes ≡ self.old.wholes }
    {
        put_filings(&mut self.current, filings);
        let_serve(&mut self.serves, filings);
    }
}

// Whether the filing isn't before the first, where there is one.
fn is_since(filing: usize, first: Option<usize>) -> bool
    ensures { result ≡ is_since filing first }
{
    match first {
        Some(first) => first <= filing,
        None => false,
    }
}

// Adds a filing of a node, which doesn't serve it yet.
fn push_filing(
    owners: &mut Vec<usize>,
    serves: &mut Vec<bool>,
    node: usize,
) -> Result<(), AllocError>
    ensures owners { owners.new.items ≡ (if is_ok result then owners.old.items ++ node ∷ [] else owners.old.items) }
    ensures serves { serves.new.items ≡ (if is_ok result then serves.old.items ++ false ∷ [] else serves.old.items) }
{
    owners.reserve(1)?;
    serves.reserve(1)?;
    owners.push_reserved(node);
    serves.push_reserved(false);
    Ok(())
}

// Sets the first filings of few nodes.
fn put_filings(current: &mut Vec<Option<usize>>, filings: &BTreeMap<usize, Option<Serving>>)
    requires { (n : ℕ) → is_given filings.now n ≡ true → n < length current.old.items }
    ensures count { length current.new.items ≡ length current.old.items }
    ensures kept { (n : ℕ) → filing_of current.new n ≡ option_map (λ all. all.first) (filing_then filings.now current.old n) }
{
    'filings: for (node, filing) in filings {
        put_filing(current, *node, *filing);
    }
}

// Sets the first filing of a node.
fn put_filing(current: &mut Vec<Option<usize>>, node: usize, filing: Option<Serving>)
    requires { node < length current.old.items }
    ensures count { length current.new.items ≡ length current.old.items }
    ensures kept { (n : ℕ) → filing_of current.new n ≡ (if n == node then option_map (λ all. all.first) filing else filing_of current.old n) }
{
    current[node] = match filing {
        Some(all) => Some(all.first),
        None => None,
    };
}

// Lets the last filings of few nodes serve.
fn let_serve(serves: &mut Vec<bool>, filings: &BTreeMap<usize, Option<Serving>>)
    requires { (n : ℕ) (all : Serving) → tree.get nat_cmp filings.now n ≡ Some (Some all) → all.last < length serves.old.items }
    ensures { AreLastServed filings.now serves.old serves.new }
{
    'filings: for (_, filing) in filings {
        let_last_serve(serves, *filing);
    }
}

// Lets the last of some filings serve.
fn let_last_serve(serves: &mut Vec<bool>, filing: Option<Serving>)
    requires { (all : Serving) → filing ≡ Some all → all.last < length serves.old.items }
    ensures count { length serves.new.items ≡ length serves.old.items }
    ensures serves { (f : ℕ) → serves_at serves.new f ≡ (serves_at serves.old f || is_last filing f) }
{
    if let Some(all) = filing {
        serves[all.last] = true;
    }
}

// Adds the number at the end where there is one.
fn push_some(numbers: &mut Vec<usize>, number: Option<usize>) -> Result<(), AllocError>
    ensures { OnOk result (numbers.new.items ≡ numbers.old.items ++ option_to_list number) }
{
    if let Some(number) = number {
        numbers.push(number)?;
    }
    Ok(())
}
