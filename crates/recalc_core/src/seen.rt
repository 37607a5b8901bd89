// What the formula that is worked out sees.
ghost use Rattle.std.specs.Prelude.{◌≡◌, ◌+◌, ◌≤◌, IfOk, map, true};
ghost use Rattle.std.specs.Option.{option_map};
ghost use Rattle.cell_value.specs.declared.scalar.Scalar.TheVariants as scalar;
ghost use Rattle.calc_eval.specs.Filled.{seen_cells};
ghost use Rattle.range_table.specs.Cells.{nonempty, seen_values};
ghost use Rattle.range_table.specs.Ranges.{table_of};
ghost use Rattle.range_table.specs.Table.{AreFolds};
ghost use Rattle.recalc_core.specs.internal.KeptValues.{kept_by};
ghost use Rattle.recalc_core.specs.internal.Seen.{shown_at, shown_of, world_in};

use crate::kept::KeptValues;
use crate::names::ReadName;
use calc_eval::{NameView, View, filled_area};
use cell_addr::{Block, Place, same_folded};
use cell_value::{Area, Scalar, Summary};
use dep_graph::Node;
use range_table::{ListedCells, Ranges, add_nonempty};
use std::alloc::{AllocError, Global};
use std::sync::ledger::Ledger;
use steps::Steps;

// What places and names show by the values that are kept.
#[derive(Drop)]
pub(crate) struct Shown<'a> {
    alloc: Global,
    kept: &'a KeptValues,
    empty: Scalar,

    // What is shown where no value is kept.
    ghost is_empty: { empty ≡ scalar.Empty },
}

impl<'a> Shown<'a> {
    // By these values.
    fn by(alloc: Global, kept: &'a KeptValues) -> Shown<'a>
        ensures { result.kept.now ≡ kept.now }
    {
        Shown {
            alloc,
            kept,
            empty: Scalar::Empty,
        }
    }

    // What the node shows.
    fn of(&self, a: Node) -> &Scalar
        ensures { result.now ≡ shown_of (kept_by self.now.kept.now) a }
    {
        match self.kept.get(a) {
            Some(value) => value,
            None => &self.empty,
        }
    }
}

impl ListedCells for Shown<'_> {
    ghost values = { λ s. shown_at (kept_by s.kept.now) };

    fn value(&self, at: Place) -> &Scalar {
        self.of(Node::Cell(at))
    }

    fn listed(&self, b: Block) -> Result<Vec<&Scalar>, AllocError> {
        let kept = self.kept.listed(b)?;
        nonempty(self.alloc, &kept)
    }

    fn filled(&self) -> u64 {
        self.kept.cells.filled()
    }
}

// The values that aren't empty.
fn nonempty<'a>(alloc: Global, cells: &[(Place, &'a Scalar)]) -> Result<Vec<&'a Scalar>, AllocError>
    ensures { IfOk result (λ list. seen_values list.items ≡ nonempty (map (λ cell. cell.1) (seen_cells cells.now))) }
{
    let mut list = Vec::new(alloc);
    'cells: for cell in cells {
        add_nonempty(cell.1, &mut list)?;
    }
    Ok(list)
}

// What a formula sees: kept values, the names that it reads, kept summaries, and the day.
#[derive(Drop)]
pub(crate) struct FormulaSight<'a> {
    shown: Shown<'a>,
    names: &'a [ReadName],
    ranges: Ranges,
    day: i32,

    // Each summary is that of its block's cells.
    ghost right: { AreFolds (shown_at (kept_by shown.kept.now)) (table_of ranges).kept },
}

impl<'a> FormulaSight<'a> {
    // By these values, where each summary is that of its block's cells.
    pub(crate) fn new(
        alloc: Global,
        kept: &'a KeptValues,
        names: &'a [ReadName],
        ranges: Ranges,
        day: i32,
    ) -> FormulaSight<'a>
        requires { AreFolds (shown_at (kept_by kept.now)) (table_of ranges).kept }
        ensures kept { result.shown.kept.now ≡ kept.now }
        ensures names { result.names.now ≡ names.now }
        ensures day { result.day ≡ day }
    {
        FormulaSight {
            shown: Shown::by(alloc, kept),
            names,
            ranges,
            day,
        }
    }

    // The summaries, with those that were added.
    pub(crate) fn into_ranges(self) -> Ranges
        ensures { AreFolds (shown_at (kept_by self.entry.shown.kept.now)) (table_of result).kept }
    {
        self.ranges
    }
}

impl View for FormulaSight<'_> {
    ghost world = { λ seen. world_in (kept_by seen.shown.kept.now) seen.names.now seen.day };

    fn scalar(&self, at: Place) -> &Scalar {
        self.shown.of(Node::Cell(at))
    }

    fn area(&self, alloc: Global, block: Block) -> Result<Area, AllocError> {
        let filled = self.shown.kept.listed(block)?;
        filled_area(alloc, block, &filled)
    }

    #[tactic(auto, unfolding(calc_terms::specs::Cells::cells_in))]
    fn summary<L: Ledger>(
        &mut self,
        _alloc: Global,
        block: Block,
        steps: &mut Steps<L>,
    ) -> Result<Summary, AllocError> {
        self.ranges.summary(block, &self.shown, steps)
    }

    fn name(&self, word: &str, _sheet: u32) -> Option<NameView> {
        'names: for name in self.names {
            if same_folded(name.word.as_str(), word) {
                return Some(NameView {
                    value: self.shown.of(name.node),
                    tree: &name.tree,
                    home: name.home,
                });
            }
        }
        None
    }

    fn day(&self) -> i32 {
        self.day
    }
}
