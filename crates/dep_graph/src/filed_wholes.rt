// Whole ranges filed under the slots of their lines.
ghost use Rattle.std.specs.Prelude.{◌≡◌, ◌<◌, ℕ, true, length, OnOk};
ghost use Rattle.place_lines.specs.declared.spot.LineSpot.{LineSpot};
ghost use Rattle.dep_graph.specs.declared.node.Node.TheVariants as node;
ghost use Rattle.dep_graph.specs.internal.Files.{FilesCells, FilesSpots, IsSpotOf, finds_filing};
ghost use Rattle.dep_graph.specs.internal.Wholes.{on_run, on_runs};

use crate::files::Files;
use crate::slots::column_of;
use cell_addr::{Axis, Whole};
use place_lines::PlaceLines;
use std::alloc::AllocError;
use std::ops::Range;

impl Files {
    // Files the last filing under the lines of a whole range.
    pub(crate) fn file_whole(
        &mut self,
        lines: &PlaceLines,
        whole: Whole,
        filing: usize,
    ) -> Result<(), AllocError>
        requires { filing < length self.old.owners.items }
        ensures current { self.new.current ≡ self.old.current }
        ensures owners { self.new.owners ≡ self.old.owners }
        ensures serves { self.new.serves ≡ self.old.serves }
        ensures filed { FilesSpots (IsSpotOf lines.now (node.Whole whole)) filing self.old self.new }
        ensures found { OnOk result ((spot : LineSpot) → IsSpotOf lines.now (node.Whole whole) spot → finds_filing self.new spot filing ≡ true) }
    {
        let runs = lines.runs(self.alloc, whole.axis, whole.sheet, whole.span())?;
        self.file_runs(whole.sheet, whole.axis, &runs, filing)
    }

    // Files the last filing under these lines of a sheet along an axis.
    fn file_runs(
        &mut self,
        sheet: u32,
        axis: Axis,
        runs: &[Range<u64>],
        filing: usize,
    ) -> Result<(), AllocError>
        requires { filing < length self.old.owners.items }
        ensures current { self.new.current ≡ self.old.current }
        ensures owners { self.new.owners ≡ self.old.owners }
        ensures serves { self.new.serves ≡ self.old.serves }
        ensures filed { FilesCells (on_runs sheet axis runs.now) filing self.old self.new }
        ensures found { OnOk result ((spot : LineSpot) → on_runs sheet axis runs.now spot ≡ true → finds_filing self.new spot filing ≡ true) }
    {
        'runs: for run in runs {
            self.file_run(sheet, axis, run.start..run.end, filing)?;
        }
        Ok(())
    }

    // Files a filing under a run of lines of a sheet along an axis.
    fn file_run(
        &mut self,
        sheet: u32,
        axis: Axis,
        run: Range<u64>,
        filing: usize,
    ) -> Result<(), AllocError>
        requires { filing < length self.old.owners.items }
        ensures current { self.new.current ≡ self.old.current }
        ensures owners { self.new.owners ≡ self.old.owners }
        ensures serves { self.new.serves ≡ self.old.serves }
        ensures filed { FilesCells (on_run sheet axis run) filing self.old self.new }
        ensures found { OnOk result ((spot : LineSpot) → on_run sheet axis run spot ≡ true → finds_filing self.new spot filing ≡ true) }
    {
        let column = column_of(axis);
        self.filed = self.filed.saturating_add(1);
        self.wholes.file(sheet, run, column..column + 1, filing)
    }
}
