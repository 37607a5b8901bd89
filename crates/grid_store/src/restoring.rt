// Edits of lines that are taken back, with the cells that they removed.
ghost use Rattle.std.specs.Prelude.{◌≡◌, OnOk, OnErr};
ghost use Rattle.cell_addr.specs.Axis.{limit_of};
ghost use Rattle.shift_core.specs.Lines.{IsSoundEdit};
ghost use Rattle.shift_core.specs.declared.form.Form.TheVariants.{Lines};
ghost use Rattle.grid_store.specs.Grid.{cells_of, items_of, with_entries};
ghost use Rattle.grid_store.specs.declared.way.Going.TheVariants.{Back};
ghost use Rattle.grid_store.specs.internal.Lists.{AreEachInside};
ghost use Rattle.grid_store.specs.internal.Ways.{carried_map, form_goes};

use crate::draft::Draft;
use crate::duplicate::Duplicate;
use crate::grid::Grid;
use crate::list::CellList;
use crate::way::Going;
use cell_addr::Axis;
use shift_core::Edit;
use std::alloc::AllocError;

impl<V: Duplicate> Grid<V> {
    // Takes an edit of lines back, and puts the removed cells over what stands then: by a draft, where there are any.
    pub(crate) fn restore_lines(
        &mut self,
        sheet: u32,
        axis: Axis,
        edit: Edit,
        removed: CellList<V>,
    ) -> Result<(), AllocError>
        requires sound { IsSoundEdit (limit_of axis) edit }
        requires inside { AreEachInside (items_of removed) }
        ensures restored { OnOk result (cells_of self.new ≡ with_entries (items_of removed) (carried_map (form_goes Back (Lines sheet axis edit)) (cells_of self.old))) }
        ensures err { OnErr result (cells_of self.new ≡ cells_of self.old) }
    {
        if removed.items().is_empty() {
            self.carry_lines(Going::Back, sheet, axis, edit)?;
            return Ok(());
        }
        let mut draft = Draft::new(self)?;
        draft.carry_lines(self, Going::Back, sheet, axis, edit, removed)?;
        draft.finish(self)
    }
}
