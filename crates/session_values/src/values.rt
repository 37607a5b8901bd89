// What is kept of a session's values, as the session changes.
ghost use Rattle.std.specs.Prelude.{◌≡◌, None, OnOk};
ghost use Rattle.cell_addr.specs.Place.{same_place};
ghost use Rattle.session_values.specs.Touched.{AreTouched, IsMarkedIn};

use cell_addr::Place;
use dep_graph::Node;
use kept_values::Values;
use std::alloc::AllocError;

/// What is kept of the values of a session's workbook, if anything is.
#[derive(Drop)]
pub struct SessionValues {
    pub values: Option<Values>,
}

impl SessionValues {
    /// Nothing is kept.
    pub fn nothing() -> SessionValues
        ensures { result.values ≡ None }
    {
        SessionValues { values: None }
    }

    /// Keeps nothing any more: the next refresh links and works out the whole workbook. Takes no memory.
    pub fn forget(&mut self)
        ensures { self.new.values ≡ None }
    {
        self.values = None;
    }

    /// Marks a cell that is going to change, where anything is kept. For want of memory all is as it was. Costs a look-up or
    /// two.
    pub fn touch(&mut self, at: Place) -> Result<(), AllocError>
        ensures touched { AreTouched (same_place at) self.old.values self.new.values }
        ensures marked { OnOk result (IsMarkedIn self.new.values at) }
    {
        match &mut self.values {
            Some(values) => values.mark(Node::Cell(at)),
            None => Ok(()),
        }
    }
}
