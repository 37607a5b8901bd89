// Tables of runs that never change, so that copies share them.
ghost use Rattle.std.specs.Prelude.{◌≡◌, true};
ghost use Rattle.stable_lines.specs.internal.Tables.{is_table};

use crate::run::Run;
use std::alloc::{AllocError, Global};
use std::rc::Rc;

// A table of runs that never changes.
#[derive(Drop)]
pub(crate) struct Level {
    runs: Rc<Vec<Run>>,
    pub ghost in_order: { is_table 0 runs.value.items ≡ true },
}

impl Level {
    ghost use Rattle.std.specs.Prelude.{IfOk};
    ghost use Rattle.stable_lines.specs.internal.Levels.{runs_of};

    // A level of these runs.
    pub(crate) fn new(alloc: Global, runs: Vec<Run>) -> Result<Level, AllocError>
        requires { is_table 0 runs.items ≡ true }
        ensures { IfOk result (λ level. runs_of level ≡ runs.items) }
    {
        Ok(Level {
            runs: Rc::new(alloc, runs)?,
        })
    }

    // The runs.
    pub(crate) fn runs(&self) -> &[Run]
        ensures runs { result.now ≡ runs_of self.now }
        ensures table { is_table 0 result.now ≡ true }
    {
        &self.runs
    }
}

impl Clone for Level {
    ghost use Rattle.stable_lines.specs.internal.Levels.{runs_of};

    ghost is_clone = { λ level copy. runs_of copy ≡ runs_of level };

    fn clone(&self) -> Result<Level, AllocError> {
        Ok(Level {
            runs: self.runs.clone()?,
        })
    }
}
