// The tables of a sheet's lines, each a near one over farther ones: from positions to lines, and back.
ghost use Rattle.std.specs.Prelude.{◌≡◌, ◌<◌, ◌+◌, ◌∷◌, is_some, IfSome, option_and_then};

use crate::far::{Far, back_through, led, part_from, through};
use crate::level::Level;
use crate::run::{Run, image, run_with};
use std::alloc::{AllocError, Global};
use std::marker::Model;

// From positions to lines: the near level leads to positions of the farther ones, and to lines that are newer than they.
#[derive(Drop)]
pub(crate) struct LineLevels {
    near: Level,
    far: Far,
}

impl Model for LineLevels {
    ghost use Rattle.stable_lines.specs.Runs.{Leveled};

    ghost Value = { Leveled };

    ghost use Rattle.stable_lines.specs.internal.Levels.{all_runs, joined, runs_of};

    ghost view = { λ l. record { items = joined (runs_of l.near) (all_runs l.far.value.items); near = runs_of l.near; far = all_runs l.far.value.items } };
}

impl LineLevels {
    ghost use Rattle.stable_lines.specs.Runs.{image};
    ghost use Rattle.stable_lines.specs.internal.Levels.{IsLed, IsRead, all_runs, runs_of, through};

    // A near level over farther ones.
    pub(crate) fn new(near: Level, far: Far) -> LineLevels
        ensures near { result.near ≡ runs_of near }
        ensures far { result.far ≡ all_runs far.value.items }
        ensures read { IsRead result }
    {
        LineLevels { near, far }
    }

    // The runs of the near level.
    pub(crate) fn near(&self) -> &[Run]
        ensures { result.now ≡ self.now.near }
    {
        self.near.runs()
    }

    // The farther levels.
    pub(crate) fn far(&self) -> &Far
        ensures { all_runs result.now.value.items ≡ self.now.far }
    {
        &self.far
    }

    // The line at a position.
    pub(crate) fn line(&self, position: u64) -> Option<u64>
        ensures { result ≡ option_and_then (through self.now.far) (image self.now.near position) }
    {
        through(&self.far, image(self.near.runs(), position)?)
    }

    // The lines that a run of positions leads to, as far as they follow one another; None where the first has none.
    pub(crate) fn led(&self, run: Run) -> Option<Run>
        requires some { 0 < run.count }
        requires sum { run.to + run.count < 18446744073709551616 }
        ensures some { is_some result ≡ is_some (through (self.now.near ∷ self.now.far) run.to) }
        ensures led { IfSome result (IsLed (self.now.near ∷ self.now.far) run) }
        ensures sum { IfSome result (λ led. led.to + led.count < 18446744073709551616) }
    {
        let next = run_with(self.near.runs(), run.to)?;
        led(&self.far, part_from(next, run))
    }
}

impl Clone for LineLevels {
    ghost use Rattle.stable_lines.specs.internal.Levels.{AreSameLevels};

    ghost is_clone = { AreSameLevels };

    fn clone(&self) -> Result<LineLevels, AllocError> {
        Ok(LineLevels {
            near: self.near.clone()?,
            far: self.far.clone()?,
        })
    }
}

// From lines to positions: the farther levels lead to positions that the near one leads on from.
#[derive(Drop)]
pub(crate) struct PositionLevels {
    near: Level,
    far: Far,
}

impl Model for PositionLevels {
    ghost use Rattle.stable_lines.specs.Runs.{Leveled};

    ghost Value = { Leveled };

    ghost use Rattle.stable_lines.specs.internal.Levels.{all_runs, joined_back, runs_of};

    ghost view = { λ l. record { items = joined_back (runs_of l.near) (all_runs l.far.value.items); near = runs_of l.near; far = all_runs l.far.value.items } };
}

impl PositionLevels {
    ghost use Rattle.stable_lines.specs.Runs.{image};
    ghost use Rattle.stable_lines.specs.internal.Levels.{IsReadBack, all_runs, back_through, runs_of};

    // A near level over farther ones.
    pub(crate) fn new(near: Level, far: Far) -> PositionLevels
        ensures near { result.near ≡ runs_of near }
        ensures far { result.far ≡ all_runs far.value.items }
        ensures read { IsReadBack result }
    {
        PositionLevels { near, far }
    }

    // The runs of the near level.
    pub(crate) fn near(&self) -> &[Run]
        ensures { result.now ≡ self.now.near }
    {
        self.near.runs()
    }

    // The farther levels.
    pub(crate) fn far(&self) -> &Far
        ensures { all_runs result.now.value.items ≡ self.now.far }
    {
        &self.far
    }

    // The position of a line.
    pub(crate) fn position(&self, line: u64) -> Option<u64>
        ensures { result ≡ option_and_then (image self.now.near) (back_through self.now.far line) }
    {
        image(self.near.runs(), back_through(&self.far, line)?)
    }
}

impl Clone for PositionLevels {
    ghost use Rattle.stable_lines.specs.internal.Levels.{AreSameLevels};

    ghost is_clone = { AreSameLevels };

    fn clone(&self) -> Result<PositionLevels, AllocError> {
        Ok(PositionLevels {
            near: self.near.clone()?,
            far: self.far.clone()?,
        })
    }
}
