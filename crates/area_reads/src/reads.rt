// What the filled cells of a block show, and the texts that give them their contents.
ghost use Rattle.std.specs.Prelude.{◌≡◌, ◌++◌, ◌∷◌, [], None, OnOk};
ghost use Rattle.std.specs.List.{All};
ghost use Rattle.book_model.specs.Operation as op;
ghost use Rattle.book_model.specs.Refusals.{cause};
ghost use Rattle.book_model.specs.Workbook.{State};
ghost use Rattle.book_engine.specs.Turns.{Answered};
ghost use Rattle.book_engine.specs.Engine.{StandsFor};
ghost use Rattle.area_reads.specs.Reads.{AreOneRead, AreQuiet, contents_at, contents_in, values_cause, values_in};

use book_engine::{Engine, Stop};
use calc_eval::Customs;
use cell_addr::{Block, Place, Text};
use cell_value::Scalar;
use std::alloc::{AllocError, Global};
use std::sync::ledger::Ledger;
use steps::Steps;

/// The filled cells of a block with what they show, row by row. What the changes since the last read of a value reach is worked out
/// first. Costs what [`Engine::values`] does: for a cell that holds a formula a look-up, and for any other one that is filled no more
/// than to copy what it holds.
///
/// # Errors
/// `Suspended` where the computation is suspended or a batch is open, `NoSheet`, `Outside` where the block isn't within the limits of
/// a sheet.
pub fn values<C: Customs, L: Ledger>(
    alloc: Global,
    engine: &mut Engine<C>,
    area: Block,
    steps: &mut Steps<L>,
) -> Result<Vec<(Place, Scalar)>, Stop>
    ensures answered { (d : State) → StandsFor C.customs engine.old d → Answered (values_cause area d) (λ list. list.items ≡ values_in area d) result }
    ensures read { AreOneRead C.customs engine.old engine.new steps.old steps.new }
{
    engine.values(alloc, area, steps)
}

/// The filled cells of a block with the texts that give them their contents, row by row. Costs what [`Engine::filled`] does, and for
/// each cell what [`Engine::content`] does.
///
/// # Errors
/// `NoSheet`, `Outside` where the block isn't within the limits of a sheet.
pub fn contents<C: Customs>(
    alloc: Global,
    engine: &mut Engine<C>,
    area: Block,
) -> Result<Vec<(Place, Text)>, Stop>
    ensures answered { (d : State) → StandsFor C.customs engine.old d → Answered (cause (op.copy area) d) (λ list. list.items ≡ contents_in area d) result }
    ensures quiet { AreQuiet C.customs engine.old engine.new }
{
    let places = engine.filled(area)?;
    contents_at(alloc, engine, &places)
}

// The texts that give cells their contents, one after the other, where each may be asked for.
fn contents_at<C: Customs>(
    alloc: Global,
    engine: &mut Engine<C>,
    places: &[Place],
) -> Result<Vec<(Place, Text)>, Stop>
    ensures answered { (d : State) → StandsFor C.customs engine.old d → All (λ p. cause (op.content p) d ≡ None) places.now → Answered None (λ list. list.items ≡ contents_at places.now d) result }
    ensures quiet { AreQuiet C.customs engine.old engine.new }
{
    let mut list = Vec::with_capacity(alloc, places.len())?;
    'places: for at in places {
        let text = engine.content(*at)?;
        put(&mut list, *at, text)?;
    }
    Ok(list)
}

// Puts what was read of a place at the end.
fn put<X: Drop>(list: &mut Vec<(Place, X)>, at: Place, read: X) -> Result<(), AllocError>
    ensures { OnOk result (list.new.items ≡ list.old.items ++ (at, read) ∷ []) }
{
    list.push((at, read))?;
    Ok(())
}
