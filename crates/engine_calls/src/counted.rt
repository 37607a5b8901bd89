// Evaluations of formulas, counted by a custom function of which each call is counted.
ghost use Rattle.std.specs.Prelude.{◌≡◌, ◌<◌, ◌∷◌, [], codes};
ghost use Rattle.custom_fn.specs.Rule.{rule_value};
ghost use Rattle.engine_calls.specs.Counted as rules;

use super::cells::place;
use super::on_heap::built;
use book_engine::{Engine, Stop};
use calc_eval::Customs;
use cell_addr::same_folded;
use cell_value::{FaultKind, Scalar};
use fix_num::Fixed;
use std::alloc::{AllocError, Global};
use std::cell::Cell;
use std::marker::Brand;
use std::rc::Rc;
use std::sync::ledger::{Blank, Ledger};
use steps::Steps;

// How many formulas call the function.
const FORMULAS: u32 = 1_000;

// How often functions were called.
type Calls = Rc<Cell<u64>>;

// A custom function of which each call is counted.
#[derive(Drop)]
pub(crate) struct Counting {
    calls: Calls,
}

impl Customs for Counting {
    ghost customs = { λ _. (codes "COUNTED", rules.counted) ∷ [] };

    fn has(&self, word: &str) -> bool {
        same_folded("COUNTED", word)
    }

    fn answer(&self, word: &str, value: &Scalar) -> Option<Scalar> {
        if !same_folded("COUNTED", word) {
            return None;
        }
        self.calls.set(self.calls.get().wrapping_add(1));
        Some(counted(value))
    }
}

// A formula is worked out once, and again where what it needs changed. Inserted rows work out none that they don't bend; neither
// does the undo of that, nor another name of the sheet, nor one more sheet that comes and goes. A name works out what uses it, and a
// moved row what it bends. A batch that is undone and done again works out what uses its cells.
pub(crate) fn formulas_are_worked_out_once(alloc: Global) -> Result<bool, Stop> {
    let calls = no_calls(alloc)?;
    let customs = Counting {
        calls: calls.clone()?,
    };
    counts::<Counting, Brand>(alloc, customs, &calls, Blank::new(1))
}

// In a sheet with numbers in the first column, and beside each a formula that calls the function of it.
fn counts<C: Customs, L: Ledger>(
    alloc: Global,
    customs: C,
    calls: &Calls,
    blank: Blank,
) -> Result<bool, Stop>
    requires name { blank.name ≡ L.name }
    requires parts { blank.parts ≡ L.parts }
    requires some { 0 < blank.parts }
{
    let mut steps = Steps::<L>::new(blank);
    let mut engine = built(alloc, 20, customs)?;
    fill(alloc, &mut engine)?;
    counts_changes(&mut engine, calls, &mut steps)
}

// All formulas, then one whose number changes, and none where rows come and go or the sheet is renamed; then the others.
fn counts_changes<C: Customs, L: Ledger>(
    engine: &mut Engine<C>,
    calls: &Calls,
    steps: &mut Steps<L>,
) -> Result<bool, Stop> {
    let all = count_after(engine, 0, calls, steps)?;
    engine.set(place(499, 0), "2")?;
    let one = count_after(engine, 499, calls, steps)?;
    engine.insert_rows(0, 499, 1)?;
    let moved = count_after(engine, 0, calls, steps)?;
    engine.undo()?;
    let back = count_after(engine, 0, calls, steps)?;
    engine.rename_sheet(0, "Other")?;
    let renamed = count_after(engine, 0, calls, steps)?;
    let names = counts_users(engine, calls, steps)?;
    let rows = counts_bent(engine, calls, steps)?;
    let words = counts_sought(engine, calls, steps)?;
    let batches = counts_batch(engine, calls, steps)?;
    let stay = moved == 1_001 && back == 1_001 && renamed == 1_001;
    Ok(all == 1_000 && one == 1_001 && stay && names && rows && words && batches)
}

// Then a name that nothing uses, and one formula that uses it, while it gets another formula, is removed, and comes again.
fn counts_users<C: Customs, L: Ledger>(
    engine: &mut Engine<C>,
    calls: &Calls,
    steps: &mut Steps<L>,
) -> Result<bool, Stop> {
    engine.add_name("Rate", None, "=Other!$A$1")?;
    let unused = count_after(engine, 0, calls, steps)?;
    engine.set(place(0, 2), "=COUNTED(A1)+Rate")?;
    let used = count_after(engine, 0, calls, steps)?;
    engine.change_name("Rate", None, "=Other!$A$2")?;
    let changed = count_after(engine, 0, calls, steps)?;
    engine.remove_name("Rate", None)?;
    let removed = count_after(engine, 0, calls, steps)?;
    engine.add_name("Rate", None, "=Other!$A$3")?;
    let again = count_after(engine, 0, calls, steps)?;
    let in_use = used == 1_002 && changed == 1_003;
    Ok(unused == 1_001 && in_use && removed == 1_004 && again == 1_005)
}

// Then one formula with a sum over rows among which one moves, and goes back.
fn counts_bent<C: Customs, L: Ledger>(
    engine: &mut Engine<C>,
    calls: &Calls,
    steps: &mut Steps<L>,
) -> Result<bool, Stop> {
    engine.set(place(0, 3), "=COUNTED(SUM(A5:A30))")?;
    let summed = count_after(engine, 0, calls, steps)?;
    engine.move_rows(0, 10, 1, 20)?;
    let moved = count_after(engine, 0, calls, steps)?;
    engine.undo()?;
    let back = count_after(engine, 0, calls, steps)?;
    Ok(summed == 1_006 && moved == 1_007 && back == 1_008)
}

// Then two formulas with a word each that finds no name, of which one gets its name.
fn counts_sought<C: Customs, L: Ledger>(
    engine: &mut Engine<C>,
    calls: &Calls,
    steps: &mut Steps<L>,
) -> Result<bool, Stop> {
    engine.set(place(0, 4), "=COUNTED(A1)+Later")?;
    engine.set(place(0, 5), "=COUNTED(A1)+Sooner")?;
    let both = count_after(engine, 0, calls, steps)?;
    engine.add_name("later", None, "=1")?;
    let one = count_after(engine, 0, calls, steps)?;
    Ok(both == 1_010 && one == 1_011)
}

// Then a batch of a cell that one formula uses, rows and a name, which is undone and done again, and a sheet that comes and goes.
fn counts_batch<C: Customs, L: Ledger>(
    engine: &mut Engine<C>,
    calls: &Calls,
    steps: &mut Steps<L>,
) -> Result<bool, Stop> {
    engine.begin()?;
    engine.set(place(399, 0), "3")?;
    engine.insert_rows(0, 600, 1)?;
    engine.add_name("Unused", None, "=2")?;
    engine.commit()?;
    let done = count_after(engine, 0, calls, steps)?;
    engine.undo()?;
    let undone = count_after(engine, 0, calls, steps)?;
    engine.redo()?;
    let again = count_after(engine, 0, calls, steps)?;
    engine.add_sheet("Two")?;
    engine.undo()?;
    let sheets = count_after(engine, 0, calls, steps)?;
    Ok(done == 1_012 && undone == 1_013 && again == 1_014 && sheets == 1_014)
}

// Gives the cells of a new sheet their numbers and formulas.
fn fill<C: Customs>(alloc: Global, engine: &mut Engine<C>) -> Result<(), Stop> {
    engine.add_sheet("Plan")?;
    for row in 0..FORMULAS {
        engine.set(place(row, 0), "1")?;
        let formula = format!(in alloc; "=COUNTED(A{})", u64::from(row) + 1)?;
        engine.set(place(row, 1), formula.as_str())?;
    }
    Ok(())
}

// How often the function was called once the formula of a row was read.
fn count_after<C: Customs, L: Ledger>(
    engine: &mut Engine<C>,
    row: u32,
    calls: &Calls,
    steps: &mut Steps<L>,
) -> Result<u64, Stop> {
    engine.value(place(row, 1), steps)?;
    Ok(calls.get())
}

// No call yet.
fn no_calls(alloc: Global) -> Result<Calls, AllocError> {
    let calls = Rc::new(alloc, Cell::new(0_u64))?;
    Ok(calls)
}

// What the function answers: 1 of a number from 0 on, `#N/A` of one below, and a fault of what is no number.
fn counted(x: &Scalar) -> Scalar
    ensures { result ≡ rule_value rules.counted x.now }
{
    match x.as_number() {
        Ok(number) => {
            if number.is_negative() {
                Scalar::Fault(FaultKind::Na)
            } else {
                Scalar::Number(Fixed::ONE)
            }
        }
        Err(fault) => Scalar::Fault(fault),
    }
}
