// The functions that choose one of their arguments.
ghost use Rattle.std.specs.Prelude.{◌≡◌};
ghost use Rattle.func_logic.specs.Logic.{is_na};
ghost use Rattle.calc_terms.specs.Choices.{Decides, IsAmong};
ghost use Rattle.calc_terms.specs.internal.Chosen.{by_position, choose_choice, chosen, if_choice, unless_choice};

use crate::function::ChoiceFn;
use cell_value::{FaultKind, Scalar};
use fix_num::ONE;

/// What a function that chooses does, once it knows its first argument.
#[derive(Drop, Debug)]
pub enum Choice {
    /// Its value is this.
    Value(Scalar),
    /// Its value is that of the argument at this place, counted from 0.
    At(usize),
}

impl ChoiceFn {
    /// What the function chooses among so many arguments, of which the first has this value: its own value, or
    /// one of the others.
    pub fn choose(self, first: Scalar, count: usize) -> Choice
        ensures decides { Decides self first count result }
        ensures among { IsAmong count result }
    {
        chosen(self, first, count)
    }
}

// What the function chooses, by its number of arguments and its first one.
fn chosen(f: ChoiceFn, first: Scalar, count: usize) -> Choice
    ensures { result ≡ chosen f first count }
{
    match f {
        ChoiceFn::If => if_choice(&first, count),
        ChoiceFn::IfError => {
            let fails = matches!(first, Scalar::Fault(_));
            unless_choice(fails, first, count)
        }
        ChoiceFn::IfNa => {
            let fails = is_na(&first);
            unless_choice(fails, first, count)
        }
        ChoiceFn::Choose => choose_choice(&first, count),
    }
}

// IF: the second where the first is TRUE, else the third, or FALSE where there is none.
fn if_choice(test: &Scalar, count: usize) -> Choice
    ensures { result ≡ if_choice test.now count }
{
    if count != 2 && count != 3 {
        return Choice::Value(Scalar::Fault(FaultKind::Na));
    }
    match test.as_truth() {
        Ok(true) => Choice::At(1),
        Ok(false) if count == 2 => Choice::Value(Scalar::Truth(false)),
        Ok(false) => Choice::At(2),
        Err(fault) => Choice::Value(Scalar::Fault(fault)),
    }
}

// IFERROR and IFNA: the second where the first fails, else the first.
fn unless_choice(fails: bool, first: Scalar, count: usize) -> Choice
    ensures { result ≡ unless_choice fails first count }
{
    if count != 2 {
        Choice::Value(Scalar::Fault(FaultKind::Na))
    } else if fails {
        Choice::At(1)
    } else {
        Choice::Value(first)
    }
}

// Whether the value is `#N/A`.
fn is_na(value: &Scalar) -> bool
    ensures { result ≡ is_na value.now }
{
    match value {
        Scalar::Fault(fault) => *fault == FaultKind::Na,
        _ => false,
    }
}

// CHOOSE: the one at the position that the first says.
fn choose_choice(number: &Scalar, count: usize) -> Choice
    ensures { result ≡ choose_choice number.now count }
{
    if count < 2 {
        return Choice::Value(Scalar::Fault(FaultKind::Na));
    }
    match number.as_number() {
        Ok(number) => by_position(number.millionths() / ONE as i64, count),
        Err(fault) => Choice::Value(Scalar::Fault(fault)),
    }
}

// The argument at this position behind the first, from 1.
fn by_position(position: i64, count: usize) -> Choice
    ensures { result ≡ by_position position count }
{
    if position >= 1 && position.unsigned_abs() < count as u64 {
        Choice::At(position.unsigned_abs() as usize)
    } else {
        Choice::Value(Scalar::Fault(FaultKind::Value))
    }
}
