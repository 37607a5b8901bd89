// The truth values of a list of arguments.
ghost use Rattle.std.specs.Prelude.{◌≡◌, map};
ghost use Rattle.func_logic.specs.Tally.{alone, joined, no_truths, of_argument, of_cell, tally_of, together};

use cell_value::{Area, Arg, FaultKind, Scalar};

// What the truth values of a list come to.
#[derive(Clone, Copy, PartialEq, Eq, Debug)]
pub(crate) struct Tally {
    /// Some of them are TRUE.
    pub(crate) some_true: bool,
    /// Some of them are FALSE.
    pub(crate) some_false: bool,
    /// An odd number of them is TRUE.
    pub(crate) odd_true: bool,
    /// The first fault of the list.
    pub(crate) fault: Option<FaultKind>,
}

impl Tally {
    // Of no truth values.
    fn new() -> Tally
        ensures { result ≡ no_truths }
    {
        Tally {
            some_true: false,
            some_false: false,
            odd_true: false,
            fault: None,
        }
    }

    // Of one truth value, or of the fault in its place.
    fn of(truth: Result<bool, FaultKind>) -> Tally
        ensures { result ≡ alone truth }
    {
        match truth {
            Ok(truth) => Tally {
                some_true: truth,
                some_false: !truth,
                odd_true: truth,
                fault: None,
            },
            Err(fault) => Tally {
                some_true: false,
                some_false: false,
                odd_true: false,
                fault: Some(fault),
            },
        }
    }

    // Of the value of a cell in a block, whose texts and empty cells don't count.
    fn of_cell(value: &Scalar) -> Tally
        ensures { result ≡ of_cell value.now }
    {
        match value {
            Scalar::Empty | Scalar::Text(_) => Tally::new(),
            Scalar::Number(_) | Scalar::Truth(_) | Scalar::Fault(_) => Tally::of(value.as_truth()),
        }
    }

    // Of the truth values of both, this one's first.
    fn join(self, next: Tally) -> Tally
        ensures { result ≡ joined self next }
    {
        Tally {
            some_true: self.some_true || next.some_true,
            some_false: self.some_false || next.some_false,
            odd_true: if self.odd_true {
                !next.odd_true
            } else {
                next.odd_true
            },
            fault: self.fault.or(next.fault),
        }
    }
}

// The truth values of a list of at least one argument.
pub(crate) fn tally_of(args: &[Arg]) -> Result<Tally, FaultKind>
    ensures { result ≡ tally_of args.now }
{
    if args.is_empty() {
        return Err(FaultKind::Na);
    }
    Ok(together(args))
}

// The truth values of all arguments.
fn together(args: &[Arg]) -> Tally
    ensures { result ≡ together no_truths (map of_argument args.now) }
{
    let mut total = Tally::new();
    'arguments: for argument in args {
        total = total.join(of_argument(argument));
    }
    total
}

// The truth values of one argument.
fn of_argument(argument: &Arg) -> Tally
    ensures { result ≡ of_argument argument.now }
{
    match argument {
        Arg::One(value) => Tally::of(value.as_truth()),
        Arg::Many(area) => of_area(area),
    }
}

// The truth values of a block's cells.
fn of_area(area: &Area) -> Tally
    ensures { result ≡ together no_truths (map of_cell area.now.values) }
{
    let mut total = Tally::new();
    'cells: for cell in area.filled() {
        total = total.join(Tally::of_cell(&cell.value));
    }
    total
}
