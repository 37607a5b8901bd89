// What the numbers of many values come to.
ghost use Rattle.std.specs.Prelude.{◌≡◌, ◌+◌, ◌^◌, ◌<◌};
ghost use Rattle.cell_value.specs.Summary.{IsBounded, alone, greater, joined, lesser, no_values};

use crate::fault::FaultKind;
use crate::scalar::Scalar;
use fix_num::Fixed;

/// What the numbers of a block's cells come to.
#[derive(Clone, Copy, PartialEq, Eq, Debug)]
pub struct Summary {
    /// How many numbers there are.
    pub count: u64,
    /// Their exact sum, in millionths.
    pub sum: i128,
    /// The least of them, or `None` where there are none.
    pub least: Option<Fixed>,
    /// The greatest of them, or `None` where there are none.
    pub greatest: Option<Fixed>,
    /// The first fault among the values, row by row.
    pub fault: Option<FaultKind>,
}

impl Summary {
    /// The summary of no values.
    pub fn new() -> Summary
        ensures none { result ≡ no_values }
        ensures bounded { IsBounded result }
    {
        Summary {
            count: 0,
            sum: 0,
            least: None,
            greatest: None,
            fault: None,
        }
    }

    /// The summary of one value.
    pub fn of(value: &Scalar) -> Summary
        ensures alone { result ≡ alone value.now }
        ensures bounded { IsBounded result }
    {
        match value {
            Scalar::Number(number) => Summary {
                count: 1,
                sum: i128::from(number.millionths()),
                least: Some(*number),
                greatest: Some(*number),
                fault: None,
            },
            Scalar::Fault(fault) => Summary {
                fault: Some(*fault),
                ..Summary::new()
            },
            _ => Summary::new(),
        }
    }

    /// The summary of the values of both, this one's first.
    pub fn join(&self, next: &Summary) -> Summary
        requires bounded { IsBounded self.now }
        requires next_bounded { IsBounded next.now }
        requires few { self.now.count + next.now.count < 2 ^ 64 }
        ensures joined { result ≡ joined self.now next.now }
        ensures bounded { IsBounded result }
    {
        Summary {
            count: self.count + next.count,
            sum: self.sum + next.sum,
            least: lesser(self.least, next.least),
            greatest: greater(self.greatest, next.greatest),
            fault: self.fault.or(next.fault),
        }
    }
}

// The lesser of two numbers, of which either may be missing.
fn lesser(a: Option<Fixed>, b: Option<Fixed>) -> Option<Fixed>
    ensures { result ≡ lesser a b }
{
    match (a, b) {
        (Some(a), Some(b)) => Some(if b < a { b } else { a }),
        (Some(a), None) => Some(a),
        (None, b) => b,
    }
}

// The greater of two numbers, of which either may be missing.
fn greater(a: Option<Fixed>, b: Option<Fixed>) -> Option<Fixed>
    ensures { result ≡ greater a b }
{
    match (a, b) {
        (Some(a), Some(b)) => Some(if b < a { a } else { b }),
        (Some(a), None) => Some(a),
        (None, b) => b,
    }
}
