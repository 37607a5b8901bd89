// The faults that a cell can have in place of a value, and their spelling.
ghost use Rattle.std.specs.Prelude.{◌≡◌, Some};
ghost use Rattle.cell_value.specs.Fault.{fault_named, fault_of_error, fault_text};

use cell_addr::same_folded;
use fix_num::NumError;
use std::error::Error;
use std::fmt;

/// Why a cell has no value.
#[derive(Clone, Copy, PartialEq, Eq, Debug)]
pub enum FaultKind {
    /// A division by zero.
    Div0,
    /// A name that nothing has.
    Name,
    /// A value of a kind that doesn't serve.
    Value,
    /// A number beyond all limits, or one that the calculation can't take.
    Num,
    /// A value that isn't available, as of a search that found nothing.
    Na,
    /// A cell that needs its own value.
    Cycle,
    /// A place that is gone.
    Ref,
    /// Any other fault.
    Error,
}

impl FaultKind {
    /// All faults.
    pub const ALL: [FaultKind; 8] = [
        FaultKind::Div0,
        FaultKind::Name,
        FaultKind::Value,
        FaultKind::Num,
        FaultKind::Na,
        FaultKind::Cycle,
        FaultKind::Ref,
        FaultKind::Error,
    ];

    /// The spelling, as `#DIV/0!`. Source: OpenFormula; `#CYCLE!` and `#ERROR!` are HyperFormula's.
    pub fn text(self) -> &'static str
        ensures { result.now ≡ fault_text self }
    {
        match self {
            FaultKind::Div0 => "#DIV/0!",
            FaultKind::Name => "#NAME?",
            FaultKind::Value => "#VALUE!",
            FaultKind::Num => "#NUM!",
            FaultKind::Na => "#N/A",
            FaultKind::Cycle => "#CYCLE!",
            FaultKind::Ref => "#REF!",
            FaultKind::Error => "#ERROR!",
        }
    }

    /// The fault that is spelled so, with letters in any case.
    pub fn named(text: &str) -> Option<FaultKind>
        ensures { result ≡ fault_named text.now }
    {
        FaultKind::ALL
            .iter()
            .copied()
            .find(|fault| same_folded(text, fault.text()))
    }
}

impl fmt::Display for FaultKind {
    ghost output = { λ fault. Some (fault_text fault) };

    fn fmt<W: fmt::Write>(&self, f: &mut fmt::Formatter<W>) -> fmt::Result {
        f.write_str(self.text())
    }
}

impl Error for FaultKind {}

impl From<NumError> for FaultKind {
    ghost from_gives = { λ error fault. fault ≡ fault_of_error error };

    /// The fault of a calculation that failed.
    fn from(error: NumError) -> FaultKind {
        match error {
            NumError::Range => FaultKind::Num,
            NumError::ZeroDivisor => FaultKind::Div0,
            NumError::NotANumber => FaultKind::Value,
        }
    }
}
