// The functions and their words.
ghost use Rattle.std.specs.Prelude.{◌≡◌};
ghost use Rattle.func_logic.specs.Functions.{function_named, function_word, takes_block};

/// A function of logic.
#[derive(Clone, Copy, PartialEq, Eq, Debug)]
pub enum LogicFn {
    /// `AND(L, ..)`: whether all are TRUE.
    And,
    /// `OR(L, ..)`: whether some are TRUE.
    Or,
    /// `XOR(L, ..)`: whether an odd number of them is TRUE.
    Xor,
    /// `NOT(B)`: the other truth value.
    Not,
    /// `TRUE()`: TRUE.
    True,
    /// `FALSE()`: FALSE.
    False,
    /// `NA()`: the fault `#N/A`.
    Na,
    /// `ISERROR(A)`: whether it is a fault.
    IsError,
    /// `ISERR(A)`: whether it is a fault other than `#N/A`.
    IsErr,
    /// `ISNA(A)`: whether it is `#N/A`.
    IsNa,
    /// `ISNUMBER(A)`: whether it is a number.
    IsNumber,
    /// `ISTEXT(A)`: whether it is a text.
    IsText,
    /// `ISLOGICAL(A)`: whether it is a truth value.
    IsLogical,
    /// `ISBLANK(A)`: whether it is empty.
    IsBlank,
}

impl LogicFn {
    /// All functions of logic.
    pub const ALL: [LogicFn; 14] = [
        LogicFn::And,
        LogicFn::Or,
        LogicFn::Xor,
        LogicFn::Not,
        LogicFn::True,
        LogicFn::False,
        LogicFn::Na,
        LogicFn::IsError,
        LogicFn::IsErr,
        LogicFn::IsNa,
        LogicFn::IsNumber,
        LogicFn::IsText,
        LogicFn::IsLogical,
        LogicFn::IsBlank,
    ];

    /// The function's word, in capitals.
    pub fn word(self) -> &'static str
        ensures { result.now ≡ function_word self }
    {
        match self {
            LogicFn::And => "AND",
            LogicFn::Or => "OR",
            LogicFn::Xor => "XOR",
            LogicFn::Not => "NOT",
            LogicFn::True => "TRUE",
            LogicFn::False => "FALSE",
            LogicFn::Na => "NA",
            LogicFn::IsError => "ISERROR",
            LogicFn::IsErr => "ISERR",
            LogicFn::IsNa => "ISNA",
            LogicFn::IsNumber => "ISNUMBER",
            LogicFn::IsText => "ISTEXT",
            LogicFn::IsLogical => "ISLOGICAL",
            LogicFn::IsBlank => "ISBLANK",
        }
    }

    /// The function that the word names, in capitals.
    pub fn named(text: &str) -> Option<LogicFn>
        ensures { result ≡ function_named text.now }
    {
        LogicFn::ALL
            .iter()
            .copied()
            .find(|function| function.word() == text)
    }

    /// Whether the argument at this place, from 0, is a list: a reference there stands for its cell as
    /// a block of one does, and not for the cell's value.
    pub fn takes_block(self, _at: usize) -> bool
        ensures { result ≡ takes_block self _at }
    {
        match self {
            LogicFn::And | LogicFn::Or | LogicFn::Xor => true,
            _ => false,
        }
    }
}
