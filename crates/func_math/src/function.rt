// The functions and their words.
ghost use Rattle.std.specs.Prelude.{◌≡◌};
ghost use Rattle.func_math.specs.Functions.{function_named, function_word, of_summary, takes_block};

/// A function of numbers.
#[derive(Clone, Copy, PartialEq, Eq, Debug)]
pub enum MathFn {
    /// `SUM(L, ..)`: the exact sum.
    Sum,
    /// `AVERAGE(L, ..)`: the sum divided by the count.
    Average,
    /// `MIN(L, ..)`: the least, of none 0.
    Min,
    /// `MAX(L, ..)`: the greatest, of none 0.
    Max,
    /// `COUNT(L, ..)`: how many numbers.
    Count,
    /// `COUNTA(L, ..)`: how many values that aren't empty.
    CountA,
    /// `COUNTBLANK(R)`: how many empty cells.
    CountBlank,
    /// `PRODUCT(L, ..)`: the product, of none 0.
    Product,
    /// `SUMIF(R, A [, R])`: the sum where a criterion matches.
    SumIf,
    /// `COUNTIF(R, A)`: how many cells a criterion matches.
    CountIf,
    /// `ABS(N)`: the absolute value.
    Abs,
    /// `SIGN(N)`: -1, 0 or 1.
    Sign,
    /// `INT(N)`: the greatest whole number that isn't above.
    Int,
    /// `TRUNC(N [, N])`: cut toward zero to so many places.
    Trunc,
    /// `ROUND(N [, N])`: to the nearest of so many places, a half away from zero.
    Round,
    /// `ROUNDUP(N [, N])`: away from zero to so many places.
    RoundUp,
    /// `ROUNDDOWN(N [, N])`: toward zero to so many places.
    RoundDown,
    /// `MOD(N, N)`: what is left of a division rounded down.
    Mod,
    /// `QUOTIENT(N, N)`: the quotient cut toward zero.
    Quotient,
    /// `POWER(N, N)`: the power.
    Power,
    /// `ISEVEN(N)`: whether the number cut toward zero is even.
    IsEven,
    /// `ISODD(N)`: whether the number cut toward zero is odd.
    IsOdd,
}

impl MathFn {
    /// All functions of numbers.
    pub const ALL: [MathFn; 22] = [
        MathFn::Sum,
        MathFn::Average,
        MathFn::Min,
        MathFn::Max,
        MathFn::Count,
        MathFn::CountA,
        MathFn::CountBlank,
        MathFn::Product,
        MathFn::SumIf,
        MathFn::CountIf,
        MathFn::Abs,
        MathFn::Sign,
        MathFn::Int,
        MathFn::Trunc,
        MathFn::Round,
        MathFn::RoundUp,
        MathFn::RoundDown,
        MathFn::Mod,
        MathFn::Quotient,
        MathFn::Power,
        MathFn::IsEven,
        MathFn::IsOdd,
    ];

    /// The function's word, in capitals.
    pub fn word(self) -> &'static str
        ensures { result.now ≡ function_word self }
    {
        match self {
            MathFn::Sum => "SUM",
            MathFn::Average => "AVERAGE",
            MathFn::Min => "MIN",
            MathFn::Max => "MAX",
            MathFn::Count => "COUNT",
            MathFn::CountA => "COUNTA",
            MathFn::CountBlank => "COUNTBLANK",
            MathFn::Product => "PRODUCT",
            MathFn::SumIf => "SUMIF",
            MathFn::CountIf => "COUNTIF",
            MathFn::Abs => "ABS",
            MathFn::Sign => "SIGN",
            MathFn::Int => "INT",
            MathFn::Trunc => "TRUNC",
            MathFn::Round => "ROUND",
            MathFn::RoundUp => "ROUNDUP",
            MathFn::RoundDown => "ROUNDDOWN",
            MathFn::Mod => "MOD",
            MathFn::Quotient => "QUOTIENT",
            MathFn::Power => "POWER",
            MathFn::IsEven => "ISEVEN",
            MathFn::IsOdd => "ISODD",
        }
    }

    /// The function that the word names, in capitals.
    pub fn named(text: &str) -> Option<MathFn>
        ensures { result ≡ function_named text.now }
    {
        MathFn::ALL
            .iter()
            .copied()
            .find(|function| function.word() == text)
    }

    /// Whether the argument at this place, from 0, is a list or a block: a reference there stands for
    /// its cell as a block of one does, and not for the cell's value.
    pub fn takes_block(self, at: usize) -> bool
        ensures { result ≡ takes_block self at }
    {
        match self {
            MathFn::Sum
            | MathFn::Average
            | MathFn::Min
            | MathFn::Max
            | MathFn::Count
            | MathFn::CountA
            | MathFn::CountBlank
            | MathFn::Product => true,
            MathFn::SumIf | MathFn::CountIf => at != 1,
            _ => false,
        }
    }

    /// Whether the summary of what its arguments list says the function's value.
    pub fn is_of_summary(self) -> bool
        ensures { result ≡ of_summary self }
    {
        match self {
            MathFn::Sum | MathFn::Average | MathFn::Min | MathFn::Max | MathFn::Count => true,
            _ => false,
        }
    }
}
