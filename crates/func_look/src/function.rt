// The functions and their words.
ghost use Rattle.std.specs.Prelude.{◌≡◌};
ghost use Rattle.func_look.specs.Functions.{function_named, function_word, takes_block};

/// A look-up.
#[derive(Clone, Copy, PartialEq, Eq, Debug)]
pub enum LookFn {
    /// `MATCH(A, R [, N])`: where a value stands in a row or a column.
    Match,
    /// `VLOOKUP(A, R, N [, B])`: the value in a column of the row that begins with a value.
    VLookup,
    /// `HLOOKUP(A, R, N [, B])`: the value in a row of the column that begins with a value.
    HLookup,
    /// `INDEX(R, N [, N])`: the value in a row and a column.
    Index,
    /// `CHOOSE(N, A, ..)`: one of the other arguments.
    Choose,
}

impl LookFn {
    /// All look-ups.
    pub const ALL: [LookFn; 5] = [
        LookFn::Match,
        LookFn::VLookup,
        LookFn::HLookup,
        LookFn::Index,
        LookFn::Choose,
    ];

    /// The function's word, in capitals.
    pub fn word(self) -> &'static str
        ensures { result.now ≡ function_word self }
    {
        match self {
            LookFn::Match => "MATCH",
            LookFn::VLookup => "VLOOKUP",
            LookFn::HLookup => "HLOOKUP",
            LookFn::Index => "INDEX",
            LookFn::Choose => "CHOOSE",
        }
    }

    /// The function that the word names, in capitals.
    pub fn named(text: &str) -> Option<LookFn>
        ensures { result ≡ function_named text.now }
    {
        LookFn::ALL
            .iter()
            .copied()
            .find(|function| function.word() == text)
    }

    /// Whether the argument at this place, from 0, is a block: a reference there stands for its cell as
    /// a block of one does, and not for the cell's value.
    pub fn takes_block(self, at: usize) -> bool
        ensures { result ≡ takes_block self at }
    {
        match self {
            LookFn::Match | LookFn::VLookup | LookFn::HLookup => at == 1,
            LookFn::Index => at == 0,
            LookFn::Choose => false,
        }
    }
}
