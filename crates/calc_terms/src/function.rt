// The functions that every workbook has, and their words.
ghost use Rattle.std.specs.Prelude.{◌≡◌};
ghost use Rattle.calc_terms.specs.Words.{choice_named, choice_word, data_named, function_named, place_named, place_word, takes_block};

use func_date::DateFn;
use func_logic::LogicFn;
use func_look::LookFn;
use func_math::MathFn;
use func_text::TextFn;

/// A function that chooses one of its arguments.
#[derive(Clone, Copy, PartialEq, Eq, Debug)]
pub enum ChoiceFn {
    /// `IF(B, A [, A])`: the second or the third.
    If,
    /// `IFERROR(A, A)`: the first, or the second where the first is a fault.
    IfError,
    /// `IFNA(A, A)`: the first, or the second where the first is `#N/A`.
    IfNa,
    /// `CHOOSE(N, A, ..)`: the one at a position.
    Choose,
}

/// A function that asks where a reference is.
#[derive(Clone, Copy, PartialEq, Eq, Debug)]
pub enum PlaceFn {
    /// `ROW([R])`: the row of its first cell, from 1.
    Row,
    /// `COLUMN([R])`: the column of its first cell, from 1.
    Column,
    /// `ROWS(R)`: how many rows it has.
    Rows,
    /// `COLUMNS(R)`: how many columns it has.
    Columns,
}

/// A function of values and blocks.
#[derive(Clone, Copy, PartialEq, Eq, Debug)]
pub enum DataFn {
    /// A function of numbers.
    Math(MathFn),
    /// A function of logic.
    Logic(LogicFn),
    /// A function of texts.
    Text(TextFn),
    /// A look-up.
    Look(LookFn),
    /// A function of dates.
    Date(DateFn),
}

/// A function that every workbook has.
#[derive(Clone, Copy, PartialEq, Eq, Debug)]
pub enum Function {
    /// One that chooses one of its arguments.
    Choice(ChoiceFn),
    /// One that asks where a reference is.
    Place(PlaceFn),
    /// One of values and blocks.
    Data(DataFn),
}

impl ChoiceFn {
    /// All functions that choose.
    pub const ALL: [ChoiceFn; 4] = [
        ChoiceFn::If,
        ChoiceFn::IfError,
        ChoiceFn::IfNa,
        ChoiceFn::Choose,
    ];

    /// The function's word, in capitals.
    pub fn word(self) -> &'static str
        ensures { result.now ≡ choice_word self }
    {
        match self {
            ChoiceFn::If => "IF",
            ChoiceFn::IfError => "IFERROR",
            ChoiceFn::IfNa => "IFNA",
            ChoiceFn::Choose => "CHOOSE",
        }
    }

    /// The function that the word names, in capitals.
    pub fn named(text: &str) -> Option<ChoiceFn>
        ensures { result ≡ choice_named text.now }
    {
        ChoiceFn::ALL
            .iter()
            .copied()
            .find(|function| function.word() == text)
    }
}

impl PlaceFn {
    /// All functions that ask where a reference is.
    pub const ALL: [PlaceFn; 4] = [
        PlaceFn::Row,
        PlaceFn::Column,
        PlaceFn::Rows,
        PlaceFn::Columns,
    ];

    /// The function's word, in capitals.
    pub fn word(self) -> &'static str
        ensures { result.now ≡ place_word self }
    {
        match self {
            PlaceFn::Row => "ROW",
            PlaceFn::Column => "COLUMN",
            PlaceFn::Rows => "ROWS",
            PlaceFn::Columns => "COLUMNS",
        }
    }

    /// The function that the word names, in capitals.
    pub fn named(text: &str) -> Option<PlaceFn>
        ensures { result ≡ place_named text.now }
    {
        PlaceFn::ALL
            .iter()
            .copied()
            .find(|function| function.word() == text)
    }
}

impl DataFn {
    /// The function that the word names, in capitals.
    pub fn named(word: &str) -> Option<DataFn>
        ensures { result ≡ data_named word.now }
    {
        if let Some(f) = MathFn::named(word) {
            return Some(DataFn::Math(f));
        }
        if let Some(f) = LogicFn::named(word) {
            return Some(DataFn::Logic(f));
        }
        if let Some(f) = TextFn::named(word) {
            return Some(DataFn::Text(f));
        }
        if let Some(f) = LookFn::named(word) {
            return Some(DataFn::Look(f));
        }
        match DateFn::named(word) {
            Some(f) => Some(DataFn::Date(f)),
            None => None,
        }
    }

    /// Whether the argument at this place, from 0, is a list or a block: a reference there stands for its
    /// cells, and not for a value.
    pub fn takes_block(self, at: usize) -> bool
        ensures { result ≡ takes_block self at }
    {
        match self {
            DataFn::Math(f) => f.takes_block(at),
            DataFn::Logic(f) => f.takes_block(at),
            DataFn::Text(f) => f.takes_block(at),
            DataFn::Look(f) => f.takes_block(at),
            DataFn::Date(f) => f.takes_block(at),
        }
    }
}

impl Function {
    /// The function that the word names, in capitals. `None` where no function of every workbook has it.
    #[tactic(auto, unfolding(crate::specs::Words::function_named))]
    pub fn named(word: &str) -> Option<Function>
        ensures { result ≡ function_named word.now }
    {
        if let Some(f) = ChoiceFn::named(word) {
            return Some(Function::Choice(f));
        }
        if let Some(f) = PlaceFn::named(word) {
            return Some(Function::Place(f));
        }
        match DataFn::named(word) {
            Some(f) => Some(Function::Data(f)),
            None => None,
        }
    }
}
