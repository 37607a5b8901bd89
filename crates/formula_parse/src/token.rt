// The tokens of formulas' texts, as they are read.
ghost use Rattle.std.specs.Prelude.{◌≡◌};
ghost use Rattle.formula_tree.specs.Token.{same_mark};
ghost use Rattle.formula_parse.specs.internal.Front.{mark_token, symbol_token};

use cell_value::FaultKind;
use formula_tree::{Address, Op};

/// A piece of a formula's text, which it borrows from.
#[derive(Clone, Copy, Debug)]
pub(crate) enum Token<'t> {
    /// The digits of a number, with its point where it has one. Beside `:` they may be a row's number.
    Number(&'t str),
    /// A text between double quotes: what follows the opening one.
    Text(&'t str),
    /// TRUE or FALSE.
    Truth(bool),
    /// A fault that is written out.
    Fault(FaultKind),
    /// A sheet's name, with the `!` that follows it.
    Sheet(&'t str),
    /// A sheet's name between apostrophes, with the `!` that follows: what follows the opening one.
    QuotedSheet(&'t str),
    /// An address.
    Corner(Address),
    /// A run of the form of a name. Beside `:` it may be a column's letters.
    Name(&'t str),
    /// The word of a function; `(` follows it.
    Word(&'t str),
    /// Another run. Beside `:` it may be a row or a column with its `$`; else no production of the grammar
    /// takes it.
    Other(&'t str),
    /// What begins no token: nothing after it is read.
    Stray,
    /// An operator, `%` or a mark.
    Symbol(Symbol),
}

/// A token that is always written the same.
#[derive(Clone, Copy, Debug)]
pub(crate) enum Symbol {
    /// An operator; `+` and `-` may be signs too.
    Operator(Op),
    /// `%`
    Percent,
    /// A mark between the parts of a formula.
    Mark(Mark),
}

/// A mark between the parts of a formula.
#[derive(Clone, Copy, PartialEq, Eq, Debug)]
pub(crate) enum Mark {
    /// `:`
    Colon,
    /// `,`
    Comma,
    /// `(`
    Open,
    /// `)`
    Close,
}

impl Symbol {
    // Whether the symbol is this mark.
    pub(crate) fn is(self, mark: Mark) -> bool
        ensures { result ≡ same_mark (mark_token mark) (symbol_token self) }
    {
        match self {
            Symbol::Mark(found) => found == mark,
            Symbol::Operator(_) | Symbol::Percent => false,
        }
    }
}
