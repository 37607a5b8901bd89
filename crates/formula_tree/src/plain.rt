// Trees with every reference as the place that it names.
ghost use Rattle.std.specs.Prelude.{◌≡◌, List, [], ◌∷◌, ◌++◌, IfOk, OnOk, OnErr};

use crate::operator::{Op, Sign};
use crate::reference::Corner;
use cell_addr::{Text, Whole};
use cell_value::FaultKind;
use fix_num::Fixed;
use std::alloc::{AllocError, Global};

/// The tree of a formula, with every reference as the place that it names.
#[derive(Drop)]
#[cycle(plain)]
pub enum Plain {
    /// A number as written, which has no sign.
    Number(Fixed),
    /// A text between quotes.
    Text(Text),
    /// TRUE or FALSE.
    Truth(bool),
    /// A fault that is written out, or a reference to a sheet that doesn't exist.
    Fault(FaultKind),
    /// The value of a cell.
    Cell(Corner),
    /// A block of cells, by its first corner and its last one.
    Area(Corner, Corner),
    /// All rows or all columns from one to another, and whether the first and the last have a `$`.
    Whole(Whole, bool, bool),
    /// A named expression.
    Name(Text),
    /// A sign in front of a formula.
    Prefix(Sign, Box<Plain>),
    /// A formula followed by `%`.
    Percent(Box<Plain>),
    /// An operator between two formulas.
    Binary(Op, Box<Plain>, Box<Plain>),
    /// A function, by its word in capitals, and its arguments.
    Call(Text, PlainList),
    /// A formula in parentheses.
    Paren(Box<Plain>),
}

/// The arguments of a call, in order.
#[derive(Drop)]
#[cycle(plain)]
pub struct PlainList {
    list: Vec<Plain>,
}

impl PlainList {
    ghost use Rattle.formula_tree.specs.Arguments.{arguments};

    /// No arguments.
    pub fn new(alloc: Global) -> Result<PlainList, AllocError>
        ensures { IfOk result (λ list. arguments list ≡ []) }
    {
        Ok(PlainList {
            list: Vec::new(alloc),
        })
    }

    /// Puts an argument at the end. Where there is no memory the arguments stay as they were.
    pub fn push(&mut self, argument: Plain) -> Result<(), AllocError>
        ensures ok { OnOk result (arguments self.new ≡ arguments self.old ++ argument ∷ []) }
        ensures err { OnErr result (arguments self.new ≡ arguments self.old) }
    {
        self.list.push(argument)?;
        Ok(())
    }

    /// The arguments.
    pub fn items(&self) -> &[Plain]
        ensures { result.now ≡ arguments self.now }
    {
        self.list.as_slice()
    }
}
