// Whether two trees are equal, as they are seen from their homes.
ghost use Rattle.std.specs.Prelude.{◌≡◌, ◌↔◌, IsTrue};
ghost use Rattle.formula_tree.specs.Relative.{relative, relative_list};

use crate::node::{Node, TreeList};
use crate::operator::{Op, Sign};
use crate::reference::{Part, Ref, SheetPart};
use cell_addr::{Axis, Text};
use cell_value::FaultKind;
use fix_num::Fixed;

impl Node {
    // Whether the trees are equal.
    #[cycle(same)]
    pub(crate) fn same(&self, other: &Node) -> bool
        ensures { IsTrue result ↔ (relative self.now ≡ relative other.now) }
    {
        match (self, other) {
            (Node::Number(number), Node::Number(second)) => same_number(*number, *second),
            (Node::Text(text), Node::Text(second)) => same_text(text, second),
            (Node::Truth(truth), Node::Truth(second)) => *truth == *second,
            (Node::Fault(fault), Node::Fault(second)) => same_fault(*fault, *second),
            (Node::Cell(corner), Node::Cell(second)) => same_ref(*corner, *second),
            (Node::Area(first, last), Node::Area(second_first, second_last)) => {
                same_ref(*first, *second_first) && same_ref(*last, *second_last)
            }
            (
                Node::WholeRows(sheet, first, last),
                Node::WholeRows(second_sheet, second_first, second_last),
            ) => {
                same_ref(
                    Ref::first_of(Axis::Rows, *sheet, *first),
                    Ref::first_of(Axis::Rows, *second_sheet, *second_first),
                ) && same_ref(
                    Ref::last_of(Axis::Rows, *sheet, *last),
                    Ref::last_of(Axis::Rows, *second_sheet, *second_last),
                )
            }
            (
                Node::WholeCols(sheet, first, last),
                Node::WholeCols(second_sheet, second_first, second_last),
            ) => {
                same_ref(
                    Ref::first_of(Axis::Cols, *sheet, *first),
                    Ref::first_of(Axis::Cols, *second_sheet, *second_first),
                ) && same_ref(
                    Ref::last_of(Axis::Cols, *sheet, *last),
                    Ref::last_of(Axis::Cols, *second_sheet, *second_last),
                )
            }
            (Node::Name(name), Node::Name(second)) => same_text(name, second),
            (Node::Prefix(sign, part), Node::Prefix(second_sign, second)) => {
                same_sign(*sign, *second_sign) && part.same(second)
            }
            (Node::Percent(part), Node::Percent(second)) => part.same(second),
            (Node::Binary(op, left, right), Node::Binary(second_op, second_left, second_right)) => {
                same_op(*op, *second_op) && left.same(second_left) && right.same(second_right)
            }
            (Node::Call(word, list), Node::Call(second_word, second)) => {
                same_text(word, second_word) && list.same(second)
            }
            (Node::Paren(part), Node::Paren(second)) => part.same(second),
            _ => false,
        }
    }
}

impl TreeList {
    // Whether the arguments are equal, in order.
    #[cycle(same)]
    fn same(&self, other: &TreeList) -> bool
        ensures { IsTrue result ↔ (relative_list self.now ≡ relative_list other.now) }
    {
        let firsts = self.items();
        let seconds = other.items();
        if firsts.len() != seconds.len() {
            return false;
        }
        'arguments: for index in 0..firsts.len() {
            if !firsts[index].same(&seconds[index]) {
                return false;
            }
        }
        true
    }
}

// Whether the numbers are equal.
fn same_number(a: Fixed, b: Fixed) -> bool
    ensures { IsTrue result ↔ (a ≡ b) }
{
    a == b
}

// Whether the texts are equal.
fn same_text(a: &Text, b: &Text) -> bool
    ensures { IsTrue result ↔ (a.now ≡ b.now) }
{
    a.as_str() == b.as_str()
}

// Whether the faults are equal.
fn same_fault(a: FaultKind, b: FaultKind) -> bool
    ensures { IsTrue result ↔ (a ≡ b) }
{
    a == b
}

// Whether the references are equal.
fn same_ref(a: Ref, b: Ref) -> bool
    ensures { IsTrue result ↔ (a ≡ b) }
{
    same_sheet(a.sheet, b.sheet) && same_part(a.row, b.row) && same_part(a.col, b.col)
}

// Whether the sheets of references are equal.
fn same_sheet(a: SheetPart, b: SheetPart) -> bool
    ensures { IsTrue result ↔ (a ≡ b) }
{
    a == b
}

// Whether the parts are equal.
fn same_part(a: Part, b: Part) -> bool
    ensures { IsTrue result ↔ (a ≡ b) }
{
    a == b
}

// Whether the signs are equal.
fn same_sign(a: Sign, b: Sign) -> bool
    ensures { IsTrue result ↔ (a ≡ b) }
{
    a == b
}

// Whether the operators are equal.
fn same_op(a: Op, b: Op) -> bool
    ensures { IsTrue result ↔ (a ≡ b) }
{
    a == b
}
