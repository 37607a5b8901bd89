// The codes of trees: numbers that a hasher is fed of a tree.
ghost use Rattle.std.specs.Prelude.{◌≡◌, ◌∷◌};
ghost use Rattle.formula_tree.specs.Relative.{relative, relative_list};
ghost use Rattle.formula_tree.specs.Whole.{first_ref, last_ref};
ghost use Rattle.formula_tree.specs.internal.Code.{Feeds, wide_code, signed_code, text_code, sheet_code, part_code, ref_code, fault_code, sign_code, op_code, kind, code, code_all};

use crate::node::{Node, TreeList};
use crate::operator::{Op, Sign};
use crate::reference::{Part, Ref, SheetPart};
use cell_addr::{Axis, Text};
use cell_value::FaultKind;
use fix_num::Fixed;
use std::hash::Hasher;

// How many numbers a word of a code can be.
const WORD: u64 = 1 << 32;

impl Node {
    // The number of the tree's kind.
    fn kind(&self) -> u32
        ensures { result ≡ kind (relative self.now) }
    {
        match self {
            Node::Number(_) => 0,
            Node::Text(_) => 1,
            Node::Truth(_) => 2,
            Node::Fault(_) => 3,
            Node::Cell(_) => 4,
            Node::Area(_, _) => 5,
            Node::Name(_) => 6,
            Node::Prefix(_, _) => 7,
            Node::Percent(_) => 8,
            Node::Binary(_, _, _) => 9,
            Node::Call(_, _) => 10,
            Node::Paren(_) => 11,
            Node::WholeRows(_, _, _) => 12,
            Node::WholeCols(_, _, _) => 13,
        }
    }

    // Feeds the code of the tree to the hasher.
    #[cycle(code)]
    pub(crate) fn feed<H: Hasher>(&self, state: &mut H)
        ensures { Feeds H.write state.old state.new (code (relative self.now)) }
    {
        feed_word(self.kind(), state);
        match self {
            Node::Number(number) => feed_number(*number, state),
            Node::Text(text) | Node::Name(text) => feed_text(text, state),
            Node::Truth(truth) => feed_word(u32::from(*truth), state),
            Node::Fault(fault) => feed_word(fault_code(*fault), state),
            Node::Cell(corner) => feed_ref(*corner, state),
            Node::Area(first, last) => {
                feed_ref(*first, state);
                feed_ref(*last, state);
            }
            Node::WholeRows(sheet, first, last) => {
                feed_ends(Axis::Rows, *sheet, *first, *last, state)
            }
            Node::WholeCols(sheet, first, last) => {
                feed_ends(Axis::Cols, *sheet, *first, *last, state)
            }
            Node::Prefix(sign, part) => {
                feed_word(sign_code(*sign), state);
                part.feed(state);
            }
            Node::Percent(part) | Node::Paren(part) => part.feed(state),
            Node::Binary(op, left, right) => {
                feed_word(op_code(*op), state);
                left.feed(state);
                right.feed(state);
            }
            Node::Call(word, list) => {
                feed_text(word, state);
                list.feed(state);
            }
        }
    }
}

impl TreeList {
    // Feeds the codes of the arguments, each after 1, and a 0 at the end.
    #[cycle(code)]
    fn feed<H: Hasher>(&self, state: &mut H)
        ensures { Feeds H.write state.old state.new (code_all (relative_list self.now)) }
    {
        'arguments: for argument in self.items() {
            feed_word(1, state);
            argument.feed(state);
        }
        feed_word(0, state);
    }
}

// Feeds one word.
fn feed_word<H: Hasher>(word: u32, state: &mut H)
    ensures { Feeds H.write state.old state.new (λ rest. word ∷ rest) }
{
    state.write_u32(word);
}

// Feeds a number of two words, the low one first.
fn feed_wide<H: Hasher>(number: u64, state: &mut H)
    ensures { Feeds H.write state.old state.new (wide_code number) }
{
    feed_word((number % WORD) as u32, state);
    feed_word((number / WORD) as u32, state);
}

// Feeds the sign of a number and its absolute value, in millionths.
fn feed_number<H: Hasher>(number: Fixed, state: &mut H)
    ensures { Feeds H.write state.old state.new (signed_code number) }
{
    let millionths = number.millionths();
    feed_word(u32::from(millionths < 0), state);
    feed_wide(millionths.unsigned_abs(), state);
}

// Feeds the length of a text and its bytes.
fn feed_text<H: Hasher>(text: &Text, state: &mut H)
    ensures { Feeds H.write state.old state.new (text_code text.now) }
{
    let bytes = text.as_bytes();
    feed_wide(bytes.len() as u64, state);
    'bytes: for byte in bytes {
        feed_word(u32::from(*byte), state);
    }
}

// Feeds a reference.
fn feed_ref<H: Hasher>(corner: Ref, state: &mut H)
    ensures { Feeds H.write state.old state.new (ref_code corner) }
{
    feed_sheet(corner.sheet, state);
    feed_part(corner.row, state);
    feed_part(corner.col, state);
}

// Feeds the first and the last cell of a whole range.
fn feed_ends<H: Hasher>(axis: Axis, sheet: SheetPart, first: Part, last: Part, state: &mut H)
    ensures { Feeds H.write state.old state.new (λ rest. ref_code (first_ref axis sheet first) (ref_code (last_ref axis sheet last) rest)) }
{
    feed_ref(Ref::first_of(axis, sheet, first), state);
    feed_ref(Ref::last_of(axis, sheet, last), state);
}

// Feeds the sheet of a reference.
fn feed_sheet<H: Hasher>(sheet: SheetPart, state: &mut H)
    ensures { Feeds H.write state.old state.new (sheet_code sheet) }
{
    match sheet {
        SheetPart::Own => feed_word(0, state),
        SheetPart::Id(number) => {
            feed_word(1, state);
            feed_word(number, state);
        }
    }
}

// Feeds a part: 0 or 1 in front of one without a `$`, by its sign, and 2 in front of one with a `$`.
fn feed_part<H: Hasher>(part: Part, state: &mut H)
    ensures { Feeds H.write state.old state.new (part_code part) }
{
    match part {
        Part::Rel(by) => {
            feed_word(u32::from(by < 0), state);
            feed_word(by.unsigned_abs(), state);
        }
        Part::Abs(line) => {
            feed_word(2, state);
            feed_word(line, state);
        }
    }
}

// The number of a fault among all of them.
fn fault_code(fault: FaultKind) -> u32
    ensures { result ≡ fault_code fault }
{
    fault as u32
}

// The number of a sign.
fn sign_code(sign: Sign) -> u32
    ensures { result ≡ sign_code sign }
{
    sign as u32
}

// The number of an operator among all of them.
fn op_code(op: Op) -> u32
    ensures { result ≡ op_code op }
{
    op as u32
}
