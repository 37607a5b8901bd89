// How texts compare, and values of all kinds.
ghost use Rattle.std.specs.Prelude.{◌≡◌};
ghost use Rattle.cell_value.specs.Scalar.{counted_order, kind_rank, order_of, same_kind, text_order};

use crate::fault::FaultKind;
use crate::scalar::Scalar;
use cell_addr::fold_byte;
use fix_num::Fixed;
use std::cmp::Ordering;

/// How two texts compare: by their bytes, with ASCII capitals made small.
pub fn compare_texts(a: &str, b: &str) -> Ordering
    ensures { result ≡ text_order a.now b.now }
{
    'bytes: for (x, y) in a.as_bytes().iter().zip(b.as_bytes()) {
        match fold_byte(*x).cmp(&fold_byte(*y)) {
            Ordering::Equal => {}
            decided => return decided,
        }
    }
    a.len().cmp(&b.len())
}

impl Scalar {
    /// How the value compares with another: nothing beside a number is 0, beside a text the text of
    /// no characters and beside a truth value FALSE. Numbers compare by size, texts by their bytes
    /// with ASCII capitals made small, and FALSE is before TRUE; each number is before each text, and
    /// each text before each truth value.
    ///
    /// A fault decides, this value's before the other's.
    pub fn compare(&self, other: &Scalar) -> Result<Ordering, FaultKind>
        ensures { result ≡ order_of self.now other.now }
    {
        match (self, other) {
            (Scalar::Fault(fault), _) => Err(*fault),
            (_, Scalar::Fault(fault)) => Err(*fault),
            _ => Ok(self.order(other)),
        }
    }

    // How the values compare where neither is a fault.
    fn order(&self, other: &Scalar) -> Ordering
        ensures { result ≡ counted_order self.now other.now }
    {
        match (self, other) {
            (Scalar::Number(a), Scalar::Number(b)) => a.cmp(b),
            (Scalar::Number(a), Scalar::Empty) => a.cmp(&Fixed::ZERO),
            (Scalar::Empty, Scalar::Number(b)) => Fixed::ZERO.cmp(b),
            (Scalar::Text(a), Scalar::Text(b)) => compare_texts(a.as_str(), b.as_str()),
            (Scalar::Text(a), Scalar::Empty) => compare_texts(a.as_str(), ""),
            (Scalar::Empty, Scalar::Text(b)) => compare_texts("", b.as_str()),
            (Scalar::Truth(a), Scalar::Truth(b)) => a.cmp(b),
            (Scalar::Truth(a), Scalar::Empty) => a.cmp(&false),
            (Scalar::Empty, Scalar::Truth(b)) => false.cmp(b),
            _ => self.kind_rank().cmp(&other.kind_rank()),
        }
    }

    /// Whether the values are of one kind: both numbers, both texts, both truth values, both faults
    /// or both empty.
    pub fn is_same_kind(&self, other: &Scalar) -> bool
        ensures { result ≡ same_kind self.now other.now }
    {
        self.kind_rank() == other.kind_rank()
    }

    // The place of the value's kind in the order.
    fn kind_rank(&self) -> u8
        ensures { result ≡ kind_rank self.now }
    {
        match self {
            Scalar::Empty => 0,
            Scalar::Number(_) => 1,
            Scalar::Text(_) => 2,
            Scalar::Truth(_) => 3,
            Scalar::Fault(_) => 4,
        }
    }
}
