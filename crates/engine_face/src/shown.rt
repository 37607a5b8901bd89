// Values as another language gets them.
ghost use Rattle.std.specs.Prelude.{◌≡◌};
ghost use Rattle.cell_value.specs.declared.scalar.Scalar.TheVariants.{Text};
ghost use Rattle.engine_face.specs.Shown.{fault_number, shown_value, value_text};

use cell_value::{FaultKind, Scalar};

/// A value without the bytes of its text: its kind, its number, and how long its text is.
#[repr(C)]
#[derive(Clone, Copy)]
pub struct Shown {
    /// 0 for what an empty cell shows, 1 for a number, 2 for a text, 3 for a truth value, 4 for a fault.
    pub kind: u32,
    /// Of a number its millionths; of a truth value 1 or 0; of a fault its number, from 1 on in the order of
    /// `FaultKind`; else 0.
    pub number: i64,
    /// How many bytes the text has; 0 for every other kind.
    pub length: usize,
}

impl Shown {
    // What an empty cell shows.
    const EMPTY: Shown = Shown {
        kind: 0,
        number: 0,
        length: 0,
    };

    // The value without the bytes of its text.
    pub(crate) fn of(value: &Scalar) -> Shown
        ensures { result ≡ shown_value value.now }
    {
        match value {
            Scalar::Empty => Shown::EMPTY,
            Scalar::Number(number) => Shown {
                kind: 1,
                number: number.millionths(),
                length: 0,
            },
            Scalar::Text(text) => Shown::of_text(text.as_bytes()),
            Scalar::Truth(truth) => Shown {
                kind: 3,
                number: i64::from(*truth),
                length: 0,
            },
            Scalar::Fault(fault) => Shown {
                kind: 4,
                number: fault_number(*fault),
                length: 0,
            },
        }
    }

    // A text without its bytes.
    pub(crate) fn of_text(text: &[u8]) -> Shown
        ensures { result ≡ shown_value (Text text.now) }
    {
        Shown {
            kind: 2,
            number: 0,
            length: text.len(),
        }
    }
}

// The bytes of a text; none of any other value.
pub(crate) fn value_text(value: &Scalar) -> &[u8]
    ensures { result.now ≡ value_text value.now }
{
    match value {
        Scalar::Text(text) => text.as_bytes(),
        _ => &[],
    }
}

// The number of a fault.
fn fault_number(fault: FaultKind) -> i64
    ensures { result ≡ fault_number fault }
{
    match fault {
        FaultKind::Div0 => 1,
        FaultKind::Name => 2,
        FaultKind::Value => 3,
        FaultKind::Num => 4,
        FaultKind::Na => 5,
        FaultKind::Cycle => 6,
        FaultKind::Ref => 7,
        FaultKind::Error => 8,
    }
}
