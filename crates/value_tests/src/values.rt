// Faults, areas, summaries and made texts; what values are as others is data of `function_cases`.
ghost use Rattle.std.specs.Prelude.{◌≡◌};
ghost use Rattle.cell_value.specs.Cells.{empty_cells};

use cell_addr::Text;
use cell_value::{Area, FaultKind, MAX_MADE_TEXT, Scalar, Summary, compare_texts};
use fix_num::{Fixed, NumError};
use std::alloc::{AllocError, Global};
use std::cmp::Ordering::Greater;
use std::test::Fail;

// The faults and their spelling.
const FAULTS: &[(FaultKind, &str)] = &[
    (FaultKind::Div0, "#DIV/0!"),
    (FaultKind::Name, "#NAME?"),
    (FaultKind::Value, "#VALUE!"),
    (FaultKind::Num, "#NUM!"),
    (FaultKind::Na, "#N/A"),
    (FaultKind::Cycle, "#CYCLE!"),
    (FaultKind::Ref, "#REF!"),
    (FaultKind::Error, "#ERROR!"),
];

// Whether the fault has the name.
fn is_named(alloc: Global, fault: FaultKind, text: &str) -> Result<bool, AllocError> {
    Ok(fault.text() == text && fault.to_string(alloc)?.as_str() == text)
}

#[test]
fn names_of_faults(rt: HostRuntime) -> Result<(), Fail> {
    for (fault, text) in FAULTS {
        assert!(rt; is_named(rt.alloc(), *fault, text)?, "{text}");
    }
    Ok(())
}

// Why a calculation has no number, and the fault that its value is.
const ERRORS: &[(NumError, FaultKind)] = &[
    (NumError::Range, FaultKind::Num),
    (NumError::ZeroDivisor, FaultKind::Div0),
    (NumError::NotANumber, FaultKind::Value),
];

#[test]
fn calculations_as_values(rt: HostRuntime) {
    for (error, fault) in ERRORS {
        assert!(rt; Scalar::from(Err(*error)) == Scalar::Fault(*fault));
    }
    assert!(rt; Scalar::from(Ok(Fixed::ONE)) == Scalar::Number(Fixed::ONE));
    assert!(rt; Scalar::Number(Fixed::ONE) != Scalar::Truth(true));
    assert!(rt; Scalar::Number(Fixed::ZERO) != Scalar::Empty);
}

#[test]
fn orders_of_texts(rt: HostRuntime) {
    assert!(rt; compare_texts("Straße", "STRASSE") == Greater);
    assert!(rt; compare_texts("𝄞", "\u{ffff}") == Greater);
}

// A number of millionths as a value.
fn number(millionths: i64) -> Scalar {
    Scalar::from(Fixed::from_millionths(millionths))
}

// Puts two values into the area.
fn fill(alloc: Global, area: &mut Area) -> Result<(), AllocError>
    requires { area.old ≡ empty_cells 2 3 }
{
    area.push(0, 1, number(-2_000_000))?;
    area.push(1, 2, Scalar::Text(Text::from_str(alloc, "7")?))
}

// The value of a cell; none where the area ends before it, or the cell is empty.
fn cell(area: &Area, row: u32, col: u32) -> Option<&Scalar> {
    if row < area.rows() && col < area.cols() {
        area.value(row, col)
    } else {
        None
    }
}

// Whether the cell of the area is the text `7`.
fn is_seven(area: &Area, row: u32, col: u32) -> bool {
    match cell(area, row, col) {
        Some(Scalar::Text(text)) => text.as_str() == "7",
        _ => false,
    }
}

// Whether the area has the two values and no others.
fn has_both(area: &Area) -> bool {
    let are_two = area.filled().len() == 2 && cell(area, 1, 1).is_none();
    are_two && cell(area, 0, 1) == Some(&number(-2_000_000)) && is_seven(area, 1, 2)
}

#[test]
fn cells_of_areas(rt: HostRuntime) -> Result<(), Fail> {
    let mut area = Area::new(rt.alloc(), 2, 3);
    fill(rt.alloc(), &mut area)?;
    assert!(rt; has_both(&area));
    Ok(())
}

// Whether the summary of a number and a fault is that of both.
fn sums_up(both: &Summary) -> bool {
    both.count == 1
        && both.sum == -2_000_000
        && both.fault == Some(FaultKind::Na)
        && both.least == both.greatest
}

#[test]
fn summaries_of_values(rt: HostRuntime) {
    let least = Summary::of(&number(-2_000_000));
    let both = least.join(&Summary::of(&Scalar::Fault(FaultKind::Na)));
    assert!(rt; sums_up(&both));
}

// The value of a made text of so many letters.
fn made(alloc: Global, count: usize) -> Result<Scalar, AllocError> {
    Ok(Scalar::made_text(Text::new("x".repeat(alloc, count)?)))
}

// How many letters a person sees of a made text of so many.
fn made_length(alloc: Global, count: usize) -> Result<usize, AllocError> {
    let made = made(alloc, count)?;
    Ok(made.shown(alloc)?.as_bytes().len())
}

#[test]
fn made_texts(rt: HostRuntime) -> Result<(), Fail> {
    assert!(rt; made_length(rt.alloc(), MAX_MADE_TEXT)? == MAX_MADE_TEXT);
    assert!(rt; made(rt.alloc(), MAX_MADE_TEXT + 1)? == Scalar::Fault(FaultKind::Value));
    Ok(())
}
