// Formulas that no cell holds: their canonical texts, the names that they use, and where their texts go wrong.
use crate::no_customs::NoCustoms;
use book_engine::{Engine, Stop, TextSpan};
use book_model::Refusal;
use cell_addr::Text;

// A text is read on a sheet as a cell there would be given it, also while values are suspended.
pub(crate) fn formulas_are_read_alone(engine: &mut Engine<NoCustoms>) -> Result<bool, Stop> {
    engine.add_sheet("Plan")?;
    engine.add_sheet("Two")?;
    engine.suspend();
    let text = engine.normal_text(1, "= sum( Plan!b1:c2 , Two!a1 * rate )")?;
    let names = engine.names_in(1, "=Rate+SUM(A1,tax)*RATE")?;
    let unread = engine.normal_text(0, "2+3");
    let nowhere = engine.names_in(2, "=1");
    let right = engine.parse_error(1, "=A1*2")?;
    let wrong = engine.parse_error(1, "=A1*/2")?;
    Ok(
        text.as_str() == "=SUM(Plan!B1:C2,A1*rate)"
            && are_rate_and_tax(&names)
            && right.is_none()
            && wrong == Some(TextSpan { at: 4, length: 1 })
            && matches!(unread, Err(Stop::Refused(Refusal::BadFormula)))
            && matches!(nowhere, Err(Stop::Refused(Refusal::NoSheet))),
    )
}

// Whether these are RATE and TAX.
fn are_rate_and_tax(words: &[Text]) -> bool {
    match words {
        [rate, tax] => rate.as_str() == "RATE" && tax.as_str() == "TAX",
        _ => false,
    }
}
