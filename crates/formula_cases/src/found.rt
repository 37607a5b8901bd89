// What is found of cases.
use crate::moving::moved;
use crate::operation::shift_of;
use crate::reading::{column_trees, levels_of, texts_of, wrong_place};
use crate::setting::Setting;
use crate::shifting::shifted;
use formula_tree::Home;
use shift_core::{Shift, sound};
use std::alloc::{AllocError, Global};

/// What is found of a case, whose first word says what is done; `None` where it is no case.
pub(crate) fn found(
    alloc: Global,
    setting: &Setting,
    case: &str,
) -> Result<Option<String>, AllocError> {
    match case.split_once(' ') {
        Some(("read", text)) => Ok(Some(of_text(alloc, setting, text)?)),
        Some(("nest", parts)) => of_nested(alloc, setting, parts),
        Some(("wrong", text)) => Ok(Some(of_wrong(alloc, text)?)),
        Some(("wrong-nest", parts)) => of_wrong_nested(alloc, parts),
        Some(("column", parts)) => of_column(alloc, setting, parts),
        Some((word, parts)) => over_operation(alloc, setting, word, parts),
        None => Ok(None),
    }
}

// The tree and the canonical text of a formula.
fn of_text(alloc: Global, setting: &Setting, text: &str) -> Result<String, AllocError> {
    let text = with_controls(alloc, text)?;
    texts_of(alloc, setting.sheet, Home::Cell(setting.cell), &text)
}

// The text with control characters for their pictures.
fn with_controls(alloc: Global, text: &str) -> Result<String, AllocError> {
    let mut controlled = String::new(alloc);
    'characters: for character in text.chars() {
        controlled.push(match character {
            '␉' => '\t',
            '␊' => '\n',
            '␍' => '\r',
            other => other,
        })?;
    }
    Ok(controlled)
}

// The levels of a formula that nests.
fn of_nested(alloc: Global, setting: &Setting, parts: &str) -> Result<Option<String>, AllocError> {
    let Some(text) = nested(alloc, parts)? else {
        return Ok(None);
    };
    let levels = levels_of(alloc, setting.sheet, Home::Cell(setting.cell), &text)?;
    Ok(Some(format!(in alloc; "{levels}")?))
}

// Where a text goes wrong.
fn of_wrong(alloc: Global, text: &str) -> Result<String, AllocError> {
    let text = with_controls(alloc, text)?;
    wrong_place(alloc, &text)
}

// Where a text that nests goes wrong.
fn of_wrong_nested(alloc: Global, parts: &str) -> Result<Option<String>, AllocError> {
    match nested(alloc, parts)? {
        Some(text) => Ok(Some(wrong_place(alloc, &text)?)),
        None => Ok(None),
    }
}

// A text that nests: `=`, so many of a front, a middle, and so many of an end.
fn nested(alloc: Global, parts: &str) -> Result<Option<String>, AllocError> {
    let Some((count, front, middle, end)) = nested_parts(parts) else {
        return Ok(None);
    };
    let fronts = front.repeat(alloc, count)?;
    let ends = end.repeat(alloc, count)?;
    Ok(Some(format!(in alloc; "={fronts}{middle}{ends}")?))
}

// How often the front and the end stand in a formula that nests, the front, the middle and the end.
fn nested_parts(parts: &str) -> Option<(usize, &str, &str, &str)> {
    let (count, rest) = parts.split_once(';')?;
    let (front, rest) = rest.split_once(';')?;
    let (middle, end) = rest.split_once(';')?;
    Some((count.parse::<u32>().ok()? as usize, front, middle, end))
}

// The trees of a column of so many formulas.
fn of_column(alloc: Global, setting: &Setting, parts: &str) -> Result<Option<String>, AllocError> {
    match column_parts(parts) {
        Some((rows, text)) => {
            let trees = column_trees(alloc, setting.sheet, setting.cell, rows, text)?;
            Ok(Some(format!(in alloc; "{trees}")?))
        }
        None => Ok(None),
    }
}

// How many rows a column has, and their text.
fn column_parts(parts: &str) -> Option<(u32, &str)> {
    let (rows, text) = parts.split_once(';')?;
    Some((rows.parse::<u32>().ok()?, text))
}

// What the operation in front makes of what stands behind it.
fn over_operation(
    alloc: Global,
    setting: &Setting,
    word: &str,
    parts: &str,
) -> Result<Option<String>, AllocError> {
    let (operation, of) = parts.split_once(';').unwrap_or((parts, ""));
    match shift_of(alloc, operation)? {
        Some(shift) => of_operation(alloc, setting, word, &shift, of),
        None => Ok(None),
    }
}

// What the operation makes of a formula, of a place or of a block, or whether it fits its sheet.
fn of_operation(
    alloc: Global,
    setting: &Setting,
    word: &str,
    shift: &Shift,
    of: &str,
) -> Result<Option<String>, AllocError> {
    let found = match word {
        "shift" => shifted(alloc, setting.sheet, setting.cell, of, shift)?,
        "move" => moved(alloc, of, shift)?,
        "sound" => String::from_str(alloc, soundness(sound(shift)))?,
        _ => return Ok(None),
    };
    Ok(Some(found))
}

// Whether an operation is sound, in words.
fn soundness(is_sound: bool) -> &'static str {
    if is_sound { "sound" } else { "not sound" }
}
