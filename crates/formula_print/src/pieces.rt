// Writes the pieces of formulas that have no parts.
ghost use Rattle.std.specs.Prelude.{◌≡◌, ◌<◌, ◌++◌, Some, [], IfOk, OnOk, string_bytes};
ghost use Rattle.cell_addr.specs.Place.{IsInside};
ghost use Rattle.cell_value.specs.Scalar.{truth_text};
ghost use Rattle.formula_tree.specs.Canonical.{dollar, between_quotes, line_text, corner_text, sheet_text};
ghost use Rattle.formula_print.specs.internal.Appends.{AppendsText};

use cell_addr::{Axis, Text, column_text, is_bare_name, split_once};
use formula_tree::Corner;
use std::alloc::{AllocError, Global};

// How a truth value is written.
pub(crate) fn truth_text(truth: bool) -> &'static str
    ensures { result.now ≡ truth_text truth }
{
    if truth { "TRUE" } else { "FALSE" }
}

// Writes a corner, which lies within the limits of a sheet.
pub(crate) fn push_corner(alloc: Global, out: &mut String, corner: Corner) -> Result<(), AllocError>
    requires { IsInside corner.at }
    ensures { OnOk result (AppendsText (string_bytes out.old) (string_bytes out.new) (corner_text corner)) }
{
    push_line(alloc, out, Axis::Cols, corner)?;
    push_line(alloc, out, Axis::Rows, corner)?;
    Ok(())
}

// Writes the row or the column of a corner, which lies within the limits of a sheet.
pub(crate) fn push_line(
    alloc: Global,
    out: &mut String,
    axis: Axis,
    corner: Corner,
) -> Result<(), AllocError>
    requires { IsInside corner.at }
    ensures { OnOk result (AppendsText (string_bytes out.old) (string_bytes out.new) (line_text axis corner)) }
{
    match axis {
        Axis::Rows => {
            let row = format!(in alloc; "{}", u64::from(corner.at.row) + 1)?;
            push_dollar(out, corner.row_fixed)?;
            out.push_str(&row)?;
            Ok(())
        }
        Axis::Cols => {
            let column = column_text(alloc, corner.at.col)?;
            push_dollar(out, corner.col_fixed)?;
            out.push_str(column.as_str())?;
            Ok(())
        }
    }
}

// Writes a `$` in front of what is fixed.
fn push_dollar(out: &mut String, fixed: bool) -> Result<(), AllocError>
    ensures { OnOk result (AppendsText (string_bytes out.old) (string_bytes out.new) (dollar fixed)) }
{
    if fixed {
        out.push('$')?;
    }
    Ok(())
}

// Writes a sheet's name and `!`.
pub(crate) fn push_sheet(out: &mut String, name: &Text) -> Result<(), AllocError>
    ensures { OnOk result (AppendsText (string_bytes out.old) (string_bytes out.new) (sheet_text (Some name.now))) }
{
    if is_bare_name(name.as_bytes()) {
        out.push_str(name.as_str())?;
    } else {
        push_quoted(out, '\'', name.as_str())?;
    }
    out.push('!')?;
    Ok(())
}

// Writes a content between quotes, with each quote inside twice.
pub(crate) fn push_quoted(out: &mut String, quote: char, content: &str) -> Result<(), AllocError>
    requires { quote < 128 }
    ensures { OnOk result (AppendsText (string_bytes out.old) (string_bytes out.new) (between_quotes quote content.now)) }
{
    out.push(quote)?;
    let mut rest = content;
    'pieces: while let Some((piece, after)) = split_once(rest, quote) {
        out.push_str(piece)?;
        out.push(quote)?;
        out.push(quote)?;
        rest = after;
    }
    out.push_str(rest)?;
    out.push(quote)?;
    Ok(())
}
