// Calls of addresses and of the texts in them.
use cell_addr::{
    AddrError, COLS, Spot, Text, after_quoted, capitals, column_text, is_bare_name, place_text,
    quoted_text, read_address, read_area, read_column, read_place, read_row, same_folded,
};
use cell_value::{Arg, Scalar};
use std::alloc::{AllocError, Global};

/// What a call of addresses answers, as a text; `None` where it is none.
pub(crate) fn address_answer(
    alloc: Global,
    word: &str,
    args: &[Arg],
) -> Result<Option<Scalar>, AllocError> {
    let answer = match args {
        [Arg::One(Scalar::Text(text))] => of_text(alloc, word, text.as_str())?,
        [Arg::One(Scalar::Text(text)), Arg::One(Scalar::Text(other))] => {
            of_texts(alloc, word, text.as_str(), other.as_str())?
        }
        _ => None,
    };
    match answer {
        Some(answer) => Ok(Some(Scalar::Text(Text::new(answer)))),
        None => Ok(None),
    }
}

// What the call of one text answers.
fn of_text(alloc: Global, word: &str, text: &str) -> Result<Option<String>, AllocError> {
    match word {
        "read_place" => Ok(Some(place(alloc, text)?)),
        "column_text" => of_column(alloc, text),
        "quoted_text" => quoted(alloc, text),
        "capitals" => Ok(Some(String::from_str(alloc, capitals(alloc, text)?.as_str())?)),
        "after_quoted" => Ok(Some(String::from_str(
            alloc,
            after_quoted(text, '\'').unwrap_or("none"),
        )?)),
        _ => of_bytes(alloc, word, text.as_bytes()),
    }
}

// What the call of some bytes answers.
fn of_bytes(alloc: Global, word: &str, bytes: &[u8]) -> Result<Option<String>, AllocError> {
    match word {
        "read_area" => Ok(Some(area(alloc, read_area(bytes))?)),
        "read_address" => Ok(Some(cell(alloc, read_address(bytes))?)),
        "read_column" => Ok(Some(line(alloc, read_column(bytes))?)),
        "read_row" => Ok(Some(line(alloc, read_row(bytes))?)),
        "is_bare_name" => Ok(Some(truth(alloc, is_bare_name(bytes))?)),
        _ => Ok(None),
    }
}

// What the call of two texts answers.
fn of_texts(
    alloc: Global,
    word: &str,
    first: &str,
    second: &str,
) -> Result<Option<String>, AllocError> {
    match word {
        "same_folded" => Ok(Some(truth(alloc, same_folded(first, second))?)),
        "place_text" => of_place(alloc, first, second),
        _ => Ok(None),
    }
}

// A truth value.
fn truth(alloc: Global, truth: bool) -> Result<String, AllocError> {
    String::from_str(alloc, if truth { "yes" } else { "no" })
}

// A row or a column.
fn line(alloc: Global, line: Option<u32>) -> Result<String, AllocError> {
    match line {
        Some(line) => format!(in alloc; "{line}"),
        None => String::from_str(alloc, "none"),
    }
}

// The row and the column of a cell.
fn cell(alloc: Global, cell: Option<(u32, u32)>) -> Result<String, AllocError> {
    match cell {
        Some((row, col)) => format!(in alloc; "{row} {col}"),
        None => String::from_str(alloc, "none"),
    }
}

// The corners of an area.
fn area(alloc: Global, area: Option<Spot>) -> Result<String, AllocError> {
    match area {
        Some(spot) => corners(alloc, "-", &spot),
        None => String::from_str(alloc, "none"),
    }
}

// The sheet and the corners of an address, `-` where no sheet is written.
fn place(alloc: Global, text: &str) -> Result<String, AllocError> {
    match read_place(alloc, text) {
        Ok(spot) => match &spot.sheet {
            Some(sheet) => corners(alloc, sheet.as_str(), &spot),
            None => corners(alloc, "-", &spot),
        },
        Err(AddrError::NotAnAddress) => String::from_str(alloc, "NotAnAddress"),
        Err(AddrError::NoMemory) => Err(AllocError),
    }
}

// A sheet's name and the corners of a spot, and whether it is a single place.
fn corners(alloc: Global, sheet: &str, spot: &Spot) -> Result<String, AllocError> {
    let kind = if spot.single { "place" } else { "block" };
    format!(in alloc;
        "{sheet} {} {} {} {} {kind}",
        spot.top, spot.left, spot.bottom, spot.right
    )
}

// The letters of the column of a number.
fn of_column(alloc: Global, col: &str) -> Result<Option<String>, AllocError> {
    match col.parse::<u32>() {
        Ok(col) if col < COLS => {
            let letters = column_text(alloc, col)?;
            Ok(Some(String::from_str(alloc, letters.as_str())?))
        }
        _ => Ok(None),
    }
}

// The address of the place in a row and a column.
fn of_place(alloc: Global, row: &str, col: &str) -> Result<Option<String>, AllocError> {
    match (row.parse::<u32>(), col.parse::<u32>()) {
        (Ok(row), Ok(col)) if col < COLS => {
            let address = place_text(alloc, row, col)?;
            Ok(Some(String::from_str(alloc, address.as_str())?))
        }
        _ => Ok(None),
    }
}

// The content of the quoted text that a text begins with.
fn quoted(alloc: Global, text: &str) -> Result<Option<String>, AllocError> {
    match quoted_text(alloc, text, '\'')? {
        Some(content) => Ok(Some(String::from_str(alloc, content.as_str())?)),
        None => Ok(Some(String::from_str(alloc, "none")?)),
    }
}
