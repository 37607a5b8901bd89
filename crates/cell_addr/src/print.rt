// The texts of columns and places: their canonical capitals.
ghost use Rattle.std.specs.Prelude.{◌≡◌, ◌+◌, ◌<◌, ◌++◌, IfOk, OnOk};
ghost use Rattle.std.specs.String.{string_bytes};
ghost use Rattle.cell_addr.specs.Address.{capital, column_letters, place_letters};

use crate::place::COLS;
use crate::text::Text;
use std::alloc::{AllocError, Global};

/// The letters of a column that is counted from 0: `A` of 0, `AA` of 26 and `ZZZ` of 18,277.
pub fn column_text(alloc: Global, col: u32) -> Result<Text, AllocError>
    requires { col < COLS }
    ensures { IfOk result (λ text. text ≡ column_letters col) }
{
    let mut content = String::new(alloc);
    push_column(&mut content, col)?;
    Ok(Text::new(content))
}

/// The address of a row and a column that are counted from 0: `B5` of row 4 and column 1.
pub fn place_text(alloc: Global, row: u32, col: u32) -> Result<Text, AllocError>
    requires { col < COLS }
    ensures { IfOk result (λ text. text ≡ place_letters row col) }
{
    let number = format!(in alloc; "{}", u64::from(row) + 1)?;
    let mut content = String::new(alloc);
    push_column(&mut content, col)?;
    content.push_str(&number)?;
    Ok(Text::new(content))
}

// Writes the letters of a column.
fn push_column(content: &mut String, col: u32) -> Result<(), AllocError>
    requires { col < COLS }
    ensures { OnOk result (string_bytes content.new ≡ string_bytes content.old ++ column_letters col) }
{
    if col < 26 {
        content.push(capital(col))?;
    } else if col < 702 {
        content.push(capital((col - 26) / 26))?;
        content.push(capital((col - 26) % 26))?;
    } else {
        content.push(capital((col - 702) / 676))?;
        content.push(capital((col - 702) / 26 % 26))?;
        content.push(capital((col - 702) % 26))?;
    }
    Ok(())
}

// The capital of a number from 0 for A to 25 for Z.
fn capital(number: u32) -> char
    requires { number < 26 }
    ensures { result ≡ capital number }
{
    char::from(b'A' + number as u8)
}
