//! A list of commands of any size, for runs that are to be measured.
//!
//! [`generate`] gives 2 commands a row, 6 for each hundred rows, and 2 at the end:
//!
//! ```text
//! generate(alloc, 1)?    set A1 37, set B1 =SUM($A$1:A1), value B1, formula B1
//! ```
#![tactic(auto)]

ghost use Rattle.std.specs.Prelude.{◌≡◌, ◌≤◌, ◌+◌, ◌-◌, ◌*◌, ◌/◌, ◌++◌, length, IfOk, OnOk};
ghost use Rattle.cell_addr.specs.Address.{spot_at};
ghost use Rattle.generator.specs.Generated.{asked, edit_commands, generated, row_commands};

use cell_addr::{Spot, Text};
use script_lang::Command;
use std::alloc::{AllocError, Global};

/// The greatest size of a list. This project's own limit.
pub const MAX_SIZE: u32 = 10_000;

// The sheet that rows are put into.
const SHEET: &str = "Sheet1";

// The columns of the numbers and of their sums.
const NUMBERS: u32 = 0;

const SUMS: u32 = 1;

/// The list of size `n`, from 1 to [`MAX_SIZE`]: numbers in column A and their sums in column B,
/// then for each hundred rows a row that is put in and one that is taken out, both undone after the
/// last sum was asked for, and at the end the last sum and its formula. Costs `n`.
pub fn generate(alloc: Global, n: u32) -> Result<Vec<Command>, AllocError>
    requires least { 1 ≤ n }
    requires most { n ≤ MAX_SIZE }
    ensures commands { IfOk result (λ commands. commands.items ≡ generated n) }
    ensures count { IfOk result (λ commands. length commands.items ≡ 2 * n + 6 * (n / 100) + 2) }
{
    let mut commands = Vec::new(alloc);
    'rows: for i in 0..n {
        fill_row(alloc, &mut commands, i + 1)?;
    }
    'edits: for j in 0..n / 100 {
        edit_and_undo(alloc, &mut commands, n, j + 1)?;
    }
    commands.push(Command::Value(place(n, SUMS)))?;
    commands.push(Command::Formula(place(n, SUMS)))?;
    Ok(commands)
}

// Puts the commands of row `i` at the end.
fn fill_row(alloc: Global, commands: &mut Vec<Command>, i: u32) -> Result<(), AllocError>
    requires least { 1 ≤ i }
    requires most { i ≤ MAX_SIZE }
    ensures { OnOk result (commands.new.items ≡ commands.old.items ++ row_commands i) }
{
    let number = 37 * i % 101;
    let number = format!(in alloc; "{number}")?;
    let sum = format!(in alloc; "=SUM($A$1:A{i})")?;
    commands.push(Command::Set(place(i, NUMBERS), Text::new(number)))?;
    commands.push(Command::Set(place(i, SUMS), Text::new(sum)))?;
    Ok(())
}

// Puts the commands of edit `j` in a list of size `n` at the end.
fn edit_and_undo(
    alloc: Global,
    commands: &mut Vec<Command>,
    n: u32,
    j: u32,
) -> Result<(), AllocError>
    requires least { 1 ≤ n }
    requires most { j ≤ MAX_SIZE }
    ensures { OnOk result (commands.new.items ≡ commands.old.items ++ edit_commands n j) }
{
    let row = 13 * j % n;
    commands.push(Command::InsertRows(Text::from_str(alloc, SHEET)?, row, 1))?;
    ask_and_undo(commands, n)?;
    commands.push(Command::DeleteRows(Text::from_str(alloc, SHEET)?, row, 1))?;
    ask_and_undo(commands, n)?;
    Ok(())
}

// Puts the commands at the end that ask for the last sum, and undo a step.
fn ask_and_undo(commands: &mut Vec<Command>, n: u32) -> Result<(), AllocError>
    requires { 1 ≤ n }
    ensures { OnOk result (commands.new.items ≡ commands.old.items ++ asked n) }
{
    commands.push(Command::Value(place(n, SUMS)))?;
    commands.push(Command::Undo)?;
    Ok(())
}

// The cell of row `i`, counted from 1, in a column, counted from 0.
fn place(i: u32, col: u32) -> Spot
    requires { 1 ≤ i }
    ensures { result ≡ spot_at (i - 1, col) }
{
    Spot {
        sheet: None,
        top: i - 1,
        left: col,
        bottom: i - 1,
        right: col,
        single: true,
    }
}
