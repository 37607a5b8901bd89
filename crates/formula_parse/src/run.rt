// Runs: sequences of letters, digits, `_`, `.` and `$`, and what they are.
ghost use Rattle.std.specs.Prelude.{◌≡◌, ◌≤◌, ◌||◌, ◌==◌, IfSome, length};
ghost use Rattle.std.specs.List.{list_all, prefix_len};
ghost use Rattle.std.specs.Char.{is_ascii_alphabetic, is_ascii_alphanumeric};
ghost use Rattle.cell_addr.specs.Axis.{limit_of};
ghost use Rattle.formula_tree.specs.Run.{is_word, after_dollar, address_at, corner_after, corner_of, end_at, end_after, end_of_run, truth_of, word_token, lone_token, ends_sheet_name, is_sheet_run, run_token};
ghost use Rattle.formula_parse.specs.internal.Front.{token_of, IsEndInside};

use crate::front::{after_blanks, after_byte, begins_with, begins_with_blank, begins_with_digit};
use crate::token::Token;
use cell_addr::{Axis, COLS, ROWS, is_bare_name, is_word, read_column, read_row, same_folded};
use formula_tree::{Address, End};

// What the run is, and what follows it: before `!` a sheet's name, before `(` a function's word, then an
// address, a truth value, a name.
pub(crate) fn run_token<'t>(run: &'t str, rest: &'t str) -> (Token<'t>, &'t str)
    ensures { (token_of result.0, result.1.now) ≡ run_token run.now rest.now }
{
    if is_sheet_run(run.as_bytes(), rest.as_bytes()) {
        (Token::Sheet(run), after_byte(rest))
    } else if begins_with(after_blanks(rest).as_bytes(), b'(') {
        if is_word(run.as_bytes()) {
            (Token::Word(run), rest)
        } else {
            (Token::Other(run), rest)
        }
    } else {
        (lone_token(run), rest)
    }
}

// Whether `!` stands in front of the text, and no blank after that.
pub(crate) fn ends_sheet_name(text: &[u8]) -> bool
    ensures { result ≡ ends_sheet_name text.now }
{
    match text {
        [b'!', rest @ ..] => !begins_with_blank(rest),
        _ => false,
    }
}

// Whether the run is a sheet's name.
fn is_sheet_run(run: &[u8], rest: &[u8]) -> bool
    ensures { result ≡ is_sheet_run run.now rest.now }
{
    is_bare_name(run) && ends_sheet_name(rest)
}

// What a run is that stands alone: an address before it is anything else.
fn lone_token(run: &str) -> Token<'_>
    ensures { token_of result ≡ lone_token run.now (corner_of run.now) }
{
    match corner_of(run.as_bytes()) {
        Some(address) => Token::Corner(address),
        None => word_token(run),
    }
}

// What a run is that is no address: a truth value, or a name where it has the form of one, or neither.
fn word_token(run: &str) -> Token<'_>
    ensures { token_of result ≡ word_token run.now (truth_of run.now) }
{
    match truth_of(run) {
        Some(truth) => Token::Truth(truth),
        None if is_word(run.as_bytes()) => Token::Name(run),
        None => Token::Other(run),
    }
}

// The truth value that the run is, in letters of any case.
fn truth_of(run: &str) -> Option<bool>
    ensures { result ≡ truth_of run.now }
{
    if same_folded(run, "TRUE") {
        Some(true)
    } else if same_folded(run, "FALSE") {
        Some(false)
    } else {
        None
    }
}

// The address that the run is: letters and digits, each with a `$` in front or without.
pub(crate) fn corner_of(run: &[u8]) -> Option<Address>
    ensures { result ≡ corner_of run.now }
{
    corner_after(begins_with(run, b'$'), after_dollar(run))
}

// The same, of what follows the `$` of the column.
fn corner_after(col_fixed: bool, text: &[u8]) -> Option<Address>
    ensures { result ≡ corner_after col_fixed text.now }
{
    let (letters, rest) = text.split_at(letters_count(text));
    let row = read_row(after_dollar(rest))?;
    let col = read_column(letters)?;
    address_at(col_fixed, begins_with(rest, b'$'), row, col)
}

// The address of the row and the column, where they lie within the limits.
fn address_at(col_fixed: bool, row_fixed: bool, row: u32, col: u32) -> Option<Address>
    ensures { result ≡ address_at col_fixed row_fixed (row, col) }
{
    if row < ROWS && col < COLS {
        Some(Address {
            row,
            col,
            row_fixed,
            col_fixed,
        })
    } else {
        None
    }
}

// The end of a whole range that a run or the digits of a number are: a column's letters or a row's digits, with
// a `$` in front or without.
pub(crate) fn end_of_run(run: &[u8]) -> Option<End>
    ensures end { result ≡ end_of_run ROWS run.now }
    ensures inside { IfSome result IsEndInside }
{
    end_after(begins_with(run, b'$'), after_dollar(run))
}

// The same, of what follows the `$`.
fn end_after(fixed: bool, text: &[u8]) -> Option<End>
    ensures end { result ≡ end_after ROWS fixed text.now }
    ensures inside { IfSome result IsEndInside }
{
    if begins_with_digit(text) {
        let row = read_row(text)?;
        end_at(Axis::Rows, fixed, row)
    } else {
        let col = read_column(text)?;
        end_at(Axis::Cols, fixed, col)
    }
}

// The end at the line, where that lies within the limit.
fn end_at(axis: Axis, fixed: bool, line: u32) -> Option<End>
    ensures end { result ≡ end_at axis fixed (limit_of axis) line }
    ensures inside { IfSome result IsEndInside }
{
    if line < axis.limit() {
        Some(End { axis, line, fixed })
    } else {
        None
    }
}

// What follows a `$`, or the whole text where it begins with none.
fn after_dollar(text: &[u8]) -> &[u8]
    ensures { result.now ≡ after_dollar text.now }
{
    match text {
        [b'$', rest @ ..] => rest,
        _ => text,
    }
}

// How many letters the text begins with.
fn letters_count(text: &[u8]) -> usize
    ensures count { result ≡ prefix_len is_ascii_alphabetic text.now }
    ensures within { result ≤ length text.now }
{
    text.iter().take_while(|c| c.is_ascii_alphabetic()).count()
}
