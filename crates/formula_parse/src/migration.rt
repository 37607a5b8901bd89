// Formulas' texts and names that were written when a sheet had fewer rows.
ghost use Rattle.std.specs.Prelude.{◌≡◌, ◌≤◌, ◌∷◌, ◌++◌, IfOk, OnOk, Some, length, option_map, string_bytes};
ghost use Rattle.std.specs.List.{list_all, prefix_len};
ghost use Rattle.formula_parse.specs.Migrated.{IsFromOne, SpellsMigrated, begins_gap, is_gap_word, is_mark, is_new_row, is_unmarked, migrated, migrated_name, migrated_pieces, piece_before, stays_alone};
ghost use Rattle.formula_parse.specs.internal.Pieces.{piece_rest};

use crate::front::{
    after_blanks, after_byte, begins_with, begins_with_blank, begins_with_run, split_run,
};
use crate::lexer::{begins_number, fault_token, number_token, symbol};
use crate::run::corner_of;
use cell_addr::{Text, after_quoted, strip_prefix};
use formula_tree::Address;
use std::alloc::{AllocError, Global};

/// How many rows a sheet had in scripts of version 1.
pub const OLD_ROWS: u32 = 40_000;

/// A formula's text of version 1 as it is meant today. What was a name and is an address of a row behind the old last one
/// now, as `A50000`, gets one `_` more, and so does such a name with `_` behind it: so the text spells the tree that it
/// spelt, but for these names. A function's word, a sheet's name and a text between quotes stay, and so does a text that
/// doesn't begin with `=` or isn't made of words, numbers, texts, faults and signs. Costs about the length of the text.
pub fn migrated(alloc: Global, text: &str) -> Result<Text, AllocError>
    ensures text { IfOk result (λ new. new ≡ migrated text.now) }
    ensures tree { IfOk result (λ new. SpellsMigrated text.now new) }
{
    let Some(formula) = strip_prefix(text, '=') else {
        return Text::from_str(alloc, text);
    };
    match migrated_pieces(alloc, formula)? {
        Some(new) => Ok(Text::new(new)),
        None => Text::from_str(alloc, text),
    }
}

/// A name of version 1 as it is meant today: one `_` more where it is an address of a row behind the old last one now,
/// or such a word with `_` behind it. Two different names never become one.
pub fn migrated_name(alloc: Global, name: &str) -> Result<Text, AllocError>
    ensures name { IfOk result (λ new. new ≡ migrated_name name.now) }
    ensures apart { IfOk result (λ new. IsFromOne name.now new) }
{
    let mut new = String::from_str(alloc, name)?;
    if is_gap_word(name.as_bytes()) {
        new.push('_')?;
    }
    Ok(Text::new(new))
}

// The text `=` and what follows it, with each gap word changed; `None` where what follows isn't made of pieces.
fn migrated_pieces(alloc: Global, formula: &str) -> Result<Option<String>, AllocError>
    ensures { IfOk result (λ found. option_map (λ new. string_bytes new) found ≡ option_map (λ more. 61 ∷ more) (migrated_pieces formula.now)) }
{
    let mut new = String::from_str(alloc, "=")?;
    let mut rest = formula;
    'pieces: while !rest.is_empty() {
        let Some(after) = after_piece(rest) else {
            return Ok(None);
        };
        push_piece(&mut new, rest, after)?;
        rest = after;
    }
    Ok(Some(new))
}

// Adds the piece that the text has in front of the rest, with one `_` more where it is a gap word.
fn push_piece(new: &mut String, text: &str, rest: &str) -> Result<(), AllocError>
    requires { piece_rest text.now ≡ Some rest.now }
    ensures { OnOk result (string_bytes new.new ≡ string_bytes new.old ++ piece_before text.now rest.now) }
{
    let (piece, _) = text.split_at(text.len() - rest.len());
    new.push_str(piece)?;
    if begins_gap(text) {
        new.push('_')?;
    }
    Ok(())
}

// What follows the piece that the text begins with: a blank, a run, a number, a text between quotes, a name between
// apostrophes, a fault, `!`, or an operator or another sign.
fn after_piece(text: &str) -> Option<&str>
    ensures { option_map (λ rest. rest.now) result ≡ piece_rest text.now }
{
    let bytes = text.as_bytes();
    if begins_with_blank(bytes) || begins_with(bytes, b'!') {
        Some(after_byte(text))
    } else if begins_with_run(bytes) {
        Some(split_run(text).1)
    } else if begins_number(bytes) {
        Some(number_token(text).1)
    } else if begins_with(bytes, b'"') {
        after_quoted(after_byte(text), '"')
    } else if begins_with(bytes, b'\'') {
        after_quoted(after_byte(text), '\'')
    } else if begins_with(bytes, b'#') {
        Some(fault_token(text)?.1)
    } else {
        Some(symbol(text)?.1)
    }
}

// Whether the text begins with a gap word that is neither a sheet's name nor a function's word.
fn begins_gap(text: &str) -> bool
    ensures { result ≡ begins_gap text.now }
{
    let (run, rest) = split_run(text);
    is_gap_word(run.as_bytes()) && stays_alone(rest)
}

// Whether what follows a run makes it neither a sheet's name nor a function's word.
fn stays_alone(rest: &str) -> bool
    ensures { result ≡ stays_alone rest.now }
{
    !(begins_with(rest.as_bytes(), b'!') || begins_with(after_blanks(rest).as_bytes(), b'('))
}

// Whether the run is an address of a row behind the old last one, and then no or more `_`.
fn is_gap_word(run: &[u8]) -> bool
    ensures { result ≡ is_gap_word run.now }
{
    let (address, marks) = run.split_at(unmarked_count(run));
    is_new_row(corner_of(address)) && all_marks(marks)
}

// Whether the address is one of a row behind the old last one.
fn is_new_row(address: Option<Address>) -> bool
    ensures { result ≡ is_new_row address }
{
    match address {
        Some(address) => OLD_ROWS <= address.row,
        None => false,
    }
}

// How many bytes stand in front of the first `_`.
fn unmarked_count(run: &[u8]) -> usize
    ensures count { result ≡ prefix_len is_unmarked run.now }
    ensures within { result ≤ length run.now }
{
    run.iter().take_while(|c| **c != b'_').count()
}

// Whether each byte is a `_`.
fn all_marks(text: &[u8]) -> bool
    ensures { result ≡ list_all is_mark text.now }
{
    text.iter().all(|c| *c == b'_')
}
