// What the text given to a cell says.
ghost use Rattle.std.specs.Prelude.{◌≡◌, IfOk};
ghost use Rattle.cell_value.specs.Scalar.{read_truth};
ghost use Rattle.book_model.specs.Content.{content_of, text_content, word_content, is_kept, text_given};

use cell_addr::Text;
use cell_value::Scalar;
use fix_num::Fixed;
use std::alloc::{AllocError, Global};

/// What a text says when it is given to a cell. This project's own.
#[derive(Drop, Debug)]
pub enum ContentText {
    /// The cell becomes empty.
    Clear,
    /// A formula, as its whole text.
    Formula(Text),
    /// A number.
    Number(Fixed),
    /// A truth value.
    Truth(bool),
    /// A text.
    Text(Text),
}

/// What the text says: nothing clears the cell; a text with `=` in front is a formula; a text that
/// spells a number in range is that number; TRUE and FALSE in any case are truth values; a text with
/// an apostrophe in front is the text after it; every other text is itself.
pub fn read_content(alloc: Global, text: &str) -> Result<ContentText, AllocError>
    ensures { IfOk result (λ content. content ≡ content_of text.now) }
{
    if text.is_empty() {
        return Ok(ContentText::Clear);
    }
    if text.starts_with('=') {
        return Ok(ContentText::Formula(Text::from_str(alloc, text)?));
    }
    match Fixed::from_text(text) {
        Ok(number) => Ok(ContentText::Number(number)),
        Err(_) => read_word(alloc, text),
    }
}

// What a text says that is no formula and no number.
fn read_word(alloc: Global, text: &str) -> Result<ContentText, AllocError>
    ensures { IfOk result (λ content. content ≡ word_content (read_truth text.now) text.now) }
{
    let word = Scalar::Text(Text::from_str(alloc, text)?);
    match word.as_truth() {
        Ok(truth) => Ok(ContentText::Truth(truth)),
        Err(_) => read_text(alloc, text),
    }
}

// The text after an apostrophe in front, or the whole text.
fn read_text(alloc: Global, text: &str) -> Result<ContentText, AllocError>
    ensures { IfOk result (λ content. content ≡ text_content text.now) }
{
    match text.strip_prefix('\'') {
        Some(rest) => Ok(ContentText::Text(Text::from_str(alloc, rest)?)),
        None => Ok(ContentText::Text(Text::from_str(alloc, text)?)),
    }
}

/// The text that gives this text to a cell: itself, or with an apostrophe in front where by itself it would give something
/// else. This project's own.
pub fn text_given(alloc: Global, text: &str) -> Result<Text, AllocError>
    ensures { IfOk result (λ given. given ≡ text_given text.now) }
{
    let content = read_content(alloc, text)?;
    let front = if is_kept(&content, text) { "" } else { "'" };
    let mut given = String::from_str(alloc, front)?;
    given.push_str(text)?;
    Ok(Text::new(given))
}

// Whether what a text gives is this text.
fn is_kept(content: &ContentText, text: &str) -> bool
    ensures { result ≡ is_kept content.now text.now }
{
    match content {
        ContentText::Text(kept) => kept.as_str() == text,
        _ => false,
    }
}
