// Contents that texts give, and the form of names.
use book_model::{ContentText, Refusal, is_name, is_sheet_name, read_content, text_given};
use std::alloc::{AllocError, Global};

// Texts given to a cell, and the kinds of their contents.
const CONTENTS: &[(&str, &str)] = &[
    ("", "nothing"),
    ("=1", "formula"),
    ("-3", "number"),
    ("true", "true"),
    ("'5", "text"),
    ("x", "text"),
];

// The kind of a content.
fn kind_of(content: &ContentText) -> &'static str {
    match content {
        ContentText::Clear => "nothing",
        ContentText::Formula(_) => "formula",
        ContentText::Number(_) => "number",
        ContentText::Truth(true) => "true",
        ContentText::Truth(false) => "false",
        ContentText::Text(_) => "text",
    }
}

// Whether the text gives a content of the kind.
fn gives(alloc: Global, text: &str, kind: &str) -> Result<bool, AllocError> {
    let content = read_content(alloc, text)?;
    Ok(kind_of(&content) == kind)
}

// Whether the content of these letters is given by the text.
fn is_given_by(alloc: Global, letters: &str, text: &str) -> Result<bool, AllocError> {
    Ok(text_given(alloc, letters)?.as_str() == text)
}

// A text given to a cell clears it, or is a formula, a number, a truth value or a text.
#[test]
fn texts_give_contents(rt: HostRuntime) -> Result<(), AllocError> {
    for (text, kind) in CONTENTS {
        assert!(rt; gives(rt.alloc(), text, kind)?, "{text}");
    }
    assert!(rt; is_given_by(rt.alloc(), "5", "'5")?);
    assert!(rt; is_given_by(rt.alloc(), "x", "x")?);
    Ok(())
}

// The form of a sheet's name, and the number and name of a refusal.
#[test]
fn names_and_refusals(rt: HostRuntime) {
    assert!(rt; is_sheet_name("My Plan"));
    assert!(rt; !is_sheet_name(""));
    assert!(rt; !is_sheet_name("a\tb"));
    assert!(rt; is_name("_rate.2") && is_name("A0") && is_name("ABCD1"));
    assert!(rt; !is_name("b7") && !is_name("True") && !is_name("2a") && !is_name(""));
    assert!(rt; Refusal::SheetLimit.number() == 19);
    assert!(rt; Refusal::SheetLimit.name() == "SheetLimit");
}
