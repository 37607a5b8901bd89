// TRIM.
ghost use Rattle.std.specs.Prelude.{◌≡◌, IfOk};
ghost use Rattle.func_text.specs.Trim.{trim_value, trimmed};
ghost use Rattle.func_text.specs.internal.Trim.{after_space};

use crate::argument::{characters, made, one_text};
use cell_value::{Arg, Scalar};
use std::alloc::{AllocError, Global};

/// What TRIM takes away: the space U+0020, and no other blank.
const SPACE: char = ' ';

/// Where the walk through a text stands.
#[derive(Clone, Copy, PartialEq, Eq, Debug)]
enum Reached {
    /// Before the first word.
    Start,
    /// In a word.
    Word,
    /// After a word and a space.
    Gap,
}

/// `TRIM(T)`: the text without spaces at its ends, and with one between words.
pub(crate) fn trim_value(alloc: Global, args: &[Arg]) -> Result<Scalar, AllocError>
    ensures { IfOk result (λ value. value ≡ trim_value args.now) }
{
    match one_text(alloc, args)? {
        Ok(text) => {
            let found = characters(alloc, text.as_str())?;
            let kept = trimmed(alloc, &found)?;
            made(alloc, &kept)
        }
        Err(fault) => Ok(Scalar::Fault(fault)),
    }
}

// The characters that stay.
fn trimmed(alloc: Global, found: &[char]) -> Result<Vec<char>, AllocError>
    ensures { IfOk result (λ kept. kept.items ≡ trimmed found.now) }
{
    let mut kept = Vec::new(alloc);
    let mut reached = Reached::Start;
    'characters: for c in found {
        if *c == SPACE {
            reached = after_space(reached);
            continue;
        }
        if reached == Reached::Gap {
            kept.push(SPACE)?;
        }
        kept.push(*c)?;
        reached = Reached::Word;
    }
    Ok(kept)
}

// Where the walk stands after a space.
fn after_space(reached: Reached) -> Reached
    ensures { result ≡ after_space reached }
{
    match reached {
        Reached::Start => Reached::Start,
        Reached::Word | Reached::Gap => Reached::Gap,
    }
}
