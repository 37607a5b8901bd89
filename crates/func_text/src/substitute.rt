// SUBSTITUTE.
ghost use Rattle.std.specs.Prelude.{◌≡◌, ◌<◌, ◌++◌, IfOk, OnOk, chars, length, string_bytes};
ghost use Rattle.func_text.specs.Arguments.{made};
ghost use Rattle.func_text.specs.Substitute.{replaced, replaced_all, stands_for, substitute_value, substituted};

use crate::argument::text_of;
use cell_addr::Text;
use cell_value::{Arg, FaultKind, MAX_MADE_TEXT, Scalar};
use func_args::whole_of;
use std::alloc::{AllocError, Global};

/// `SUBSTITUTE(T, T, T [, N])`: the first text with the third in place of the second.
pub(crate) fn substitute_value(alloc: Global, args: &[Arg]) -> Result<Scalar, AllocError>
    ensures { IfOk result (λ value. value ≡ substitute_value args.now) }
{
    match args {
        [a, b, c] => match (text_of(alloc, a)?, text_of(alloc, b)?, text_of(alloc, c)?) {
            (Ok(text), Ok(old), Ok(new)) => {
                substituted(alloc, text.as_str(), old.as_str(), new.as_str(), None)
            }
            (Err(fault), _, _) | (_, Err(fault), _) | (_, _, Err(fault)) => {
                Ok(Scalar::Fault(fault))
            }
        },
        [a, b, c, d] => {
            match (
                text_of(alloc, a)?,
                text_of(alloc, b)?,
                text_of(alloc, c)?,
                whole_of(d),
            ) {
                (Ok(text), Ok(old), Ok(new), Ok(number)) => substituted(
                    alloc,
                    text.as_str(),
                    old.as_str(),
                    new.as_str(),
                    Some(number),
                ),
                (Err(fault), _, _, _)
                | (_, Err(fault), _, _)
                | (_, _, Err(fault), _)
                | (_, _, _, Err(fault)) => Ok(Scalar::Fault(fault)),
            }
        }
        _ => Ok(Scalar::Fault(FaultKind::Na)),
    }
}

// The text with the new one in place of each occurrence of the old one, or of the one of this number.
fn substituted(
    alloc: Global,
    text: &str,
    old: &str,
    new: &str,
    number: Option<i64>,
) -> Result<Scalar, AllocError>
    ensures { IfOk result (λ value. value ≡ substituted text.now old.now new.now number) }
{
    match number {
        Some(number) if number < 1 => Ok(Scalar::Fault(FaultKind::Value)),
        Some(number) => replaced_all(alloc, text, old, new, Some(number.unsigned_abs())),
        None => replaced_all(alloc, text, old, new, None),
    }
}

// The text with the new one in place of the occurrences that are meant. A text of no characters occurs
// nowhere.
fn replaced_all(
    alloc: Global,
    text: &str,
    old: &str,
    new: &str,
    which: Option<u64>,
) -> Result<Scalar, AllocError>
    ensures { IfOk result (λ value. value ≡ made (replaced_all which (chars old.now) (chars new.now) (chars text.now))) }
{
    if old.is_empty() {
        Ok(Scalar::made_text(Text::from_str(alloc, text)?))
    } else {
        replaced(alloc, text, old, new, which)
    }
}

// The text with the new one in place of the occurrences that are meant, as a value. It ends where the
// text is too long already.
fn replaced(
    alloc: Global,
    text: &str,
    old: &str,
    new: &str,
    which: Option<u64>,
) -> Result<Scalar, AllocError>
    requires { 0 < length old.now }
    ensures { IfOk result (λ value. value ≡ made (replaced which (chars old.now) (chars new.now) 1 0 (chars text.now))) }
{
    let mut kept = String::new(alloc);
    let mut rest = text;
    let mut number = 1u64;
    'occurrences: while let Some((before, after)) = rest.split_once(old) {
        append(&mut kept, before)?;
        append(&mut kept, stands_for(which, number, old, new))?;
        if kept.len() > MAX_MADE_TEXT {
            return Ok(Scalar::Fault(FaultKind::Value));
        }
        number += 1;
        rest = after;
    }
    append(&mut kept, rest)?;
    Ok(Scalar::made_text(Text::new(kept)))
}

// Adds the text at the end.
fn append(kept: &mut String, text: &str) -> Result<(), AllocError>
    ensures { OnOk result (string_bytes kept.new ≡ string_bytes kept.old ++ text.now) }
{
    kept.push_str(text)
}

// What stands for the occurrence of this number: the new text where that is meant, else the old one.
fn stands_for<'a>(which: Option<u64>, number: u64, old: &'a str, new: &'a str) -> &'a str
    ensures { result.now ≡ stands_for which old.now new.now number }
{
    match which {
        Some(meant) if meant != number => old,
        _ => new,
    }
}
