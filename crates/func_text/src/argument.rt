// Texts among the arguments, their characters, and texts made of characters.
ghost use Rattle.std.specs.Prelude.{◌≡◌, ◌<◌, ◌≤◌, ◌+◌, Ok, IfOk, IfSome, MatchOption, length, chars, drop, encode_utf8_all};
ghost use Rattle.func_args.specs.Answers.{and_then};
ghost use Rattle.func_text.specs.Arguments.{made, one_text, text, text_and_count, two_texts};
ghost use Rattle.func_text.specs.internal.Shown.{shown_bytes};

use cell_addr::Text;
use cell_value::{Arg, FaultKind, Scalar};
use func_args::whole_of;
use std::alloc::{AllocError, Global};

/// What a person sees of an argument: a text of its own is borrowed, and of any other value it is made.
#[derive(Drop, Debug)]
pub(crate) enum Shown<'a> {
    Own(&'a Text),
    Made(Text),
}

impl<'a> Shown<'a> {
    /// The characters.
    pub(crate) fn as_str(&self) -> &str
        ensures { result.now ≡ shown_bytes self.now }
    {
        match self {
            Shown::Own(text) => text.as_str(),
            Shown::Made(text) => text.as_str(),
        }
    }
}

/// The text that the argument is: what a person sees of its value. A block is `Value`.
pub(crate) fn text_of<'a>(
    alloc: Global,
    argument: &'a Arg,
) -> Result<Result<Shown<'a>, FaultKind>, AllocError>
    ensures { IfOk result (λ answer. and_then answer (λ shown. Ok (shown_bytes shown)) ≡ text argument.now) }
{
    match argument {
        Arg::One(Scalar::Fault(fault)) => Ok(Err(*fault)),
        Arg::One(Scalar::Text(text)) => Ok(Ok(Shown::Own(text))),
        Arg::One(value) => Ok(Ok(Shown::Made(value.shown(alloc)?))),
        Arg::Many(_) => Ok(Err(FaultKind::Value)),
    }
}

/// `T`: one text.
pub(crate) fn one_text<'a>(
    alloc: Global,
    args: &'a [Arg],
) -> Result<Result<Shown<'a>, FaultKind>, AllocError>
    ensures { IfOk result (λ answer. and_then answer (λ shown. Ok (shown_bytes shown)) ≡ one_text args.now) }
{
    match args {
        [first] => text_of(alloc, first),
        _ => Ok(Err(FaultKind::Na)),
    }
}

/// `T, T`: two texts.
pub(crate) fn two_texts<'a>(
    alloc: Global,
    args: &'a [Arg],
) -> Result<Result<(Shown<'a>, Shown<'a>), FaultKind>, AllocError>
    ensures { IfOk result (λ answer. and_then answer (λ p. Ok (shown_bytes p.0, shown_bytes p.1)) ≡ two_texts args.now) }
{
    match args {
        [first, second] => match (text_of(alloc, first)?, text_of(alloc, second)?) {
            (Ok(a), Ok(b)) => Ok(Ok((a, b))),
            (Err(fault), _) | (_, Err(fault)) => Ok(Err(fault)),
        },
        _ => Ok(Err(FaultKind::Na)),
    }
}

/// `T [, N]`: a text and a count, which is 1 where it is absent.
pub(crate) fn text_and_count<'a>(
    alloc: Global,
    args: &'a [Arg],
) -> Result<Result<(Shown<'a>, i64), FaultKind>, AllocError>
    ensures { IfOk result (λ answer. and_then answer (λ p. Ok (shown_bytes p.0, p.1)) ≡ text_and_count args.now) }
{
    match args {
        [first] => match text_of(alloc, first)? {
            Ok(text) => Ok(Ok((text, 1))),
            Err(fault) => Ok(Err(fault)),
        },
        [first, second] => match (text_of(alloc, first)?, whole_of(second)) {
            (Ok(text), Ok(count)) => Ok(Ok((text, count))),
            (Err(fault), _) | (_, Err(fault)) => Ok(Err(fault)),
        },
        _ => Ok(Err(FaultKind::Na)),
    }
}

/// How many characters the text has.
pub(crate) fn count_characters(text: &str) -> u64
    ensures { result ≡ length (chars text.now) }
{
    text.chars().count() as u64
}

/// What follows so many characters, or `None` where there are fewer.
pub(crate) fn after_characters(text: &str, count: u64) -> Option<&str>
    ensures shorter { IfSome result (λ rest. count + length rest.now ≤ length text.now) }
    ensures rest { MatchOption result (length (chars text.now) < count) (λ rest. (count ≤ length (chars text.now)) × (chars rest.now ≡ drop count (chars text.now))) }
{
    let mut rest = text.chars();
    'characters: for _ in 0..count {
        rest.next()?;
    }
    Some(rest.as_str())
}

/// The text's characters.
pub(crate) fn characters(alloc: Global, text: &str) -> Result<Vec<char>, AllocError>
    ensures { IfOk result (λ found. found.items ≡ chars text.now) }
{
    let found: Vec<char> = text.chars().collect(alloc)?;
    Ok(found)
}

/// The text of these characters as a value.
pub(crate) fn made(alloc: Global, characters: &[char]) -> Result<Scalar, AllocError>
    ensures { IfOk result (λ value. value ≡ made characters.now) }
{
    let text: String = characters.iter().copied().collect(alloc)?;
    Ok(Scalar::made_text(Text::new(text)))
}
