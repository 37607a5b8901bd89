// The words read.
ghost use Rattle.std.specs.Prelude.{◌≡◌, ◌≤◌, ◌==◌, ◌&&◌, ◌||◌, [], IfOk, true, false, is_none, length, map, option_map, string_bytes, unwrap_or, not, codes};
ghost use Rattle.std.specs.Option.{option_copied};
ghost use Rattle.std.specs.List.{list_all};
ghost use Rattle.clap.specs.Words.{all_of, app_of, first_of, found_of, rows_of, rule_of, with_rule};
ghost use Rattle.digits.specs.Digits.{value};
ghost use Rattle.command_words.specs.Words.{Answers, IsInRange, seen, bare_app, begins_with_dash, flag_rule, option_rule, other_rule, given_of, is_accepted, is_number, is_true, is_value, meaning, passes, said_of, sheet_app};
ghost use Rattle.command_words.specs.internal.Found.{given, texts};

use crate::error::WordsError;
use crate::said::{DEFAULT_UNDO, GENERATE_DIGITS, MAX_GENERATE, MAX_UNDO, UNDO_DIGITS, Words};
use cell_addr::Text;
use clap::error::ErrorKind;
use clap::{Arg, ArgAction, ArgMatches, Command};
use digits::{all_digits, value_at_most};
use std::alloc::{AllocError, Global};

// Above each number that is accepted.
const ABOVE: u64 = 100_000;

/// What the words behind the program's name say.
///
/// An option's value is the next word, or stands behind `=`; it isn't empty and doesn't begin with
/// `-`. The word `--` ends the options. No option or flag stands twice, and no other word begins
/// with `-`. `--undo-limit` takes up to 4 digits of a value up to 1,000, and `--generate` up to 5
/// digits of a value from 1 to 10,000; the latter stands with neither `--script` nor a book. Costs
/// the length of the words.
///
/// # Errors
/// `Usage` exactly where the words are outside this, and `NoMemory`.
pub fn words(alloc: Global, words: &[String]) -> Result<Words, WordsError>
    ensures answers { Answers result (meaning (map string_bytes words.now)) }

    // The numbers lie in their ranges.
    ensures range { IfOk result (λ words. IsInRange (seen words)) }
{
    let command = command(alloc)?;
    match command.try_get_matches_from(words) {
        Ok(matches) => said(alloc, &matches),
        Err(error) if error.kind() == ErrorKind::OutOfMemory => Err(WordsError::NoMemory),
        Err(_) => Err(WordsError::Usage),
    }
}

// The command.
fn command<'a>(alloc: Global) -> Result<Command<'a>, AllocError>
    ensures { IfOk result (λ command. app_of command ≡ sheet_app) }
{
    let command = with(bare(alloc), option(alloc, "undo-limit"))?;
    let command = with(command, flag(alloc, "strict"))?;
    let command = with(command, option(alloc, "script"))?;
    let command = with(command, option(alloc, "generate"))?;
    let command = with(command, other(alloc, "book"))?;
    Ok(command)
}

// The command without its arguments.
fn bare<'a>(alloc: Global) -> Command<'a>
    ensures { app_of result ≡ bare_app (codes "sheetrun") }
{
    Command::new(alloc, "sheetrun")
        .no_binary_name(true)
        .disable_help_flag(true)
        .disable_version_flag(true)
}

// The command with one more argument.
fn with<'a>(command: Command<'a>, arg: Arg<'a>) -> Result<Command<'a>, AllocError>
    requires { arg.global ≡ false }
    ensures { IfOk result (λ with. app_of with ≡ with_rule (app_of command.entry) (rule_of arg.entry)) }
{
    command.arg(arg)
}

// An option with one value.
fn option<'a>(alloc: Global, name: &'a str) -> Arg<'a>
    ensures rule { rule_of result ≡ option_rule name.now }
    ensures own { result.global ≡ false }
{
    Arg::new(alloc, name).long(name).action(ArgAction::Set)
}

// A flag.
fn flag<'a>(alloc: Global, name: &'a str) -> Arg<'a>
    ensures rule { rule_of result ≡ flag_rule name.now }
    ensures own { result.global ≡ false }
{
    Arg::new(alloc, name).long(name).action(ArgAction::SetTrue)
}

// The words that are neither options nor values.
fn other<'a>(alloc: Global, name: &'a str) -> Arg<'a>
    ensures rule { rule_of result ≡ other_rule name.now }
    ensures own { result.global ≡ false }
{
    Arg::new(alloc, name).action(ArgAction::Append)
}

// What was found says, where it is accepted.
fn said<'a>(alloc: Global, matches: &ArgMatches<'a>) -> Result<Words, WordsError>
    ensures { Answers result (said_of (given_of (rows_of (found_of matches.now)))) }
{
    match matches.get_strs("book") {
        Some(books) => said_beside(alloc, matches, books),
        None => said_beside(alloc, matches, &[]),
    }
}

// The same, where these are the books.
fn said_beside<'a>(
    alloc: Global,
    matches: &ArgMatches<'a>,
    books: &[&'a str],
) -> Result<Words, WordsError>
    requires { texts books.now ≡ unwrap_or (all_of (codes "book") (rows_of (found_of matches.now))) [] }
    ensures { Answers result (said_of (given_of (rows_of (found_of matches.now)))) }
{
    let undo_limit = value_of(matches, "undo-limit");
    let strict = is_true(value_of(matches, "strict"));
    let script = value_of(matches, "script");
    let generate = value_of(matches, "generate");
    if !is_accepted(undo_limit, strict, script, generate, books) {
        return Err(WordsError::Usage);
    }
    Ok(Words {
        undo_limit: undo_limit_of(undo_limit),
        strict,
        script: copied(alloc, script)?,
        generate: size_of(generate),
        books: copies(alloc, books)?,
    })
}

// The value of an option or a flag, where it is there.
fn value_of<'a>(matches: &ArgMatches<'a>, name: &str) -> Option<&'a str>
    ensures { option_copied result ≡ first_of name.now (rows_of (found_of matches.now)) }
{
    matches.get_str(name)
}

// Whether what was found is accepted.
fn is_accepted(
    undo_limit: Option<&str>,
    strict: bool,
    script: Option<&str>,
    generate: Option<&str>,
    books: &[&str],
) -> bool
    ensures { result ≡ is_accepted (given (option_copied undo_limit.entry) strict (option_copied script.entry) (option_copied generate.entry) (texts books.now)) }
{
    is_number(undo_limit, UNDO_DIGITS, 0, u64::from(MAX_UNDO))
        && passes_as_value(script)
        && is_number(generate, GENERATE_DIGITS, 1, u64::from(MAX_GENERATE))
        && have_no_dash(books)
        && stands_alone(generate, script, books)
}

// Whether none of the texts begins with a dash.
fn have_no_dash(books: &[&str]) -> bool
    ensures { result ≡ list_all (λ book. not (begins_with_dash book)) (texts books.now) }
{
    'books: for book in books {
        if begins_with_dash(book) {
            return false;
        }
    }
    true
}

// Whether there is no size of a generated list, or neither a script nor a book.
fn stands_alone(generate: Option<&str>, script: Option<&str>, books: &[&str]) -> bool
    ensures { result ≡ (is_none (option_copied generate.entry) || (is_none (option_copied script.entry) && (length (texts books.now) == 0))) }
{
    generate.is_none() || (script.is_none() && books.is_empty())
}

// Whether a text that is there is a number between two others, of at most so many digits.
fn is_number(text: Option<&str>, digits: usize, least: u64, most: u64) -> bool
    requires { most ≤ 10000 }
    ensures { result ≡ passes (is_number digits least most) (option_copied text.entry) }
{
    match text {
        Some(text) => is_number_text(text.as_bytes(), digits, least, most),
        None => true,
    }
}

// Whether the text is a number between two others, of at most so many digits.
fn is_number_text(text: &[u8], digits: usize, least: u64, most: u64) -> bool
    requires { most ≤ 10000 }
    ensures { result ≡ is_number digits least most text.now }
{
    let value = value_at_most(text, ABOVE);
    !text.is_empty() && text.len() <= digits && all_digits(text) && least <= value && value <= most
}

// Whether a text that is there isn't empty and doesn't begin with a dash.
fn passes_as_value(text: Option<&str>) -> bool
    ensures { result ≡ passes is_value (option_copied text.entry) }
{
    match text {
        Some(text) => !text.is_empty() && !begins_with_dash(text),
        None => true,
    }
}

fn begins_with_dash(text: &str) -> bool
    ensures { result ≡ begins_with_dash text.now }
{
    match text.as_bytes() {
        [first, ..] => *first == b'-',
        [] => false,
    }
}

// Whether a flag is set.
fn is_true(text: Option<&str>) -> bool
    ensures { result ≡ is_true (option_copied text.entry) }
{
    match text {
        Some(text) => text == "true",
        None => false,
    }
}

// How many steps are kept for undo, by the text of their number.
fn undo_limit_of(text: Option<&str>) -> u16
    requires { passes (is_number UNDO_DIGITS 0 MAX_UNDO) (option_copied text) ≡ true }
    ensures { result ≡ unwrap_or (option_map value (option_copied text.entry)) DEFAULT_UNDO }
{
    match text {
        Some(text) => value_at_most(text.as_bytes(), u64::from(MAX_UNDO)) as u16,
        None => DEFAULT_UNDO,
    }
}

// The size of a generated list, by its text.
fn size_of(text: Option<&str>) -> Option<u32>
    requires { passes (is_number GENERATE_DIGITS 1 MAX_GENERATE) (option_copied text) ≡ true }
    ensures { result ≡ option_map value (option_copied text.entry) }
{
    match text {
        Some(text) => Some(value_at_most(text.as_bytes(), u64::from(MAX_GENERATE)) as u32),
        None => None,
    }
}

// A copy of a text that is there.
fn copied(alloc: Global, text: Option<&str>) -> Result<Option<Text>, AllocError>
    ensures { IfOk result (λ copy. copy ≡ option_copied text.entry) }
{
    match text {
        Some(text) => Ok(Some(Text::from_str(alloc, text)?)),
        None => Ok(None),
    }
}

// Copies of texts, in their order.
fn copies(alloc: Global, words: &[&str]) -> Result<Vec<Text>, AllocError>
    ensures { IfOk result (λ copies. copies.items ≡ texts words.now) }
{
    let mut copies = Vec::new(alloc);
    'words: for word in words {
        copies.push(Text::from_str(alloc, word)?)?;
    }
    Ok(copies)
}
