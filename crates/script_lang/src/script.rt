// How the records of a script say commands.
ghost use Rattle.std.specs.Prelude.{◌≡◌, ◌+◌, ◌<◌, ◌≤◌, OnOk, drop, length};
ghost use Rattle.csv.specs.Records.{fields_of};
ghost use Rattle.formula_parse.specs.Migrated.{migrated, migrated_name};
ghost use Rattle.script_lang.specs.Arguments.{no_arguments, read_from};
ghost use Rattle.script_lang.specs.Command.{Says, command_in, command_of, command_with, migrated_command, of_version, version_after, word_at, word_in};
ghost use Rattle.script_lang.specs.internal.Reading.{field};

use crate::arguments::{Arguments, no_spot};
use crate::commands::{Command, Version};
use crate::error::ScriptError;
use crate::word::{FieldKind, MAX_FIELDS, Word};
use cell_addr::{Spot, Text};
use csv::ByteRecord;
use formula_parse::{migrated, migrated_name};
use std::alloc::{AllocError, Global};
use std::mem;

/// The command that a record says, which has this number among those of its script; the first has number 1. The first
/// field is its word, and the fields behind it are its arguments.
///
/// # Errors
/// `UnknownCommand` exactly where the first field is no command's word, or is `version` in another record than the first;
/// else `FieldCount` exactly where the number of fields differs; else `BadField` for the first field that hasn't its form
/// or isn't UTF-8; and `NoMemory`.
pub fn command(alloc: Global, fields: &ByteRecord, number: u64) -> Result<Command, ScriptError>
    ensures { Says result (command_of number (fields_of fields.now)) }
{
    let Some(word) = first_word(fields, number) else {
        return Err(ScriptError::UnknownCommand);
    };
    let (_, kinds) = word.line();
    if fields.len() != kinds.len() + 1 {
        return Err(ScriptError::FieldCount);
    }
    let mut arguments = read_arguments(alloc, kinds, fields)?;
    Ok(command_with(alloc, word, &mut arguments))
}

/// The command that a record says in a script of this version, as it is meant today: in one of version 1, a formula's text
/// and a name that is given, removed or asked for are taken along as [`migrated`] and [`migrated_name`] say.
///
/// # Errors
/// Those of [`command`].
pub fn command_in(
    alloc: Global,
    version: Version,
    fields: &ByteRecord,
    number: u64,
) -> Result<Command, ScriptError>
    ensures { Says result (command_in version number (fields_of fields.now)) }
{
    let mut command = command(alloc, fields, number)?;
    match version {
        Version::One => migrate(alloc, &mut command)?,
        Version::Two => {}
    }
    Ok(command)
}

/// The version of a script behind a command: the one that this says, or the one before.
pub fn version_after(version: Version, command: &Command) -> Version
    ensures { result ≡ version_after version command.now }
{
    match command {
        Command::Version(said) => *said,
        _ => version,
    }
}

// Makes of a command of a script of version 1 the one that is meant today.
fn migrate(alloc: Global, command: &mut Command) -> Result<(), AllocError>
    ensures { OnOk result (command.new ≡ migrated_command command.old) }
{
    match command {
        Command::Set(_, text) => migrate_text(alloc, text),
        Command::AddName(name, _, text) => migrate_both(alloc, name, text),
        Command::ChangeName(name, _, text) => migrate_both(alloc, name, text),
        Command::RemoveName(name, _) => migrate_name(alloc, name),
        Command::NameValue(name, _) => migrate_name(alloc, name),
        Command::Try(_, text) => migrate_text(alloc, text),
        _ => Ok(()),
    }
}

// Takes the text of a formula along.
fn migrate_text(alloc: Global, text: &mut Text) -> Result<(), AllocError>
    ensures { OnOk result (text.new ≡ migrated text.old) }
{
    *text = migrated(alloc, text.as_str())?;
    Ok(())
}

// Takes a name along.
fn migrate_name(alloc: Global, name: &mut Text) -> Result<(), AllocError>
    ensures { OnOk result (name.new ≡ migrated_name name.old) }
{
    *name = migrated_name(alloc, name.as_str())?;
    Ok(())
}

// Takes a name and the text of its formula along.
fn migrate_both(alloc: Global, name: &mut Text, text: &mut Text) -> Result<(), AllocError>
    ensures name { OnOk result (name.new ≡ migrated_name name.old) }
    ensures text { OnOk result (text.new ≡ migrated text.old) }
{
    migrate_name(alloc, name)?;
    migrate_text(alloc, text)
}

// The word that the first field of the record of this number spells.
fn first_word(fields: &ByteRecord, number: u64) -> Option<Word>
    ensures { result ≡ word_in number (fields_of fields.now) }
{
    let word = Word::named(fields.get(0)?)?;
    word_at(number, word)
}

// The word, where it may stand in the record of this number: a script's version is said by its first record alone.
fn word_at(number: u64, word: Word) -> Option<Word>
    ensures { result ≡ word_at number word }
{
    match word {
        Word::Version if number != 1 => None,
        _ => Some(word),
    }
}

// What the fields behind the word say, which are of these kinds.
fn read_arguments(
    alloc: Global,
    kinds: &[FieldKind],
    fields: &ByteRecord,
) -> Result<Arguments, ScriptError>
    requires few { length kinds.now ≤ MAX_FIELDS }
    requires count { length (fields_of fields.now) ≡ length kinds.now + 1 }
    ensures { Says result (read_from 1 kinds.now (drop 1 (fields_of fields.now)) no_arguments) }
{
    let mut arguments = Arguments::new(alloc);
    'kinds: for (i, kind) in kinds.iter().enumerate() {
        let number = (i + 1) as u8;
        arguments.read(alloc, *kind, number, field(fields, number))?;
    }
    Ok(arguments)
}

// The field of this number, where the word has number 0.
fn field(fields: &ByteRecord, number: u8) -> &[u8]
    requires { number < length (fields_of fields.now) }
    ensures { result.now ≡ field (fields_of fields.now) number }
{
    match fields.get(usize::from(number)) {
        Some(field) => field,
        None => unreachable!(),
    }
}

// The command of a word and its arguments, which are taken out of their slots.
fn command_with(alloc: Global, word: Word, arguments: &mut Arguments) -> Command
    ensures { result ≡ command_with word arguments.old }
{
    let Arguments {
        place,
        block,
        sheet,
        line,
        count,
        before,
        name,
        text,
        version,
    } = arguments;
    match word {
        Word::Set => Command::Set(take_spot(place), take(alloc, text)),
        Word::Clear => Command::Clear(take_spot(block)),
        Word::InsertRows => Command::InsertRows(take(alloc, sheet), *line, *count),
        Word::DeleteRows => Command::DeleteRows(take(alloc, sheet), *line, *count),
        Word::InsertCols => Command::InsertCols(take(alloc, sheet), *line, *count),
        Word::DeleteCols => Command::DeleteCols(take(alloc, sheet), *line, *count),
        Word::MoveRows => Command::MoveRows(take(alloc, sheet), *line, *count, *before),
        Word::MoveCols => Command::MoveCols(take(alloc, sheet), *line, *count, *before),
        Word::AddSheet => Command::AddSheet(take(alloc, name)),
        Word::DropSheet => Command::DropSheet(take(alloc, sheet)),
        Word::RenameSheet => Command::RenameSheet(take(alloc, sheet), take(alloc, name)),
        Word::ClearSheet => Command::ClearSheet(take(alloc, sheet)),
        Word::AddName => Command::AddName(take(alloc, name), take(alloc, sheet), take(alloc, text)),
        Word::ChangeName => Command::ChangeName(
            take(alloc, name),
            take(alloc, sheet),
            take(alloc, text),
        ),
        Word::RemoveName => Command::RemoveName(take(alloc, name), take(alloc, sheet)),
        Word::Copy => Command::Copy(take_spot(block)),
        Word::Cut => Command::Cut(take_spot(block)),
        Word::Paste => Command::Paste(take_spot(place)),
        Word::MoveBlock => Command::MoveBlock(take_spot(block), take_spot(place)),
        Word::Begin => Command::Begin,
        Word::Commit => Command::Commit,
        Word::Suspend => Command::Suspend,
        Word::Resume => Command::Resume,
        Word::Undo => Command::Undo,
        Word::Redo => Command::Redo,
        Word::Value => Command::Value(take_spot(place)),
        Word::Formula => Command::Formula(take_spot(place)),
        Word::Content => Command::Content(take_spot(place)),
        Word::Precedents => Command::Precedents(take_spot(place)),
        Word::Dependents => Command::Dependents(take_spot(place)),
        Word::NameValue => Command::NameValue(take(alloc, name), take(alloc, sheet)),
        Word::Try => Command::Try(take(alloc, sheet), take(alloc, text)),
        Word::Version => Command::Version(*version),
    }
}

// Takes an address out of its slot.
fn take_spot(slot: &mut Spot) -> Spot
    ensures { result ≡ slot.old }
{
    mem::replace(slot, no_spot())
}

// Takes a text out of its slot.
fn take(alloc: Global, slot: &mut Text) -> Text
    ensures { result ≡ slot.old }
{
    mem::replace(slot, Text::new(String::new(alloc)))
}
