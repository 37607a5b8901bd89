// What records say.
use csv::ByteRecord;
use script_lang::{Command, ScriptError, Version, command, command_in, migrated, migrated_name};
use std::alloc::{AllocError, Global};

// What the record of these fields says, where it isn't the first of its script.
fn said(alloc: Global, fields: &[&[u8]]) -> Result<Command, ScriptError> {
    let record = ByteRecord::from_fields(alloc, fields)?;
    command(alloc, &record, 2)
}

// Fields that say no command, and why.
type Cause = (&'static [&'static [u8]], ScriptError);

const CAUSES: &[Cause] = &[
    (&[], ScriptError::UnknownCommand),
    (&[b"frob"], ScriptError::UnknownCommand),
    (&[b"set", b"??"], ScriptError::FieldCount),
    (&[b"set", b"??", b"1"], ScriptError::BadField(1)),
    (&[b"version", b"1"], ScriptError::UnknownCommand),
];

// Whether the fields say no command for this cause.
fn is_cause(alloc: Global, fields: &[&[u8]], cause: &ScriptError) -> Result<bool, AllocError> {
    match said(alloc, fields).err() {
        None => Ok(false),
        Some(ScriptError::NoMemory) => Err(AllocError),
        Some(found) => Ok(found == *cause),
    }
}

// Whether the field `undo` alone says the command that takes the last step back.
fn says_undo(alloc: Global) -> bool {
    let found = said(alloc, &[b"undo"]);
    let is_undo = matches!(&found, Ok(Command::Undo));
    drop(found);
    is_undo
}

#[test]
fn records_say_commands(rt: HostRuntime) -> Result<(), AllocError> {
    assert!(rt; says_undo(rt.alloc()));
    for (fields, cause) in CAUSES {
        assert!(rt; is_cause(rt.alloc(), fields, cause)?, "not: {cause}");
    }
    Ok(())
}

// Formulas' texts of version 1, and what they are today.
const MIGRATED: &[(&str, &str)] = &[
    ("=A50000", "=A50000_"),
    ("=a50000+A40000", "=a50000_+A40000"),
    ("=\"A50000\"", "=\"A50000\""),
    ("=A50000!A1", "=A50000!A1"),
    ("=A50000(1)", "=A50000(1)"),
    ("=A50000 (1)", "=A50000 (1)"),
    ("=$A$50000", "=$A$50000_"),
    ("=$A$50000 (1)", "=$A$50000 (1)"),
    ("=A50000_", "=A50000__"),
    ("=A40001", "=A40001_"),
    ("=ZZZ1048576", "=ZZZ1048576_"),
    ("=A1048577", "=A1048577"),
    ("=AAAA50000", "=AAAA50000"),
    ("=A050000", "=A050000"),
    ("=A50000.", "=A50000."),
    ("=A50000_1", "=A50000_1"),
    ("='A50000'!B1", "='A50000'!B1"),
    ("=A50000 +", "=A50000_ +"),
    ("=A50000&\"", "=A50000&\""),
    ("A50000", "A50000"),
    ("", ""),
];

// Names of version 1, and what they are today.
const MIGRATED_NAMES: &[(&str, &str)] = &[
    ("A50000", "A50000_"),
    ("A50000_", "A50000__"),
    ("A40000", "A40000"),
    ("A1048577", "A1048577"),
    ("RATE", "RATE"),
    ("", ""),
];

#[test]
fn texts_are_migrated(rt: HostRuntime) -> Result<(), AllocError> {
    for (old, new) in MIGRATED {
        assert!(rt; migrated(rt.alloc(), old)?.as_str() == *new, "not: {new}");
    }
    Ok(())
}

#[test]
fn names_are_migrated(rt: HostRuntime) -> Result<(), AllocError> {
    for (old, new) in MIGRATED_NAMES {
        assert!(rt;
            migrated_name(rt.alloc(), old)?.as_str() == *new,
            "not: {new}"
        );
    }
    Ok(())
}

// Whether the first record `version,1` says that the script is of version 1.
fn says_version_one(alloc: Global) -> Result<bool, AllocError> {
    let record = ByteRecord::from_fields(alloc, &[b"version", b"1"])?;
    let found = command(alloc, &record, 1);
    let is_version = matches!(&found, Ok(Command::Version(Version::One)));
    drop(found);
    Ok(is_version)
}

// Whether a record of a script of version 1 sets a cell to the text of today.
fn text_is_taken_along(alloc: Global) -> Result<bool, AllocError> {
    let record = ByteRecord::from_fields(alloc, &[b"set", b"A1", b"=A50000"])?;
    let found = command_in(alloc, Version::One, &record, 2);
    let is_taken = match &found {
        Ok(Command::Set(_, text)) => text.as_str() == "=A50000_",
        _ => false,
    };
    drop(found);
    Ok(is_taken)
}

#[test]
fn a_script_says_its_version(rt: HostRuntime) -> Result<(), AllocError> {
    assert!(rt; says_version_one(rt.alloc())?);
    assert!(rt; text_is_taken_along(rt.alloc())?);
    Ok(())
}
