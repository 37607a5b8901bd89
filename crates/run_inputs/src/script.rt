// The script that a run is told.
ghost use Rattle.std.specs.Prelude.{◌≡◌, ◌⊎◌, ◌++◌, ◌≤◌, IfOk, IsErrOf, codes, length, string_bytes};
ghost use Rattle.book_files.specs.Folder.{load_of};
ghost use Rattle.book_files.specs.Outside.{Rose};
ghost use Rattle.book_files.specs.declared.input.TheConstants.{MAX_INPUT};
ghost use Rattle.run_inputs.specs.Ends.{EndsOpening, Opens, TakesScript};
ghost use Rattle.run_inputs.specs.Opening.{loaded, script_missing, script_told, told_by};
ghost use Rattle.run_inputs.specs.Outcome.{too_long};
ghost use Rattle.run_inputs.specs.internal.Parts.{EndsWith, IsEnd};

use crate::ending::{Ending, NO_BOOK, TOO_LONG};
use book_files::{Folder, LoadError, MAX_INPUT, Source, read_all};
use cell_addr::Text;
use std::alloc::{AllocError, Global};

/// The bytes of the script, at most [`MAX_INPUT`]: those of its file, or of the source where it has none.
///
/// Of a script in a file nothing of the source is taken. Costs the bytes.
///
/// # Errors
///
/// - [`Ending::Says`] with [`NO_BOOK`] and the line `script FILE: missing`, where there is no such file.
/// - [`Ending::Says`] with [`TOO_LONG`] and `input too long`, where there are more than [`MAX_INPUT`] bytes; of the
///   source one more than that was taken then.
/// - [`Ending::ReadFault`] only where the folder or the source counted a fault.
/// - [`Ending::NoMemory`] where memory ran out.
pub fn open_script<F: Folder, I: Source>(
    alloc: Global,
    folder: &mut F,
    input: &mut I,
    file: &Option<Text>,
) -> Result<Vec<u8>, Ending>
    ensures opens { Opens (λ bytes. bytes.items) (told_by (F.files folder.old) (I.left input.old)) (λ told. script_told told file.now) result }
    ensures limit { IfOk result (λ bytes. length bytes.items ≤ MAX_INPUT) }
    ensures status { EndsOpening result }
    ensures fault { IsErrOf result Ending.ReadFault → Rose (F.faults folder.old) (F.faults folder.new) ⊎ Rose (I.faults input.old) (I.faults input.new) }
    ensures later { (F.faults folder.old ≤ F.faults folder.new) × (I.faults input.old ≤ I.faults input.new) }
    ensures files { F.files folder.new ≡ F.files folder.old }
    ensures source { TakesScript file.now result (I.left input.old) (I.left input.new) }
{
    match file {
        Some(file) => script_file(alloc, folder, file),
        None => match read_all(alloc, input) {
            Ok(bytes) => Ok(bytes),
            Err(LoadError::TooLong) => Err(too_long(alloc)),
            Err(LoadError::Failed) => Err(Ending::ReadFault),
            Err(LoadError::NoMemory | LoadError::Missing) => Err(Ending::NoMemory),
        },
    }
}

// The bytes of the script's file.
fn script_file<F: Folder>(alloc: Global, folder: &mut F, file: &Text) -> Result<Vec<u8>, Ending>
    ensures opens { Opens (λ bytes. bytes.items) (F.files folder.old) (λ files. loaded (script_missing file.now) (load_of MAX_INPUT (files file.now))) result }
    ensures limit { IfOk result (λ bytes. length bytes.items ≤ MAX_INPUT) }
    ensures status { EndsOpening result }
    ensures fault { IsErrOf result Ending.ReadFault → Rose (F.faults folder.old) (F.faults folder.new) }
    ensures later { F.faults folder.old ≤ F.faults folder.new }
    ensures stays { F.files folder.new ≡ F.files folder.old }
{
    match folder.load(alloc, file.as_str(), MAX_INPUT) {
        Ok(bytes) => Ok(bytes),
        Err(LoadError::Missing) => Err(missing_script(alloc, file)),
        Err(LoadError::TooLong) => Err(too_long(alloc)),
        Err(LoadError::Failed) => Err(Ending::ReadFault),
        Err(LoadError::NoMemory) => Err(Ending::NoMemory),
    }
}

// The end of a run whose script's file is missing.
fn missing_script(alloc: Global, file: &Text) -> Ending
    ensures end { IsEnd result (script_missing file.now) }
    ensures status { EndsWith result NO_BOOK }
{
    match script_text(alloc, file) {
        Ok(text) => Ending::Says(text, NO_BOOK),
        Err(_) => Ending::NoMemory,
    }
}

// What a run says of a script whose file is missing.
fn script_text(alloc: Global, file: &Text) -> Result<String, AllocError>
    ensures { IfOk result (λ text. string_bytes text ≡ codes "script " ++ file.now ++ codes ": missing") }
{
    let mut text = String::from_str(alloc, "script ")?;
    text.push_str(file.as_str())?;
    text.push_str(": missing")?;
    Ok(text)
}

// The end of a run that is told more than it may be.
pub(crate) fn too_long(alloc: Global) -> Ending
    ensures end { IsEnd result too_long }
    ensures status { EndsWith result TOO_LONG }
{
    match String::from_str(alloc, "input too long") {
        Ok(text) => Ending::Says(text, TOO_LONG),
        Err(_) => Ending::NoMemory,
    }
}
