// The call that the program makes: words, files and a script come in, lines and a status go out.
ghost use Rattle.std.specs.Prelude.{◌≡◌, ◌≢◌, ◌⊎◌, ◌↔◌, None, Some, map, IfOk, OnOk, IsErrOf, string_bytes};
ghost use Rattle.std.specs.Io.KnownBytes.{Appends};
ghost use Rattle.book_files.specs.Outside.{Rose};
ghost use Rattle.command_words.specs.Words.{IsInRange, meaning, seen};
ghost use Rattle.run_inputs.specs.Opening.{told_by};
ghost use Rattle.sheet_cli.specs.Run.{IsEndStatus, IsStatus, Leaves, Prints, PrintsPart, WasRead, fault_line, outcome, outcome_meant, outcome_said, source_left};
ghost use Rattle.sheet_cli.specs.internal.Ends.{EndPrinted, IsSaidStatus, Reads, Runs};

use crate::answering::{print, print_end, run_generated, run_script};
use crate::ending::{EarlyEnd, NO_MEMORY, READ_FAULT, WRITE_FAULT, WRONG_WORDS};
use book_files::{Folder, Sink, Source};
use calc_eval::Customs;
use command_words::{Words, WordsError, words as read_words};
use run_inputs::{Ending, open_books, open_script};
use std::alloc::Global;
use std::sync::ledger::Ledger;
use steps::Steps;

// The words can ask for exactly what the session and the generated list allow.
const _: () = prove!(command_words::MAX_UNDO == book_model::MAX_UNDO);

const _: () = prove!(command_words::MAX_GENERATE == generator::MAX_SIZE);

const USAGE: &str =
    "usage: sheetrun [--undo-limit N] [--strict] [--script FILE] [--generate N] [BOOK.csv ...]";

/// Does all that the program does, and answers its status.
///
/// The words name the books, the script and what is asked of the run. The books are read from the folder, and then the
/// script, from there or from the source; its records are commands, each answered by one line in one write. With
/// `--generate` a generated list of commands is executed instead, and a summary printed. Formulas can call the custom
/// functions of the registry, and `day` is the serial number of today, counted from 1899-12-30. The statuses:
///
/// - 0: all was read and answered.
/// - 1: with `--strict`, a command is refused; its refusal is the last line.
/// - 2: the words are outside their meaning, and the usage line says what they can be.
/// - 3: a record is no command; the last line says which one and why.
/// - 4: the file of a book or of the script is missing, or a book is refused; a line says which one and why.
/// - 5: the folder or the source failed, and the line `read fault` says so.
/// - 6: the sink failed.
/// - 7: memory ran out.
/// - 8: a file or the script has more than 64 MiB.
pub fn run<C: Customs, F: Folder, I: Source, O: Sink, L: Ledger>(
    alloc: Global,
    words: &[String],
    folder: &mut F,
    input: &mut I,
    out: &mut O,
    day: i32,
    registry: C,
    steps: &mut Steps<L>,
) -> u8
    // Where folder and source tell what they have, and the sink what it took, it holds what it held and then the defined
    // bytes, and the status is the defined one.
    ensures output { result ≢ 5 → result ≢ 6 → result ≢ 7 → Prints (told_by (F.files folder.old) (I.left input.old)) (outcome (C.customs registry) day (map string_bytes words.now)) (O.taken out.old) (O.taken out.new) result }

    // Status 2 is for words outside their meaning alone.
    ensures usage { result ≢ 6 → result ≢ 7 → (result ≡ 2) ↔ (meaning (map string_bytes words.now) ≡ None) }

    // A fault is answered only where the object that was handed in counted one. Nothing but its line is printed then.
    ensures read_fault { result ≡ 5 → Rose (F.faults folder.old) (F.faults folder.new) ⊎ Rose (I.faults input.old) (I.faults input.new) }
    ensures fault_line { result ≡ 5 → Appends (O.taken out.old) (O.taken out.new) fault_line }
    ensures write_fault { result ≡ 6 → Rose (O.faults out.old) (O.faults out.new) }

    // What was printed before a failed write or want of memory is a front of what should be.
    ensures part { (result ≡ 6) ⊎ (result ≡ 7) → PrintsPart (told_by (F.files folder.old) (I.left input.old)) (outcome (C.customs registry) day (map string_bytes words.now)) (Rose (F.faults folder.old) (F.faults folder.new) ⊎ Rose (I.faults input.old) (I.faults input.new)) (O.taken out.old) (O.taken out.new) }

    // What was read of the source; the files stay.
    ensures source { WasRead (meaning (map string_bytes words.now)) result (I.left input.old) (I.left input.new) }
    ensures left { result ≢ 5 → result ≢ 6 → result ≢ 7 → Leaves (told_by (F.files folder.old) (I.left input.old)) (source_left (meaning (map string_bytes words.now))) (I.left input.new) }
    ensures files { F.files folder.new ≡ F.files folder.old }
    ensures status_range { IsStatus result }
{
    match run_to_end(alloc, words, folder, input, out, day, registry, steps) {
        Ok(status) => status,
        Err(EarlyEnd::ReadFault) => READ_FAULT,
        Err(EarlyEnd::WriteFault) => WRITE_FAULT,
        Err(EarlyEnd::NoMemory) => NO_MEMORY,
    }
}

// A run up to its status, or to a fault or want of memory.
fn run_to_end<C: Customs, F: Folder, I: Source, O: Sink, L: Ledger>(
    alloc: Global,
    words: &[String],
    folder: &mut F,
    input: &mut I,
    out: &mut O,
    day: i32,
    registry: C,
    steps: &mut Steps<L>,
) -> Result<u8, EarlyEnd>
    ensures runs { Runs (told_by (F.files folder.old) (I.left input.old)) (outcome (C.customs registry) day (map string_bytes words.now)) (Rose (F.faults folder.old) (F.faults folder.new) ⊎ Rose (I.faults input.old) (I.faults input.new)) (O.taken out.old) (O.taken out.new) result }
    ensures usage { IfOk result (λ status. (status ≡ 2) ↔ (meaning (map string_bytes words.now) ≡ None)) }
    ensures known { IsErrOf result EarlyEnd.ReadFault → meaning (map string_bytes words.now) ≢ None }
    ensures write_fault { IsErrOf result EarlyEnd.WriteFault → Rose (O.faults out.old) (O.faults out.new) }
    ensures source { Reads (meaning (map string_bytes words.now)) (I.left input.old) (I.left input.new) result }
    ensures left { OnOk result (Leaves (told_by (F.files folder.old) (I.left input.old)) (source_left (meaning (map string_bytes words.now))) (I.left input.new)) }
    ensures files { F.files folder.new ≡ F.files folder.old }
    ensures status { IfOk result IsEndStatus }
{
    match read_words(alloc, words) {
        Ok(said) => run_said(alloc, &said, folder, input, out, day, registry, steps),
        Err(WordsError::Usage) => print_end(alloc, out, USAGE, WRONG_WORDS),
        Err(WordsError::NoMemory) => Err(EarlyEnd::NoMemory),
    }
}

// A run whose words say this.
fn run_said<C: Customs, F: Folder, I: Source, O: Sink, L: Ledger>(
    alloc: Global,
    said: &Words,
    folder: &mut F,
    input: &mut I,
    out: &mut O,
    day: i32,
    registry: C,
    steps: &mut Steps<L>,
) -> Result<u8, EarlyEnd>
    requires { IsInRange (seen said.now) }
    ensures runs { Runs (told_by (F.files folder.old) (I.left input.old)) (outcome_meant (C.customs registry) day (Some (seen said.now))) (Rose (F.faults folder.old) (F.faults folder.new) ⊎ Rose (I.faults input.old) (I.faults input.new)) (O.taken out.old) (O.taken out.new) result }
    ensures write_fault { IsErrOf result EarlyEnd.WriteFault → Rose (O.faults out.old) (O.faults out.new) }
    ensures source { Reads (Some (seen said.now)) (I.left input.old) (I.left input.new) result }
    ensures left { OnOk result (Leaves (told_by (F.files folder.old) (I.left input.old)) (source_left (Some (seen said.now))) (I.left input.new)) }
    ensures files { F.files folder.new ≡ F.files folder.old }
    ensures status { IfOk result IsSaidStatus }
{
    match said.generate {
        Some(size) => run_generated(alloc, said, size, out, day, registry, steps),
        None => run_told(alloc, said, folder, input, out, day, registry, steps),
    }
}

// A run over books and a script.
fn run_told<C: Customs, F: Folder, I: Source, O: Sink, L: Ledger>(
    alloc: Global,
    said: &Words,
    folder: &mut F,
    input: &mut I,
    out: &mut O,
    day: i32,
    registry: C,
    steps: &mut Steps<L>,
) -> Result<u8, EarlyEnd>
    requires range { IsInRange (seen said.now) }
    requires script { said.now.generate ≡ None }
    ensures runs { Runs (told_by (F.files folder.old) (I.left input.old)) (outcome_said (C.customs registry) day None (seen said.now)) (Rose (F.faults folder.old) (F.faults folder.new) ⊎ Rose (I.faults input.old) (I.faults input.new)) (O.taken out.old) (O.taken out.new) result }
    ensures write_fault { IsErrOf result EarlyEnd.WriteFault → Rose (O.faults out.old) (O.faults out.new) }
    ensures source { Reads (Some (seen said.now)) (I.left input.old) (I.left input.new) result }
    ensures left { OnOk result (Leaves (told_by (F.files folder.old) (I.left input.old)) (source_left (Some (seen said.now))) (I.left input.new)) }
    ensures files { F.files folder.new ≡ F.files folder.old }
    ensures status { IfOk result IsSaidStatus }
{
    match open_books(alloc, folder, &said.books) {
        Ok(sheets) => match open_script(alloc, folder, input, &said.script) {
            Ok(script) => run_script(alloc, said, sheets, &script, out, day, registry, steps),
            Err(ending) => end(alloc, out, ending),
        },
        Err(ending) => end(alloc, out, ending),
    }
}

// Says how a run ends before its first reply.
fn end<O: Sink>(alloc: Global, out: &mut O, ending: Ending) -> Result<u8, EarlyEnd>
    ensures printed { EndPrinted ending (O.taken out.old) (O.taken out.new) result }
    ensures write_fault { IsErrOf result EarlyEnd.WriteFault → Rose (O.faults out.old) (O.faults out.new) }
{
    match ending {
        Ending::Says(text, status) => print_end(alloc, out, text.as_str(), status),
        Ending::ReadFault => match print(alloc, out, "read fault") {
            Ok(()) => Err(EarlyEnd::ReadFault),
            Err(stop) => Err(stop),
        },
        Ending::NoMemory => Err(EarlyEnd::NoMemory),
    }
}
