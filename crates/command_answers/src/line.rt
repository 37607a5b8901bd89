// The lines that answer calls, and what answers a record that is no command.
ghost use Rattle.std.specs.Prelude.{◌≡◌, ◌+◌, ◌++◌, ◌≤◌, [], codes, length, string_bytes, vec_capacity, vec_len, IfOk};
ghost use Rattle.std.specs.Fmt.{decimal};
ghost use Rattle.script_lang.specs.Lines.{line_of};
ghost use Rattle.command_answers.specs.Replies.{cause_text, record_text, refused_text};
ghost use Rattle.command_answers.specs.internal.Answers.{IsLineOfStop};

use book_engine::Stop;
use book_model::Refusal;
use script_lang::{ScriptError, line};
use std::alloc::{AllocError, Global};

/// How many bytes the line with a number has at most: `ok`, a blank, ten digits and a line feed.
const NUMBER_LINE: usize = 14;

/// The line of a call that stopped: that it is refused, and why. Of want of memory there is no line.
pub fn stop_line(alloc: Global, stop: Stop) -> Result<Vec<u8>, AllocError>
    ensures { IfOk result (λ line. IsLineOfStop stop line.items) }
{
    match stop {
        Stop::Refused(refusal) => refused(alloc, refusal),
        Stop::NoMemory => Err(AllocError),
    }
}

// The line of a call that is refused.
fn refused(alloc: Global, refusal: Refusal) -> Result<Vec<u8>, AllocError>
    ensures { IfOk result (λ line. line.items ≡ line_of (refused_text refusal)) }
{
    let number = refusal.number();
    let mut text = format!(in alloc; "refused {number} ")?;
    text.push_str(refusal.name())?;
    line(alloc, text.as_str())
}

/// Room for the line of a number.
pub fn number_room(alloc: Global) -> Result<Vec<u8>, AllocError>
    ensures items { IfOk result (λ room. room.items ≡ []) }
    ensures len { IfOk result (λ room. vec_len room ≡ 0) }
    ensures capacity { IfOk result (λ room. NUMBER_LINE ≤ vec_capacity room) }
{
    Vec::with_capacity(alloc, NUMBER_LINE)
}

/// The line of a number that a call answers. It takes no memory beyond the room.
pub fn number_line(room: Vec<u8>, number: u32) -> Vec<u8>
    requires items { room.items ≡ [] }
    requires len { vec_len room ≡ 0 }
    requires capacity { NUMBER_LINE ≤ vec_capacity room }
    ensures { result.items ≡ line_of (codes "ok " ++ decimal number) }
{
    let mut line = room;
    put(&mut line, b"ok ");
    put_number(&mut line, number);
    put(&mut line, b"\n");
    line
}

// Puts the digits of a number at the end, for which there is room.
fn put_number(line: &mut Vec<u8>, number: u32)
    requires { vec_len line.old + length (decimal number) ≤ vec_capacity line.old }
    ensures items { line.new.items ≡ line.old.items ++ decimal number }
    ensures len { vec_len line.new ≡ vec_len line.old + length (decimal number) }
    ensures capacity { vec_capacity line.old ≤ vec_capacity line.new }
{
    if number < 10 {
        put(line, &[b'0' + number as u8]);
    } else {
        put_number(line, number / 10);
        put(line, &[b'0' + (number % 10) as u8]);
    }
}

// Puts bytes at the end, for which there is room.
fn put(line: &mut Vec<u8>, bytes: &[u8])
    requires { vec_len line.old + length bytes.now ≤ vec_capacity line.old }
    ensures items { line.new.items ≡ line.old.items ++ bytes.now }
    ensures len { vec_len line.new ≡ vec_len line.old + length bytes.now }
    ensures capacity { vec_capacity line.old ≤ vec_capacity line.new }
{
    match line.extend_from_slice(bytes) {
        Ok(()) => {}
        Err(_) => unreachable!(),
    }
}

/// What answers a record that is no command, which has this number among those of its script, and why it is none.
pub fn record_text(alloc: Global, number: u64, cause: ScriptError) -> Result<String, AllocError>
    ensures { IfOk result (λ text. string_bytes text ≡ record_text number cause) }
{
    let mut text = format!(in alloc; "record {number}: ")?;
    let cause = cause_text(alloc, cause)?;
    text.push_str(&cause)?;
    Ok(text)
}

// Why a record is no command.
fn cause_text(alloc: Global, cause: ScriptError) -> Result<String, AllocError>
    ensures { IfOk result (λ text. string_bytes text ≡ cause_text cause) }
{
    match cause {
        ScriptError::UnknownCommand => String::from_str(alloc, "unknown command"),
        ScriptError::FieldCount => String::from_str(alloc, "field count"),
        ScriptError::BadField(field) => format!(in alloc; "bad field {field}"),
        ScriptError::NoMemory => String::from_str(alloc, "out of memory"),
    }
}
