// The line of a text, as it is printed.
ghost use Rattle.std.specs.Prelude.{◌≡◌, IfOk};
ghost use Rattle.script_lang.specs.Lines.{line_of};

use std::alloc::{AllocError, Global};

/// The bytes of a text's line: a backslash, a line feed and a carriage return are written as two
/// characters, and a line feed ends it.
pub fn line(alloc: Global, text: &str) -> Result<Vec<u8>, AllocError>
    ensures { IfOk result (λ line. line.items ≡ line_of text.now) }
{
    let mut line = Vec::new(alloc);
    'bytes: for byte in text.as_bytes() {
        match *byte {
            b'\\' => line.extend_from_slice(b"\\\\")?,
            b'\n' => line.extend_from_slice(b"\\n")?,
            b'\r' => line.extend_from_slice(b"\\r")?,
            other => line.push(other)?,
        }
    }
    line.push(b'\n')?;
    Ok(line)
}
