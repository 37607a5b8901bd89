// A source read to its end.
ghost use Rattle.std.specs.Prelude.{◌≡◌, ◌≢◌, ◌≤◌, ◌+◌, IfOk, OnOk, OnErr, vec_len};
ghost use Rattle.std.specs.Io.KnownBytes.{Consumes, IsAtEnd};
ghost use Rattle.book_files.specs.Outside.{Loses, LosesAtMost, Rose};

use crate::error::LoadError;
use crate::source::Source;
use std::alloc::Global;

/// How many bytes [`read_all`] reads at most: 64 MiB. This project's own limit.
pub const MAX_INPUT: usize = 67_108_864;

// How many bytes are asked for at a time.
const PIECE: usize = 8192;

/// All bytes of a source, up to its end.
///
/// Each read but the last takes at least one byte, and never more than [`MAX_INPUT`] and one in
/// all.
///
/// # Errors
///
/// - [`LoadError::TooLong`] exactly where there are more than [`MAX_INPUT`] bytes: one more than
///   that was taken then.
/// - [`LoadError::Failed`] only where the source counted a fault.
/// - [`LoadError::NoMemory`] where memory runs out.
///
/// After the last two, the bytes that were read are taken and lost.
pub fn read_all<I: Source>(alloc: Global, input: &mut I) -> Result<Vec<u8>, LoadError>
    ensures bytes { IfOk result (λ v. Consumes (I.left input.old) (I.left input.new) v.items) }
    ensures end { OnOk result (IsAtEnd (I.left input.new)) }
    ensures limit { IfOk result (λ v. vec_len v ≤ MAX_INPUT) }
    ensures too_long { result ≡ Err LoadError.TooLong
        → Loses (I.left input.old) (I.left input.new) (MAX_INPUT + 1) }
    ensures at_most { LosesAtMost (I.left input.old) (I.left input.new) (MAX_INPUT + 1) }
    ensures failed { result ≡ Err LoadError.Failed → Rose (I.faults input.old) (I.faults input.new) }
    ensures never_missing { result ≢ Err LoadError.Missing }
    ensures later { I.faults input.old ≤ I.faults input.new }
{
    read_at_most(alloc, input, MAX_INPUT)
}

// All bytes of a source that has at most so many.
pub(crate) fn read_at_most<I: Source>(
    alloc: Global,
    input: &mut I,
    limit: usize,
) -> Result<Vec<u8>, LoadError>
    ensures bytes { IfOk result (λ v. Consumes (I.left input.old) (I.left input.new) v.items) }
    ensures end { OnOk result (IsAtEnd (I.left input.new)) }
    ensures limit { IfOk result (λ v. vec_len v ≤ limit) }
    ensures too_long { result ≡ Err LoadError.TooLong
        → Loses (I.left input.old) (I.left input.new) (limit + 1) }
    ensures at_most { LosesAtMost (I.left input.old) (I.left input.new) (limit + 1) }
    ensures failed { result ≡ Err LoadError.Failed → Rose (I.faults input.old) (I.faults input.new) }
    ensures never_missing { result ≢ Err LoadError.Missing }
    ensures later { I.faults input.old ≤ I.faults input.new }
{
    let mut bytes = Vec::new(alloc);
    let mut piece = [0; PIECE];
    'reading: while bytes.len() <= limit {
        let room = PIECE.min((limit - bytes.len()).saturating_add(1));
        let count = input.read(&mut piece[..room])?;
        if count == 0 {
            return Ok(bytes);
        }
        bytes.extend_from_slice(&piece[..count])?;
    }
    Err(LoadError::TooLong)
}
