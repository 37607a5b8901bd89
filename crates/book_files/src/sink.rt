// What takes bytes.
ghost use Rattle.std.specs.Prelude.{◌≡◌, ◌≤◌, ℕ, List, OnOk};
ghost use Rattle.std.specs.declared.option.Option.{Option};
ghost use Rattle.std.specs.Io.KnownBytes.{Appends, Keeps};
ghost use Rattle.book_files.specs.Outside.{AppendsPart, Rose};

use crate::error::WriteError;

/// A stream of bytes to write, which counts its faults.
pub trait Sink {
    // The bytes that were taken so far, where the sink tells them.
    ghost taken: { Self → Option (List ℕ) };

    // How many faults there were so far, up to the greatest u64.
    ghost faults: { Self → ℕ };

    /// Writes all of `bytes`, which have left the program when the call returns.
    ///
    /// A sink that tells its bytes goes on telling them.
    ///
    /// # Errors
    ///
    /// [`WriteError::Failed`] only where the count of faults rose: a part of the bytes, from the
    /// front, was taken then. [`WriteError::NoMemory`] where memory runs out: no byte is taken.
    fn write(&mut self, bytes: &[u8]) -> Result<(), WriteError>
        ensures all { OnOk result (Appends (taken self.old) (taken self.new) bytes.now) }
        ensures part { result ≡ Err WriteError.Failed
            → AppendsPart (taken self.old) (taken self.new) bytes.now }
        ensures none { result ≡ Err WriteError.NoMemory → Keeps (taken self.old) (taken self.new) }

        // The count of faults never falls, and a failure is a fault.
        ensures later { faults self.old ≤ faults self.new }
        ensures cause { result ≡ Err WriteError.Failed → Rose (faults self.old) (faults self.new) };
}
