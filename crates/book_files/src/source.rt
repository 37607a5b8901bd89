// What gives bytes.
ghost use Rattle.std.specs.Prelude.{◌≡◌, ◌<◌, ◌≤◌, ℕ, List, take, length, IfOk, OnErr};
ghost use Rattle.std.specs.declared.option.Option.{Option};
ghost use Rattle.std.specs.Io.KnownBytes.{Consumes, IsAtEnd, Keeps};
ghost use Rattle.book_files.specs.Outside.{Rose};

use crate::error::Failed;

/// A stream of bytes to read, which counts its faults.
pub trait Source {
    // The bytes that are left, where the source tells them.
    ghost left: { Self → Option (List ℕ) };

    // How many faults there were so far, up to the greatest u64.
    ghost faults: { Self → ℕ };

    /// Reads bytes into the front of `buf`, which is not empty, and answers how many.
    ///
    /// That is 0 exactly where no byte is left. A source that tells its bytes goes on telling
    /// them.
    ///
    /// # Errors
    ///
    /// [`Failed`] only where the count of faults rose. No byte is taken then.
    fn read(&mut self, buf: &mut [u8]) -> Result<usize, Failed>
        requires { 0 < length buf.old }
        ensures bound { IfOk result (λ n. n ≤ length buf.old) }
        ensures taken { IfOk result (λ n. Consumes (left self.old) (left self.new) (take n buf.new)) }
        ensures end { IfOk result (λ n. n ≡ 0 → IsAtEnd (left self.new)) }
        ensures failed { OnErr result (Keeps (left self.old) (left self.new)) }

        // The count of faults never falls, and a failure is a fault.
        ensures later { faults self.old ≤ faults self.new }
        ensures cause { OnErr result (Rose (faults self.old) (faults self.new)) };
}
