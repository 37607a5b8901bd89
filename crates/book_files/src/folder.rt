// What has files by their names.
ghost use Rattle.std.specs.Prelude.{◌≡◌, ◌≤◌, ℕ, vec_len, IfOk};
ghost use Rattle.std.specs.declared.option.Option.{Option};
ghost use Rattle.book_files.specs.Folder.{Files, LoadsOf};
ghost use Rattle.book_files.specs.Outside.{Rose};

use crate::error::LoadError;
use std::alloc::Global;

/// Files by their names, which counts its faults.
pub trait Folder {
    // The files, where the folder tells them.
    ghost files: { Self → Option Files };

    // How many faults there were so far, up to the greatest u64.
    ghost faults: { Self → ℕ };

    /// All bytes of the file of this name, which has at most `limit` bytes. The files stay as they were.
    ///
    /// # Errors
    ///
    /// - [`LoadError::Failed`] only where the count of faults rose.
    /// - [`LoadError::NoMemory`] where memory runs out.
    /// - Else [`LoadError::Missing`] exactly where no file has the name, and
    ///   [`LoadError::TooLong`] exactly where the file has more bytes than the limit.
    fn load(&mut self, alloc: Global, name: &str, limit: usize) -> Result<Vec<u8>, LoadError>
        ensures limit { IfOk result (λ v. vec_len v ≤ limit) }
        ensures loads { LoadsOf (files self.old) name.now limit result }
        ensures stays { files self.new ≡ files self.old }

        // The count of faults never falls, and a failure is a fault.
        ensures later { faults self.old ≤ faults self.new }
        ensures cause { result ≡ Err LoadError.Failed → Rose (faults self.old) (faults self.new) };
}
