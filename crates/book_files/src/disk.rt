// The files of the system.
ghost use Rattle.std.specs.Prelude.{◌≡◌, ◌≤◌, None};
ghost use Rattle.book_files.specs.Folder.{LoadsOf};
ghost use Rattle.book_files.specs.Outside.{Rose};

use crate::error::LoadError;
use crate::folder::Folder;
use crate::input::read_at_most;
use crate::standard::StdSource;
use std::alloc::Global;
use std::fs;
use std::io::ErrorKind;
use std::rt::Files;

/// The files of the system, by their paths. It tells nothing of them. What is no file, as a folder,
/// and what may not be read fails; only where there is no such file is it missing.
#[derive(Drop)]
pub struct DiskFolder<'a, R: Files> {
    rt: &'a R,
    faults: u64,
}

impl<'a, R: Files> DiskFolder<'a, R> {
    /// The files of a runtime.
    pub fn new(rt: &'a R) -> DiskFolder<'a, R>
        ensures { result.faults ≡ 0 }
    {
        DiskFolder { rt, faults: 0 }
    }
}

impl<'a, R: Files> Folder for DiskFolder<'a, R> {
    ghost files = { λ _. None };

    ghost faults = { λ s. s.faults };

    fn load(&mut self, alloc: Global, name: &str, limit: usize) -> Result<Vec<u8>, LoadError> {
        match fs::open(self.rt, name) {
            Ok(file) => {
                let mut source = StdSource::of(file, self.faults);
                let bytes = read_at_most(alloc, &mut source, limit);
                self.faults = source.faults();
                bytes
            }
            Err(error) if error.kind() == ErrorKind::NotFound => Err(LoadError::Missing),
            Err(_) => {
                self.faults = self.faults.saturating_add(1);
                Err(LoadError::Failed)
            }
        }
    }
}
