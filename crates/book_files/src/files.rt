// Files in memory.
ghost use Rattle.std.specs.Prelude.{◌≡◌, ◌≢◌, ◌≤◌, ◌↔◌, ℕ, List, Some, vec_len, IfOk, OnOk, OnErr, IsErrOf, Contains};
ghost use Rattle.book_files.specs.Folder.{Loads, LoadsOf, faults_after_load, files_of, load_of, no_files, with_file};
ghost use Rattle.book_files.specs.Outside.{Rose, counted};

use crate::error::LoadError;
use crate::folder::Folder;
use std::alloc::{AllocError, Global};
use std::collections::BTreeMap;

/// Files in memory: the bytes of each by its name.
pub struct FileMap {
    alloc: Global,
    files: BTreeMap<String, Vec<u8>>,
}

// Written out, so that whoever drops one calls one function.
impl Drop for FileMap {
    fn drop(self) {
        let FileMap {
            alloc: _,
            files: _files,
        } = self;
    }
}

impl FileMap {
    /// No files.
    pub fn new(alloc: Global) -> Result<FileMap, AllocError>
        ensures { IfOk result (λ map. (name : List ℕ) → files_of map name ≡ no_files name) }
    {
        Ok(FileMap {
            alloc,
            files: BTreeMap::new(alloc),
        })
    }

    /// Puts a file among the others, in place of the one that had its name. For want of memory the
    /// files stay as they were.
    pub fn put(&mut self, name: &str, bytes: Vec<u8>) -> Result<(), AllocError>
        ensures ok { OnOk result ((other : List ℕ) → files_of self.new other ≡ with_file name.now bytes.items (files_of self.old) other) }
        ensures err { OnErr result ((other : List ℕ) → files_of self.new other ≡ files_of self.old other) }
    {
        let key = String::from_str(self.alloc, name)?;
        self.files.insert(key, bytes)?;
        Ok(())
    }

    // A copy of the bytes of the file of this name.
    fn load(&self, alloc: Global, name: &str, limit: usize) -> Result<Vec<u8>, LoadError>
        ensures limit { IfOk result (λ v. vec_len v ≤ limit) }
        ensures loads { Loads (load_of limit (files_of self.now name.now)) result }
        ensures calm { result ≢ Err LoadError.Failed }
    {
        let Some(bytes) = self.files.get(name) else {
            return Err(LoadError::Missing);
        };
        if bytes.len() > limit {
            return Err(LoadError::TooLong);
        }
        let mut copy = Vec::new(alloc);
        copy.extend_from_slice(bytes)?;
        Ok(copy)
    }
}

/// A folder in memory that never fails.
#[derive(Drop)]
pub struct CalmFolder {
    files: FileMap,
}

impl CalmFolder {
    /// A folder of these files.
    pub fn new(files: FileMap) -> CalmFolder
        ensures { result.files ≡ files }
    {
        CalmFolder { files }
    }
}

impl Folder for CalmFolder {
    ghost files = { λ s. Some (files_of s.files) };

    ghost faults = { λ _. 0 };

    fn load(&mut self, alloc: Global, name: &str, limit: usize) -> Result<Vec<u8>, LoadError>
        ensures limit { IfOk result (λ v. vec_len v ≤ limit) }
        ensures loads { Loads (load_of limit (files_of self.old.files name.now)) result }
        ensures calm { result ≢ Err LoadError.Failed }
        ensures stays { self.new ≡ self.old }
    {
        self.files.load(alloc, name, limit)
    }
}

/// A folder in memory, of whose calls those with given numbers fail.
pub struct MemFolder {
    files: FileMap,
    fails: Vec<u64>,
    calls: u64,
    faults: u64,
}

// Written out, so that whoever drops one calls one function.
impl Drop for MemFolder {
    fn drop(self) {
        let MemFolder {
            files: _files,
            fails: _fails,
            calls: _,
            faults: _,
        } = self;
    }
}

impl MemFolder {
    /// A folder of these files, whose calls with these numbers, counted from 1, fail.
    pub fn new(files: FileMap, fails: Vec<u64>) -> MemFolder
        ensures { result ≡ record { files = files; fails = fails; calls = 0; faults = 0 } }
    {
        MemFolder {
            files,
            fails,
            calls: 0,
            faults: 0,
        }
    }
}

impl Folder for MemFolder {
    ghost files = { λ s. Some (files_of s.files) };

    ghost faults = { λ s. s.faults };

    fn load(&mut self, alloc: Global, name: &str, limit: usize) -> Result<Vec<u8>, LoadError>
        ensures limit { IfOk result (λ v. vec_len v ≤ limit) }
        ensures loads { Loads (load_of limit (files_of self.old.files name.now)) result }
        ensures fails { IsErrOf result LoadError.Failed ↔ Contains self.old.fails.items (counted self.old.calls) }
        ensures after { self.new ≡ record self.old {
          calls = counted self.old.calls;
          faults = faults_after_load self.old.faults result;
        } }
        ensures later { self.old.faults ≤ self.new.faults }
    {
        self.calls = self.calls.saturating_add(1);
        if self.fails.contains(&self.calls) {
            self.faults = self.faults.saturating_add(1);
            return Err(LoadError::Failed);
        }
        self.files.load(alloc, name, limit)
    }
}
