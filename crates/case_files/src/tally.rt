// How many cases were run, and how they went.
ghost use Rattle.std.specs.Prelude.{◌≡◌, ◌↔◌, ◌==◌, ◌+◌, if◌then◌else◌, min, IsTrue};

use std::fmt;

/// The count of the cases of one file or more.
#[derive(Clone, Copy, PartialEq, Eq, Debug, Default)]
pub struct Tally {
    /// How many cases were run.
    pub cases: u64,
    /// How many of them aren't as they should be.
    pub differ: u64,
    /// How many files can't be read, or have no case.
    pub empty_files: u64,
}

impl Tally {
    /// One case more, which is as it should be or isn't.
    pub fn count(&mut self, holds: bool)
        ensures cases { self.new.cases ≡ min (self.old.cases + 1) u64.MAX }
        ensures differ { self.new.differ ≡ (if holds then self.old.differ else min (self.old.differ + 1) u64.MAX) }
        ensures empty_files { self.new.empty_files ≡ self.old.empty_files }
    {
        self.cases = self.cases.saturating_add(1);
        if !holds {
            self.differ = self.differ.saturating_add(1);
        }
    }

    /// This count and that of one file more, which counts as empty where it has no case.
    pub fn with(self, file: Tally) -> Tally
        ensures cases { result.cases ≡ min (self.cases + file.cases) u64.MAX }
        ensures differ { result.differ ≡ min (self.differ + file.differ) u64.MAX }
        ensures empty_files { result.empty_files ≡ min (self.empty_files + (if file.cases == 0 then 1 else 0)) u64.MAX }
    {
        let none = if file.cases == 0 { 1 } else { 0 };
        Tally {
            cases: self.cases.saturating_add(file.cases),
            differ: self.differ.saturating_add(file.differ),
            empty_files: self.empty_files.saturating_add(none),
        }
    }

    /// Whether every file has cases and none differs.
    pub fn is_clean(self) -> bool
        ensures { IsTrue result ↔ ((self.differ ≡ 0) × (self.empty_files ≡ 0)) }
    {
        self.differ == 0 && self.empty_files == 0
    }
}

impl fmt::Display for Tally {
    fn fmt<W: fmt::Write>(&self, f: &mut fmt::Formatter<W>) -> fmt::Result {
        write!(f, "{} cases, {} differ", self.cases, self.differ)
    }
}
