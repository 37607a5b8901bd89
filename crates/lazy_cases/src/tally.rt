// How many calls were made, and how they went.
use std::fmt;

/// The counts of lists of calls.
#[derive(Clone, Copy, PartialEq, Eq, Debug, Default)]
pub(crate) struct Tally {
    pub(crate) lists: u64,
    pub(crate) calls: u64,
    pub(crate) comparisons: u64,
    pub(crate) differences: u64,
}

impl Tally {
    /// One more comparison, and one more difference where the two weren't the same.
    pub(crate) fn compare(&mut self, same: bool) {
        self.comparisons = self.comparisons.saturating_add(1);
        if !same {
            self.differences = self.differences.saturating_add(1);
        }
    }
}

impl fmt::Display for Tally {
    fn fmt<W: fmt::Write>(&self, f: &mut fmt::Formatter<W>) -> fmt::Result {
        write!(f, "{} lists of {} calls, ", self.lists, self.calls)?;
        write!(
            f,
            "{} comparisons, {} differences",
            self.comparisons, self.differences
        )
    }
}
