// Entries of lists.

// What an operation of a run is on a sheet, with its index in the run.
#[derive(Clone, Copy)]
pub(crate) struct Entry<T> {
    pub(crate) index: usize,
    pub(crate) what: T,
}
