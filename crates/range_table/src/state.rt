// What is known of the block of a number.
ghost use Rattle.std.specs.Prelude.{◌≡◌};
ghost use Rattle.range_table.specs.internal.States.{is_found, summary_in};

use cell_value::Summary;

// What is known of the block of a number.
#[derive(Clone, Copy)]
pub(crate) enum State {
    // Nothing: neither its cells nor operations need find it by the number.
    Left,
    // They find it, and no summary is kept for it.
    Found,
    // They find it, and this summary is kept for it.
    Kept(Summary),
}

impl State {
    // The summary that is kept.
    pub(crate) fn summary(self) -> Option<Summary>
        ensures { result ≡ summary_in self }
    {
        match self {
            State::Kept(summary) => Some(summary),
            State::Found => None,
            State::Left => None,
        }
    }

    // Whether the block is found.
    pub(crate) fn is_found(self) -> bool
        ensures { result ≡ is_found self }
    {
        match self {
            State::Kept(_) => true,
            State::Found => true,
            State::Left => false,
        }
    }
}
