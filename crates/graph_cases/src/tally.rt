// How many calls were made, and how they were answered.
use std::fmt;

// What is compared after a call.
#[derive(Clone, Copy)]
pub(crate) enum Answer {
    Reach,
    Order,
    OnCycle,
    Users,
    Bent,
}

impl Answer {
    // The name of the call that answers it.
    fn name(self) -> &'static str {
        match self {
            Answer::Reach => "reach",
            Answer::Order => "order",
            Answer::OnCycle => "on_cycle",
            Answer::Users => "users",
            Answer::Bent => "bent",
        }
    }
}

// An answer that differs: of which list, and after how many of its calls.
#[derive(Clone, Copy)]
struct Difference {
    seed: u64,
    calls: u32,
    answer: Answer,
}

impl fmt::Display for Difference {
    fn fmt<W: fmt::Write>(&self, f: &mut fmt::Formatter<W>) -> fmt::Result {
        let name = self.answer.name();
        write!(
            f,
            "{name} differs first, in list {} after call {}",
            self.seed, self.calls
        )
    }
}

// Counts over lists of calls.
#[derive(Clone, Copy, Default)]
pub(crate) struct Tally {
    // The list under way, by its seed, and how many calls it has made.
    seed: u64,
    calls: u32,
    pub(crate) links: u64,
    pub(crate) unlinks: u64,
    pub(crate) shifts: u64,
    pub(crate) copies: u64,
    reached: u64,
    on_cycles: u64,
    pub(crate) users: u64,
    pub(crate) bent: u64,
    comparisons: u64,
    first: Option<Difference>,
}

impl Tally {
    // Goes on with the list of this seed.
    pub(crate) fn start_list(&mut self, seed: u64) {
        self.seed = seed;
        self.calls = 0;
    }

    // Goes on with the next call of the list.
    pub(crate) fn start_call(&mut self) {
        self.calls = self.calls.saturating_add(1);
    }

    // One node more that is reached, and whether it is on a cycle.
    pub(crate) fn count_reached(&mut self, is_on_cycle: bool) {
        self.reached = self.reached.saturating_add(1);
        if is_on_cycle {
            self.on_cycles = self.on_cycles.saturating_add(1);
        }
    }

    // One answer more, and whether it is the same as the plain one.
    pub(crate) fn compare(&mut self, answer: Answer, same: bool) {
        self.comparisons = self.comparisons.saturating_add(1);
        if !same && self.first.is_none() {
            self.first = Some(Difference {
                seed: self.seed,
                calls: self.calls,
                answer,
            });
        }
    }

    // Whether no answer differs.
    pub(crate) fn agrees(&self) -> bool {
        self.first.is_none()
    }

    // Writes how many calls were made.
    fn write_calls<W: fmt::Write>(&self, f: &mut fmt::Formatter<W>) -> fmt::Result {
        write!(
            f,
            "{} links, {} unlinks, {} operations, {} copies; ",
            self.links, self.unlinks, self.shifts, self.copies
        )
    }

    // Writes how many nodes were answered.
    fn write_nodes<W: fmt::Write>(&self, f: &mut fmt::Formatter<W>) -> fmt::Result {
        write!(
            f,
            "{} nodes reached, {} of them on cycles, {} users, {} bent; ",
            self.reached, self.on_cycles, self.users, self.bent
        )
    }
}

impl fmt::Display for Tally {
    fn fmt<W: fmt::Write>(&self, f: &mut fmt::Formatter<W>) -> fmt::Result {
        self.write_calls(f)?;
        self.write_nodes(f)?;
        match self.first {
            Some(first) => write!(f, "{} answers: {first}", self.comparisons),
            None => write!(f, "{} answers: none differs", self.comparisons),
        }
    }
}
