//! What an operation bent and lost, found in the workbook that it led to.
//!
//! Where a structural operation is taken back, what it had bent and lost comes back, and is to be marked. Nothing needs to be noted
//! for that while the operation stands. A range, whole or not, that it bent, and didn't lose, is bent as it stands then by the
//! operation's probe, another operation that is never done and bends only what is near, or whole ranges across the edited lines: after
//! an insert one more line put there, after a deletion the two lines at the border in each other's place, after a move a line next to
//! the moved ones taken where they went. And a formula that was linked to what it lost has the fault `#REF!` as a part.
#![tactic(auto)]

mod laws;
mod lost;
mod probes;

pub use laws::{
    bent_are_probed, bent_wholes_are_probed, lost_anywhere, lost_are_seen, probes_are_sound,
    probes_bend_few, probes_bend_few_wholes, suspects_are_restored, suspects_bring_back,
};
pub use lost::has_lost;
pub use probes::probe;
