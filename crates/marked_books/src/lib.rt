//! What the operations of a session leave of the nodes of its workbook, so that links and kept values follow it.
//!
//! The plain machine of a session says what each operation makes of the workbook. Of each of these operations it is said here
//! which places and names it leaves alone, or that it is a structural operation as links and kept values follow it.
#![tactic(auto)]

mod laws;

pub use laws::{
    accepted_shifts_lead_on, adding_leaves_alone, changing_leaves_to_needs, emptying_leaves_alone,
    naming_leaves_alone, pasting_leaves_alone, removing_leaves_alone, sessions_are_inside,
    setting_leaves_alone, sheets_leave_alone,
};
