//! What changes and structural operations leave of links and kept values that follow a workbook.
//!
//! Of a workbook the links of its formulas are kept, and the values of its cells and names. A change doesn't link and work out what
//! it touches at once: it marks it. Links and values follow the workbook as long as only of marked nodes the links are open, and
//! only of what reaches a mark the values.
#![tactic(auto)]

mod laws;

pub use laws::{
    added_follow, added_is_found, added_leaves_alone, all_marked_follow, alone_leaves_to_needs,
    bent_are_noted, books_stay_inside, cells_alone, changed_follow, changed_is_found_alike,
    changed_leaves_to_needs, changes_follow, fits_follow, follow_fits, linked_anew_fits,
    linked_or_marked, links_are_inside, more_marks_follow, name_alone, name_leaves_to_needs,
    needs_follow, nodes_link_anew, rebound_leaves_alone, removed_follow, removed_leaves_alone,
    removed_was_found, restored_are_marked, returns_follow, right_follow, shifts_follow,
    shifts_go_back_follow, touched_are_marked,
};
