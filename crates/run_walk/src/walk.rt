// References, blocks and whole ranges taken over a run of operations.
use crate::direction::{area_along, place_along};
use crate::run::{first_place, last_place};
use crate::way::Way;
use cell_addr::Axis;
use cell_value::FaultKind;
use formula_tree::{Corner, Home, Node, Ref};
use tree_rewrite::{Direction, Replacement, changed_area, changed_cell};

// The walk of a formula over the first operations of a way, some of them: its direction, and the home at either end.
#[derive(Drop)]
pub(crate) struct Walk<'a, W> {
    pub(crate) direction: Direction,
    pub(crate) way: &'a W,
    pub(crate) count: usize,
    pub(crate) from: Home,
    pub(crate) to: Home,
}

impl<'a, W: Way> Replacement for Walk<'a, W> {
    ghost use Rattle.std.specs.Prelude.{take};
    ghost use Rattle.run_walk.specs.internal.Walked.{TakesArea, TakesCell, area_walked, cell_walked};

    ghost TakesCell = { λ w r. TakesCell (W.shifts w.way.now) w.count w.from w.to r };

    ghost TakesArea = { λ w lines r q. TakesArea (W.shifts w.way.now) w.count w.from w.to lines r q };

    ghost for_cell = { λ w r. cell_walked w.direction (take w.count (W.shifts w.way.now)) w.from w.to r };

    ghost for_area = { λ w lines r q. area_walked w.direction (take w.count (W.shifts w.way.now)) w.from w.to lines r q };

    fn reference(&self, reference: Ref) -> Option<Node> {
        let corner = reference.at(self.from);
        let Some(at) = place_along(self.direction, self.way, self.count, corner.at) else {
            return Some(Node::Fault(FaultKind::Ref));
        };
        let new = Ref::of(Corner { at, ..corner }, self.to);
        changed_cell(new, reference)
    }

    fn area(&self, lines: Option<Axis>, first: Ref, last: Ref) -> Option<Node> {
        let (top, bottom) = (first.at(self.from), last.at(self.from));
        let block = top.block_to(bottom);
        let Some(block) = area_along(self.direction, self.way, self.count, lines, block) else {
            return Some(Node::Fault(FaultKind::Ref));
        };
        let top = Corner {
            at: first_place(block),
            ..top
        };
        let bottom = Corner {
            at: last_place(block),
            ..bottom
        };
        let (new_first, new_last) = (Ref::of(top, self.to), Ref::of(bottom, self.to));
        changed_area(lines, (new_first, new_last), (first, last))
    }
}
