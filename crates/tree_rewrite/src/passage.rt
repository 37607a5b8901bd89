// References taken over a structural operation.
use crate::corners::{first_place, last_place};
use crate::direction::Direction;
use crate::replacement::{Replacement, changed_area, changed_cell};
use cell_addr::Axis;
use cell_value::FaultKind;
use formula_tree::{Corner, Home, Node, Ref};
use shift_core::Shift;

// The way of a formula over an operation: its direction, and the home at either end.
#[derive(Clone, Copy)]
pub(crate) struct Passage {
    pub(crate) direction: Direction,
    pub(crate) shift: Shift,
    pub(crate) from: Home,
    pub(crate) to: Home,
}

impl Replacement for Passage {
    ghost use Rattle.tree_rewrite.specs.internal.Passage.{TakesCell, TakesArea, cell_passed, area_passed};

    ghost TakesCell = { TakesCell };

    ghost TakesArea = { TakesArea };

    ghost for_cell = { cell_passed };

    ghost for_area = { area_passed };

    fn reference(&self, reference: Ref) -> Option<Node> {
        let corner = reference.at(self.from);
        let Some(at) = self.direction.place(&self.shift, corner.at) else {
            return Some(Node::Fault(FaultKind::Ref));
        };
        let new = Ref::of(Corner { at, ..corner }, self.to);
        changed_cell(new, reference)
    }

    fn area(&self, lines: Option<Axis>, first: Ref, last: Ref) -> Option<Node> {
        let (top, bottom) = (first.at(self.from), last.at(self.from));
        let block = top.block_to(bottom);
        let Some(block) = self.direction.area(&self.shift, lines, block) else {
            return Some(Node::Fault(FaultKind::Ref));
        };
        let top = Corner {
            at: first_place(block),
            ..top
        };
        let bottom = Corner {
            at: last_place(block),
            ..bottom
        };
        let (new_first, new_last) = (Ref::of(top, self.to), Ref::of(bottom, self.to));
        changed_area(lines, (new_first, new_last), (first, last))
    }
}
