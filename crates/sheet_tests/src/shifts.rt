// Operations on lines as edits; where they move places and blocks is data of `formula_cases`.
use cell_addr::Axis;
use shift_core::{Edit, Form, Shift};

const SHEET: u32 = 1;

const EDITS: [Edit; 3] = [
    Edit::Insert { at: 5, count: 2 },
    Edit::Delete { at: 3, count: 2 },
    Edit::Move {
        from: 2,
        count: 1,
        before: 4,
    },
];

// The edit of the lines of the sheet as the operation that makes it.
fn shift(axis: Axis, edit: Edit) -> Shift {
    let sheet = SHEET;
    match (axis, edit) {
        (Axis::Rows, Edit::Insert { at, count }) => Shift::InsertRows { sheet, at, count },
        (Axis::Cols, Edit::Insert { at, count }) => Shift::InsertCols { sheet, at, count },
        (Axis::Rows, Edit::Delete { at, count }) => Shift::DeleteRows { sheet, at, count },
        (Axis::Cols, Edit::Delete { at, count }) => Shift::DeleteCols { sheet, at, count },
        (
            Axis::Rows,
            Edit::Move {
                from,
                count,
                before,
            },
        ) => Shift::MoveRows {
            sheet,
            from,
            count,
            before,
        },
        (
            Axis::Cols,
            Edit::Move {
                from,
                count,
                before,
            },
        ) => Shift::MoveCols {
            sheet,
            from,
            count,
            before,
        },
    }
}

// Whether the operation is the edit of the lines of the sheet.
fn is_edit(axis: Axis, edit: Edit) -> bool {
    let sheet = SHEET;
    shift(axis, edit).form() == Form::Lines { sheet, axis, edit }
}

#[test]
fn operations_on_lines_are_edits(rt: HostRuntime) {
    for edit in &EDITS {
        assert!(rt; is_edit(Axis::Rows, *edit) && is_edit(Axis::Cols, *edit));
    }
}
