// Workbooks opened and closed.
ghost use Rattle.std.specs.Prelude.{◌≡◌, [], IsNone, IsSome, MatchResult, None};
ghost use Rattle.engine_face.specs.Status.{status_numbered};
ghost use Rattle.engine_face.specs.declared.status.Status.TheVariants.{NoMemory, StillOpen};
ghost use Rattle.rule_table.specs.Table.{rows_told, rules_told};
ghost use Rattle.engine_c.specs.Calls.{IsOpenedOnHeap, Opens};

use crate::book::Book;
use engine_face::{RulePair, RuleRow, RuleTable, Session, Status};
use std::alloc::Global;

/// Opens a workbook without sheets, of which so many steps can be undone, whose formulas see the day of this serial number as
/// today and can call the custom functions of the table.
#[unsafe(no_mangle)]
pub extern "C" fn fz_open(
    book: &mut Book,
    undo_limit: u32,
    day: i32,
    rows: &[RuleRow],
    pairs: &[RulePair],
    words: &[u8],
) -> u8
    ensures opens { IsNone book.old.handle.value → Opens undo_limit day (rows_told words.now pairs.now [] rows.now) book.new.handle.value (status_numbered result) }
    ensures still_open { IsSome book.old.handle.value → status_numbered result ≡ StillOpen }
    ensures left { IsSome book.old.handle.value → book.new.handle.value ≡ book.old.handle.value }
{
    if book.is_open() {
        return Status::StillOpen.number();
    }
    let table = RuleTable { rows, pairs, words };
    let end = opened(book.alloc(), undo_limit, day, &table);
    let RuleTable {
        rows: _,
        pairs: _,
        words: _,
    } = table;
    match end {
        Ok(session) => {
            book.put(session);
            Status::Done.number()
        }
        Err(status) => status.number(),
    }
}

// A session on the heap.
fn opened(
    alloc: Global,
    undo_limit: u32,
    day: i32,
    table: &RuleTable<'_>,
) -> Result<Box<Session>, Status>
    ensures { IsOpenedOnHeap (λ session. session.value) undo_limit day (rules_told table.now) result }
{
    match Session::build(alloc, undo_limit, day, table) {
        Ok(session) => on_heap(alloc, session),
        Err(status) => Err(status),
    }
}

// Puts a session on the heap.
fn on_heap(alloc: Global, session: Session) -> Result<Box<Session>, Status>
    ensures { MatchResult result (λ held. held.value ≡ session) (λ status. status ≡ NoMemory) }
{
    match Box::new(alloc, session) {
        Ok(held) => Ok(held),
        Err(_) => Err(Status::NoMemory),
    }
}

/// Closes the workbook, where one is open.
#[unsafe(no_mangle)]
pub extern "C" fn fz_close(book: &mut Book)
    ensures { book.new.handle.value ≡ None }
{
    book.take();
}

/// Whether a workbook is open.
#[unsafe(no_mangle)]
pub extern "C" fn fz_is_open(book: &Book) -> bool {
    book.is_open()
}
