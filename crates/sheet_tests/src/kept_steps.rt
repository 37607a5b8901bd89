// Entries that are done and undone, up to a limit.
use std::alloc::{AllocError, Global};
use std::collections::VecDeque;
use undo_book::UndoBook;

// A call of a book, and what it is to answer.
#[derive(Clone, Copy)]
enum Step {
    Push(u8),
    // A step back; whether there is one.
    Back(bool),
    // A step forward; whether there is one.
    Forward(bool),
    // The entry that is taken out of those that are done, or of those that are undone.
    TakeDone(Option<u8>),
    TakeUndone(Option<u8>),
    // An entry put on each side of the book, where it has none and takes two.
    PutDoneAndUndone(u8, u8),
    ForgetUndone,
    // The entries that are done, and those that are undone.
    Has(&'static [u8], &'static [u8]),
    Limit(u16),
}

// A limit, and the calls of a book that has it.
type Calls = (u16, &'static [Step]);

// What books have after the entries 1, 2 and 3 and a step back, and then after a fourth one.
const NEWEST: [Calls; 3] = [
    (
        0,
        &[
            Step::Push(1),
            Step::Push(2),
            Step::Push(3),
            Step::Back(false),
            Step::Has(&[], &[]),
            Step::Push(4),
            Step::Has(&[], &[]),
            Step::Limit(0),
        ],
    ),
    (
        1,
        &[
            Step::Push(1),
            Step::Push(2),
            Step::Push(3),
            Step::Back(true),
            Step::Has(&[], &[3]),
            Step::Push(4),
            Step::Has(&[4], &[]),
            Step::Limit(1),
        ],
    ),
    (
        2,
        &[
            Step::Push(1),
            Step::Push(2),
            Step::Push(3),
            Step::Back(true),
            Step::Has(&[2], &[3]),
            Step::Push(4),
            Step::Has(&[2, 4], &[]),
            Step::Limit(2),
        ],
    ),
];

// Two steps and no more lead back; one leads forward; both sides are changed, and what is undone is dropped.
const BACK_AND_FORWARD: Calls = (
    2,
    &[
        Step::Push(1),
        Step::Push(2),
        Step::Push(3),
        Step::Back(true),
        Step::Back(true),
        Step::Back(false),
        Step::Has(&[], &[3, 2]),
        Step::Forward(true),
        Step::Has(&[2], &[3]),
        Step::TakeUndone(Some(3)),
        Step::TakeUndone(None),
        Step::Forward(false),
        Step::Has(&[2], &[]),
        Step::TakeDone(Some(2)),
        Step::TakeDone(None),
        Step::PutDoneAndUndone(5, 4),
        Step::Has(&[5], &[4]),
        Step::ForgetUndone,
        Step::Has(&[5], &[]),
    ],
);

// The second entry takes the place of the first.
const OLDEST: Calls = (
    1,
    &[
        Step::Push(1),
        Step::Has(&[1], &[]),
        Step::Push(2),
        Step::Has(&[2], &[]),
    ],
);

// Whether these are the entries, in this order.
fn are(entries: &VecDeque<u8>, expected: &[u8]) -> bool {
    let mut pairs = entries.iter().zip(expected);
    entries.len() == expected.len() && pairs.all(|(entry, other)| *entry == *other)
}

// Puts an entry on each side of the book, where it has none and takes two. Whether it does.
fn put_both(book: &mut UndoBook<u8>, done: u8, undone: u8) -> bool {
    let is_empty = book.limit() == 2 && book.done().is_empty() && book.undone().is_empty();
    if is_empty {
        book.put_undone(undone);
        book.put_done(done);
    }
    is_empty
}

// Makes the call. Whether it answers as it should.
fn holds(book: &mut UndoBook<u8>, step: Step) -> bool {
    match step {
        Step::Push(entry) => {
            book.push(entry);
            true
        }
        Step::Back(is_stepped) => book.step_back() == is_stepped,
        Step::Forward(is_stepped) => book.step_forward() == is_stepped,
        Step::TakeDone(entry) => book.take_done() == entry,
        Step::TakeUndone(entry) => book.take_undone() == entry,
        Step::PutDoneAndUndone(done, undone) => put_both(book, done, undone),
        Step::ForgetUndone => {
            book.forget_undone();
            true
        }
        Step::Has(done, undone) => are(book.done(), done) && book.undone() == undone,
        Step::Limit(limit) => book.limit() == limit,
    }
}

// Whether all calls of a new book answer as they should.
fn all_hold(alloc: Global, calls: &Calls) -> Result<bool, AllocError> {
    let mut book = UndoBook::new(alloc, calls.0)?;
    for step in calls.1 {
        if !holds(&mut book, *step) {
            return Ok(false);
        }
    }
    Ok(true)
}

#[test]
fn the_newest_stay_up_to_the_limit(rt: HostRuntime) -> Result<(), AllocError> {
    for calls in &NEWEST {
        assert!(rt; all_hold(rt.alloc(), calls)?);
    }
    Ok(())
}

#[test]
fn steps_go_back_and_forward(rt: HostRuntime) -> Result<(), AllocError> {
    assert!(rt; all_hold(rt.alloc(), &BACK_AND_FORWARD)?);
    Ok(())
}

#[test]
fn the_oldest_is_dropped_at_the_limit(rt: HostRuntime) -> Result<(), AllocError> {
    assert!(rt; all_hold(rt.alloc(), &OLDEST)?);
    Ok(())
}
