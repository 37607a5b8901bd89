// A session: a kept workbook with its steps.
ghost use Rattle.kept_steps.specs.Fits.{Fits};
ghost use Rattle.kept_steps.specs.internal.FitsProp.{fits-prop};

use crate::entry::Entry;
use crate::sweeping::next_sweep;
use book_model::BookSheet;
use formula_tree::Pool;
use kept_book::Book;
use std::alloc::{AllocError, Global};
use undo_book::UndoBook;

/// A workbook, the trees that its formulas share, the steps that can be undone and done again, the open batch, which becomes
/// one of them, whether the computation of values is suspended, and the number that the next new sheet gets. Formulas that
/// nothing names any more are dropped by the next change that adds formulas once the next id is `sweep_at`.
#[derive(Drop)]
pub struct Session {
    pub pool: Pool,
    pub book: Book,
    pub steps: UndoBook<Entry>,
    pub batch: Option<Entry>,
    pub suspended: bool,
    pub next_sheet: u32,
    pub sweep_at: u64,
    pub ghost fits: { Fits book steps batch } by { fits-prop book steps batch },
}

impl Session {
    ghost use Rattle.std.specs.Prelude.{◌≡◌, IfOk, [], pos};
    ghost use Rattle.book_model.specs.Given.{CanBegin, given_sheets, session_given};
    ghost use Rattle.kept_steps.specs.Session.{state_of};

    /// The session of a workbook with these sheets and texts, in which so many steps can be undone.
    pub fn build(alloc: Global, books: &[BookSheet], limit: u16) -> Result<Session, AllocError>
        requires { CanBegin (given_sheets books.now) }
        ensures { IfOk result (λ s. state_of s ≡ session_given limit [] (pos 0) (given_sheets books.now)) }
    {
        let mut pool = Pool::new(alloc)?;
        let steps = UndoBook::new(alloc, limit)?;
        let book = Book::given(alloc, &mut pool, books)?;
        let next_id = book.next_id;
        Ok(Session {
            pool,
            book,
            steps,
            batch: None,
            suspended: false,
            next_sheet: books.len() as u32,
            sweep_at: next_sweep(next_id, next_id),
        })
    }
}
