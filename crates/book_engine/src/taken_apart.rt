// An engine taken apart into what it consists of, and joined again.
ghost use Rattle.std.specs.Prelude.{◌≡◌, option_map};
ghost use Rattle.cell_addr.specs.declared.place.Place.{Place};
ghost use Rattle.book_model.specs.Workbook.{State};

use crate::engine::Engine;
use calc_eval::Customs;
use clip_board::Clip;
use formula_tree::Pool;
use grid_store::{Cell, Grid};
use kept_book::Book;
use kept_steps::{Entry, Session};
use lazy_store::Lazy;
use name_table::Names;
use session_questions::{Parts, SessionValues, Values, Waiting};
use std::alloc::Global;
use undo_book::UndoBook;

/// All that an [`Engine`] consists of: whatever it answers, it answers from these alone.
///
/// `FitParts` says which of them are the parts of an engine in a session.
#[derive(Drop)]
pub struct EngineParts<C> {
    /// Where formulas, cells, names and values take memory.
    pub alloc: Global,
    /// The trees that formulas share.
    pub pool: Pool,
    /// The formulas along the line of structural operations, each under an id.
    pub lazy: Lazy,
    /// The filled cells. One that holds a formula has its id.
    pub grid: Grid<Cell>,
    /// The sheets, and the named expressions with the ids of their formulas.
    pub names: Names,
    /// The links of formulas, the kept values and the marks; `None` where nothing is kept, so that the next read works the whole
    /// workbook out.
    pub values: Option<Values>,
    /// What waits to be pasted.
    pub clip: Clip,
    /// The steps that can be undone and redone.
    pub undo: UndoBook<Entry>,
    /// What changed in the open batch so far; `None` where no batch is open.
    pub batch: Option<Entry>,
    /// The id that the next formula gets. None is used again.
    pub next_id: u64,
    /// The custom functions.
    pub registry: C,
    /// The serial number of today.
    pub day: i32,
    /// Whether the computation of values is suspended.
    pub suspended: bool,
    /// The number that the next new sheet gets.
    pub next_sheet: u32,
    /// The next id from which on a change that adds formulas first drops those that nothing names any more.
    pub sweep_at: u64,
}

#[tactic(auto, unfolding(crate::specs::Engine::StandsFor))]
impl<C: Customs> Engine<C> {
    ghost use Rattle.book_engine.specs.Engine.{StandsFor};
    ghost use Rattle.session_questions.specs.Values.{marks_in};
    ghost use Rattle.book_engine.specs.Kept.{book_kept, marks_kept, merged_in_any, merged_kept, session_kept, stored_by};
    ghost use Rattle.book_engine.specs.TakenApart.{FitParts, parts_of, stored_among};

    /// Takes the engine apart, into parts that fit its session. Nothing is copied or worked out, and no memory is taken.
    pub fn parts(self) -> EngineParts<C>
        ensures parts { result ≡ parts_of self }
        ensures fit { (d : State) → StandsFor C.customs self d → FitParts C.customs result d }
        ensures some { (d : State) × FitParts C.customs result d }
        ensures stored { (at : Place) → stored_among result at ≡ stored_by self at }
        ensures line { result.lazy.line ≡ (book_kept self).lazy.line }
        ensures entries { result.undo ≡ (session_kept self).steps }
        ensures marks { option_map marks_in result.values ≡ marks_kept self }
        ensures merged { merged_in_any result.values ≡ merged_kept self }
    {
        let (parts, waiting, customs, day) = self.into_fields();
        let Parts { session, values } = parts;
        let Waiting { clip } = waiting;
        let Session {
            pool,
            book,
            steps,
            batch,
            suspended,
            next_sheet,
            sweep_at,
        } = session;
        let Book {
            alloc,
            lazy,
            grid,
            names,
            next_id,
        } = book;
        let SessionValues { values } = values;
        EngineParts {
            alloc,
            pool,
            lazy,
            grid,
            names,
            values,
            clip,
            undo: steps,
            batch,
            next_id,
            registry: customs,
            day,
            suspended,
            next_sheet,
            sweep_at,
        }
    }

    /// The engine of these parts, in the session that they fit. Nothing is copied or worked out, and no memory is taken: an engine
    /// that kept another workbook beside its parts to answer from could not be made here, where there is nothing to make it of.
    pub fn joined(parts: EngineParts<C>) -> Engine<C>
        requires { (d : State) × FitParts C.customs parts d }
        ensures parts { parts_of result ≡ parts }
        ensures stands { (d : State) → FitParts C.customs parts d → StandsFor C.customs result d }
        ensures stored { (at : Place) → stored_by result at ≡ stored_among parts at }
        ensures line { (book_kept result).lazy.line ≡ parts.lazy.line }
        ensures entries { (session_kept result).steps ≡ parts.undo }
        ensures marks { marks_kept result ≡ option_map marks_in parts.values }
        ensures merged { merged_kept result ≡ merged_in_any parts.values }
    {
        let EngineParts {
            alloc,
            pool,
            lazy,
            grid,
            names,
            values,
            clip,
            undo,
            batch,
            next_id,
            registry,
            day,
            suspended,
            next_sheet,
            sweep_at,
        } = parts;
        let book = Book {
            alloc,
            lazy,
            grid,
            names,
            next_id,
        };
        let session = Session {
            pool,
            book,
            steps: undo,
            batch,
            suspended,
            next_sheet,
            sweep_at,
        };
        Engine {
            parts: Parts {
                session,
                values: SessionValues { values },
            },
            waiting: Waiting { clip },
            customs: registry,
            day,
        }
    }
}
