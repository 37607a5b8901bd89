// Where texts stop being formulas.
ghost use Rattle.std.specs.Prelude.{◌≡◌, true};
ghost use Rattle.book_engine.specs.Formulas.{untold_cause};
ghost use Rattle.engine_face.specs.Areas.{SaysWrong, wrong_row};
ghost use Rattle.engine_face.specs.Shown.{EndTold};
ghost use Rattle.engine_face.specs.Status.{status_of_end};

use crate::session::Session;
use crate::status::Status;
use book_engine::{Stop, TextSpan};

/// The part of a text at which no formula goes on.
#[repr(C)]
#[derive(Clone, Copy)]
pub struct WrongPart {
    /// 1; or 0 where the text is a formula, and so the next two.
    pub is_wrong: u32,
    /// The byte at which it begins.
    pub start: usize,
    /// How many bytes it has: 0 at the end of the text.
    pub length: usize,
}

impl Session {
    ghost use Rattle.engine_face.specs.Session.{Finds, Tells};

    /// Where a text stops being a formula, as [`Engine::parse_error`].
    ///
    /// [`Engine::parse_error`]: book_engine::Engine::parse_error
    pub fn parse_error(&self, sheet: u32, text: &str, part: &mut WrongPart) -> Status
        ensures does { Finds (λ d. untold_cause d.book sheet text.now) (λ d. true) self.now self.now result }
        ensures told { Tells (λ d. SaysWrong text.now) part.old part.new self.now result }
    {
        tell_wrong(self.engine.parse_error(sheet, text), part)
    }
}

// Tells a part of a text, or that there is none, or says why that isn't known.
fn tell_wrong(end: Result<Option<TextSpan>, Stop>, part: &mut WrongPart) -> Status
    ensures status { result ≡ status_of_end end }
    ensures told { EndTold wrong_row end part.old part.new }
{
    match end {
        Ok(found) => {
            *part = wrong_row(found);
            Status::Done
        }
        Err(stop) => Status::from(stop),
    }
}

// A part of a text as numbers.
fn wrong_row(found: Option<TextSpan>) -> WrongPart
    ensures { result ≡ wrong_row found }
{
    match found {
        Some(span) => WrongPart {
            is_wrong: 1,
            start: span.at,
            length: span.length,
        },
        None => WrongPart {
            is_wrong: 0,
            start: 0,
            length: 0,
        },
    }
}
