// Cells that are given a number, a truth value or a text as it is.
ghost use Rattle.book_model.specs.Content.{text_given};
ghost use Rattle.book_model.specs.Operation as op;
ghost use Rattle.cell_value.specs.Scalar.{truth_text};
ghost use Rattle.fix_num.specs.Number.{within};

use crate::session::Session;
use crate::status::Status;
use cell_addr::Place;
use fix_num::Fixed;

impl Session {
    ghost use Rattle.engine_face.specs.Session.{Asks, AsksNumber};

    /// Gives a cell the number of so many millionths, as [`Engine::set_number`]. `BadNumber` for a number of 10^12 or more in
    /// absolute value.
    ///
    /// [`Engine::set_number`]: book_engine::Engine::set_number
    pub fn set_number(&mut self, at: Place, millionths: i64) -> Status
        ensures { AsksNumber at (within millionths) self.old self.new result }
    {
        match Fixed::from_millionths(millionths) {
            Ok(number) => Status::of(self.engine.set_number(at, number)),
            Err(_) => Status::BadNumber,
        }
    }

    /// Gives a cell a truth value, as [`Engine::set_truth`].
    ///
    /// [`Engine::set_truth`]: book_engine::Engine::set_truth
    pub fn set_truth(&mut self, at: Place, truth: bool) -> Status
        ensures { Asks (op.set at (truth_text truth)) self.old self.new result }
    {
        Status::of(self.engine.set_truth(at, truth))
    }

    /// Gives a cell this text as it is, as [`Engine::set_text`].
    ///
    /// [`Engine::set_text`]: book_engine::Engine::set_text
    pub fn set_text(&mut self, at: Place, text: &str) -> Status
        ensures { Asks (op.set at (text_given text.now)) self.old self.new result }
    {
        Status::of(self.engine.set_text(at, text))
    }
}
