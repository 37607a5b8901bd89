// The list of sheets.
ghost use Rattle.std.specs.Prelude.{◌≡◌};
ghost use Rattle.book_model.specs.Operation as op;
ghost use Rattle.lazy_store.specs.Store.{KeepsAll};
ghost use Rattle.session_operations.specs.Turns.{NoAnswer, Turns};
ghost use Rattle.session_operations.specs.Seen.{Fits, ValuesFollowStill, state_of};

use crate::parts::Parts;
use crate::stop::Stop;

impl Parts {
    /// Adds a sheet at the end of the list, and answers its number, which no other new sheet is ever given. Costs the length of its
    /// name.
    ///
    /// # Errors
    /// `SheetNameInvalid` unless the name has 1 to 100 bytes and no control character, `SheetNameTaken` where a sheet has it, in
    /// some case of its ASCII letters, `SheetLimit` where all 1,024 numbers are used; the first that holds.
    pub fn add_sheet(&mut self, name: &str) -> Result<u32, Stop>
        requires { Fits self.old }
        ensures turns { Turns (op.add_sheet name.now) (λ d number. number ≡ d.next_sheet) (state_of self.old) (state_of self.new) result }
        ensures fits { Fits self.new }
        ensures kept { KeepsAll self.old.session.book.lazy self.new.session.book.lazy }
        ensures follow { ValuesFollowStill self.old self.new }
        ensures values { self.new.values ≡ self.old.values }
    {
        self.check_add(name)?;
        let number = self.session.add_sheet(name)?;
        Ok(number)
    }

    /// Gives a sheet another name. No formula is touched. Costs the length of the name, and the number of sheets.
    ///
    /// # Errors
    /// `NoSheet`, `SheetNameInvalid`, `SheetNameTaken` where another sheet has it, as for [`Parts::add_sheet`]; the first that
    /// holds.
    pub fn rename_sheet(&mut self, sheet: u32, name: &str) -> Result<(), Stop>
        requires { Fits self.old }
        ensures turns { Turns (op.rename_sheet sheet name.now) NoAnswer (state_of self.old) (state_of self.new) result }
        ensures fits { Fits self.new }
        ensures kept { KeepsAll self.old.session.book.lazy self.new.session.book.lazy }
        ensures follow { ValuesFollowStill self.old self.new }
        ensures values { self.new.values ≡ self.old.values }
    {
        self.check_rename(sheet, name)?;
        self.session.rename_sheet(sheet, name)?;
        Ok(())
    }
}
