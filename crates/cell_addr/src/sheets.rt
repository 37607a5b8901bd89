// Lists of sheets, by number and name.
ghost use Rattle.std.specs.Prelude.{◌≡◌, ℕ, List, [], ◌∷◌};
ghost use Rattle.std.specs.Option.{option_copied};
ghost use Rattle.cell_addr.specs.Sheets.{id_in, name_in, AreSheets};

use crate::text::{Text, same_folded};

/// The sheets that formulas and addresses may name: pairs of a number and a name, in which no number
/// and no name stands twice, and none is [`crate::NO_SHEET`]. Names are compared with ASCII letters folded.
pub trait SheetNames {
    // The numbers and names of the sheets.
    ghost sheets: { Self → List (ℕ × List ℕ) };

    // No number and no folded name stands twice, and no sheet has the number that is no sheet's.
    ghost are_sheets: { (s : Self) → AreSheets (sheets s) };

    /// The number of the sheet of this name, in any case of its ASCII letters. `None` where no sheet has
    /// the name.
    fn id_of(&self, name: &str) -> Option<u32>
        ensures { result ≡ id_in (sheets self.now) name.now };

    /// The name of the sheet of this number. `None` where no sheet has the number.
    fn name_of(&self, id: u32) -> Option<&Text>
        ensures { option_copied result ≡ name_in (sheets self.now) id };
}

/// The list of one sheet, whose number is 0.
#[derive(Drop, Debug)]
pub struct OneSheet {
    /// The sheet's name.
    pub name: Text,
}

impl SheetNames for OneSheet {
    ghost use Rattle.cell_addr.specs.internal.OneSheet.{AreSheets-one};

    ghost sheets = { λ s. (0, s.name) ∷ [] };

    ghost are_sheets = { λ s. AreSheets-one s.name };

    fn id_of(&self, name: &str) -> Option<u32> {
        if same_folded(self.name.as_str(), name) {
            Some(0)
        } else {
            None
        }
    }

    fn name_of(&self, id: u32) -> Option<&Text> {
        if id == 0 { Some(&self.name) } else { None }
    }
}
