// Why an operation is refused.
ghost use Rattle.std.specs.Prelude.{◌≡◌};
ghost use Rattle.book_model.specs.RefusalNames.{refusal_name, refusal_number};

/// Why an operation is refused. A refused operation changes nothing. This project's own.
#[derive(Clone, Copy, PartialEq, Eq, Debug)]
pub enum Refusal {
    /// The workbook has no such sheet.
    NoSheet,
    /// Another sheet has the name, in some case of its ASCII letters.
    SheetNameTaken,
    /// The name hasn't 1 to 100 bytes, or has a control character.
    SheetNameInvalid,
    /// The place, the block or the span isn't within the limits of a sheet.
    Outside,
    /// A filled cell would be pushed off the sheet.
    SizeLimit,
    /// More cells would be filled than a workbook may have.
    CellLimit,
    /// The scope has a name of this word, in some case of its ASCII letters.
    NameTaken,
    /// The word isn't of the form of a name, as [`crate::is_name`] has it.
    NameInvalid,
    /// There is no such name.
    NoSuchName,
    /// A reference of a name's formula lacks a `$`, or, in a name of the whole workbook, its sheet.
    RelativeAddress,
    /// No step can be undone.
    NothingToUndo,
    /// No step can be redone.
    NothingToRedo,
    /// Nothing was copied or cut, or what was cut is pasted or no longer waits.
    NothingToPaste,
    /// The computation of values is suspended, or a batch is open.
    Suspended,
    /// A batch is open.
    BatchOpen,
    /// No batch is open.
    NoBatch,
    /// The span has no lines, or is moved to where it is.
    BadSpan,
    /// The text is longer than a text given to a cell, to a name or for a try may be.
    TextLimit,
    /// All sheet numbers of the session are used.
    SheetLimit,
    /// The text is no formula.
    BadFormula,
}

impl Refusal {
    /// The number that a reply gives.
    pub fn number(self) -> u8
        ensures { result ≡ refusal_number self }
    {
        self.line().0
    }

    /// The name that a reply gives.
    pub fn name(self) -> &'static str
        ensures { result.now ≡ refusal_name self }
    {
        self.line().1
    }

    // Its line in the table of refusals: its number and its name.
    fn line(self) -> (u8, &'static str)
        ensures number { result.0 ≡ refusal_number self }
        ensures name { result.1.now ≡ refusal_name self }
    {
        match self {
            Refusal::NoSheet => (1, "NoSheet"),
            Refusal::SheetNameTaken => (2, "SheetNameTaken"),
            Refusal::SheetNameInvalid => (3, "SheetNameInvalid"),
            Refusal::Outside => (4, "Outside"),
            Refusal::SizeLimit => (5, "SizeLimit"),
            Refusal::CellLimit => (6, "CellLimit"),
            Refusal::NameTaken => (7, "NameTaken"),
            Refusal::NameInvalid => (8, "NameInvalid"),
            Refusal::NoSuchName => (9, "NoSuchName"),
            Refusal::RelativeAddress => (10, "RelativeAddress"),
            Refusal::NothingToUndo => (11, "NothingToUndo"),
            Refusal::NothingToRedo => (12, "NothingToRedo"),
            Refusal::NothingToPaste => (13, "NothingToPaste"),
            Refusal::Suspended => (14, "Suspended"),
            Refusal::BatchOpen => (15, "BatchOpen"),
            Refusal::NoBatch => (16, "NoBatch"),
            Refusal::BadSpan => (17, "BadSpan"),
            Refusal::TextLimit => (18, "TextLimit"),
            Refusal::SheetLimit => (19, "SheetLimit"),
            Refusal::BadFormula => (20, "BadFormula"),
        }
    }
}
