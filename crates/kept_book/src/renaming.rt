// The table of names as changes are taken back or done again.
ghost use Rattle.std.specs.Prelude.{◌≡◌, IfOk, OnOk, map};
ghost use Rattle.name_table.specs.Drafts.{HasKnownWords, names_drafted, sheets_drafted};
ghost use Rattle.name_table.specs.Listed.{listed};
ghost use Rattle.name_table.specs.Named.{names_of, words_of};
ghost use Rattle.name_table.specs.Scopes.{NameMap};
ghost use Rattle.kept_book.specs.Change.{AreKnown, HasSlot, HaveSlots, names_with, sheets_with, with_slot};
ghost use Rattle.kept_book.specs.Frame.{Words};
ghost use Rattle.kept_book.specs.Kept.{changes_of, name_change, sheet_change};
ghost use Rattle.kept_book.specs.internal.Stepping.{CanPass, CanRepeat, CanReturn, names_back, names_forth, names_on, of_side, sheets_back, sheets_forth, sheets_on};

use crate::part::{NameChange, Part, SheetChange};
use crate::passing::Side;
use cell_addr::Text;
use name_table::{NameDraft, Names};
use std::alloc::{AllocError, Global};

// The draft that takes the table of names to one side of the parts.
pub(crate) fn drafted(
    alloc: Global,
    names: &Names,
    parts: &[Part],
    side: Side,
) -> Result<NameDraft, AllocError>
    requires can { CanPass side (words_of names.now) (changes_of parts.now) (listed names.now) }
    ensures sheets { IfOk result (λ draft. sheets_drafted draft (listed names.now) ≡ sheets_on side (changes_of parts.now) (listed names.now)) }
    ensures names { IfOk result (λ draft. names_drafted draft (names_of names.now) ≡ names_on side (changes_of parts.now) (names_of names.now)) }
    ensures known { IfOk result (HasKnownWords (words_of names.now)) }
{
    match side {
        Side::Before => drafted_back(alloc, names, parts),
        Side::After => drafted_forth(alloc, names, parts),
    }
}

// The draft that takes it back over the parts, the last one first.
fn drafted_back(alloc: Global, names: &Names, parts: &[Part]) -> Result<NameDraft, AllocError>
    requires can { CanReturn (words_of names.now) (changes_of parts.now) (listed names.now) }
    ensures sheets { IfOk result (λ draft. sheets_drafted draft (listed names.now) ≡ sheets_back (changes_of parts.now) (listed names.now)) }
    ensures names { IfOk result (λ draft. names_drafted draft (names_of names.now) ≡ names_back (changes_of parts.now) (names_of names.now)) }
    ensures known { IfOk result (HasKnownWords (words_of names.now)) }
{
    let mut draft = NameDraft::new(alloc);
    for index in (0..parts.len()).rev() {
        put(&mut draft, names, &parts[index], Side::Before)?;
    }
    Ok(draft)
}

// The draft that takes it forth over the parts, the first one first.
fn drafted_forth(alloc: Global, names: &Names, parts: &[Part]) -> Result<NameDraft, AllocError>
    requires can { CanRepeat (words_of names.now) (changes_of parts.now) (listed names.now) }
    ensures sheets { IfOk result (λ draft. sheets_drafted draft (listed names.now) ≡ sheets_forth (changes_of parts.now) (listed names.now)) }
    ensures names { IfOk result (λ draft. names_drafted draft (names_of names.now) ≡ names_forth (changes_of parts.now) (names_of names.now)) }
    ensures known { IfOk result (HasKnownWords (words_of names.now)) }
{
    let mut draft = NameDraft::new(alloc);
    for part in parts {
        put(&mut draft, names, part, Side::After)?;
    }
    Ok(draft)
}

// Puts names and sheets to what they were on one side of a part.
fn put(draft: &mut NameDraft, names: &Names, part: &Part, side: Side) -> Result<(), AllocError>
    requires slots { HaveSlots (of_side side) (map sheet_change part.now.sheets.items) (sheets_drafted draft.old (listed names.now)) }
    ensures sheets { OnOk result (sheets_drafted draft.new (listed names.now) ≡ sheets_with (of_side side) (map sheet_change part.now.sheets.items) (sheets_drafted draft.old (listed names.now))) }
    ensures names { OnOk result ((m : NameMap) → names_drafted draft.new m ≡ names_with (of_side side) (map name_change part.now.names.items) (names_drafted draft.old m)) }
    ensures known { OnOk result ((words : Words) → AreKnown words (map name_change part.now.names.items) → HasKnownWords words draft.old → HasKnownWords words draft.new) }
{
    put_sheets(draft, names, part.sheets.as_slice(), side)?;
    put_names(draft, part.names.as_slice(), side)
}

// Puts sheets to what they were on one side of the changes, the last one first.
fn put_sheets(
    draft: &mut NameDraft,
    names: &Names,
    changes: &[SheetChange],
    side: Side,
) -> Result<(), AllocError>
    requires { HaveSlots (of_side side) (map sheet_change changes.now) (sheets_drafted draft.old (listed names.now)) }
    ensures sheets { OnOk result (sheets_drafted draft.new (listed names.now) ≡ sheets_with (of_side side) (map sheet_change changes.now) (sheets_drafted draft.old (listed names.now))) }
    ensures names { draft.new.names ≡ draft.old.names }
{
    for index in (0..changes.len()).rev() {
        let change = &changes[index];
        match side {
            Side::Before => set_sheet(draft, names, change.id, &change.before)?,
            Side::After => set_sheet(draft, names, change.id, &change.after)?,
        }
    }
    Ok(())
}

// Puts names to what they were on one side of the changes, the last one first.
fn put_names(draft: &mut NameDraft, changes: &[NameChange], side: Side) -> Result<(), AllocError>
    ensures names { OnOk result ((m : NameMap) → names_drafted draft.new m ≡ names_with (of_side side) (map name_change changes.now) (names_drafted draft.old m)) }
    ensures known { OnOk result ((words : Words) → AreKnown words (map name_change changes.now) → HasKnownWords words draft.old → HasKnownWords words draft.new) }
    ensures sheets { draft.new.sheets ≡ draft.old.sheets }
{
    for index in (0..changes.len()).rev() {
        let change = &changes[index];
        draft.set(change.scope, change.word, id_on(change, side))?;
    }
    Ok(())
}

// The id of a name's formula on one side of a change.
fn id_on(change: &NameChange, side: Side) -> Option<u64>
    ensures { result ≡ of_side side (change.now.before, change.now.after) }
{
    match side {
        Side::Before => change.before,
        Side::After => change.after,
    }
}

// Gives a sheet its place in the list and its name, or takes it out.
fn set_sheet(
    draft: &mut NameDraft,
    names: &Names,
    id: u32,
    to: &Option<(usize, Text)>,
) -> Result<(), AllocError>
    requires slot { HasSlot id to.now (sheets_drafted draft.old (listed names.now)) }
    ensures sheets { OnOk result (sheets_drafted draft.new (listed names.now) ≡ with_slot id to.now (sheets_drafted draft.old (listed names.now))) }
    ensures names { draft.new.names ≡ draft.old.names }
{
    draft.remove_sheet(names, id)?;
    match to {
        Some((index, name)) => draft.add_sheet(names, *index, id, name.as_str()),
        None => Ok(()),
    }
}
