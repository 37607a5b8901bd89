// Changes of names that are made on the side, and then put in place or given up.
ghost use Rattle.std.specs.Prelude.{◌≡◌, ◌<◌, IfOk, OnOk, [], length};
ghost use Rattle.name_table.specs.Drafts.{HasKnownWords};
ghost use Rattle.name_table.specs.Listed.{listed};
ghost use Rattle.name_table.specs.Named.{words_of};

use crate::names::define;
use name_table::{NameDraft, Names};
use std::alloc::{AllocError, Global};

// Changes of a rate: another holder in the whole workbook, none on the second sheet, and one on the first.
fn changes(alloc: Global, names: &Names, rate: u64) -> Result<NameDraft, AllocError>
    requires { rate < length (words_of names.now) }
    ensures { IfOk result (HasKnownWords (words_of names.now)) }
{
    let mut draft = NameDraft::new(alloc);
    draft.set(None, rate, Some(17))?;
    draft.set(Some(2), rate, None)?;
    draft.set(Some(1), rate, Some(18))?;
    Ok(draft)
}

// Whether the rate is as it was put in.
fn is_as_before(names: &Names, rate: u64) -> bool {
    names.find(rate, 1) == Some((None, 7)) && names.find(rate, 2) == Some((Some(2), 8))
}

// Whether the rate is as the changes leave it.
fn is_changed(names: &Names, rate: u64) -> bool {
    names.find(rate, 1) == Some((Some(1), 18)) && names.find(rate, 2) == Some((None, 17))
}

// Begins the changes and gives them up.
fn give_up(alloc: Global, names: &mut Names, rate: u64) -> Result<(), AllocError>
    requires { rate < length (words_of names.old) }
    ensures { OnOk result (words_of names.new ≡ words_of names.old) }
{
    let draft = changes(alloc, names, rate)?;
    let begun = names.begin(draft)?;
    names.cancel(begun);
    Ok(())
}

// Begins the changes and puts them in place.
fn put_in_place(alloc: Global, names: &mut Names, rate: u64) -> Result<(), AllocError>
    requires { rate < length (words_of names.old) }
{
    let draft = changes(alloc, names, rate)?;
    let begun = names.begin(draft)?;
    names.finish(begun);
    Ok(())
}

// Whether changes that are given up leave the names, and others are made.
fn is_drafted(alloc: Global, names: &mut Names) -> Result<bool, AllocError> {
    define(names, None, "Rate", 7)?;
    let rate = define(names, Some(2), "RATE", 8)?;
    give_up(alloc, names, rate)?;
    let is_left = is_as_before(names, rate);
    put_in_place(alloc, names, rate)?;
    Ok(is_left && is_changed(names, rate))
}

#[test]
fn names_change_by_drafts(rt: HostRuntime) -> Result<(), AllocError> {
    let mut names = Names::new(rt.alloc())?;
    assert!(rt; is_drafted(rt.alloc(), &mut names)?);
    Ok(())
}

// Puts in two sheets. Whether a draft takes the first out of the list, when it is put in place and not before.
fn is_taken_out(alloc: Global, names: &mut Names) -> Result<bool, AllocError>
    requires { listed names.old ≡ [] }
{
    names.add_sheet(0, 0, "Plan")?;
    names.add_sheet(1, 1, "Stock")?;
    let mut draft = NameDraft::new(alloc);
    draft.remove_sheet(names, 0)?;
    let is_left = names.sheet_at(0) == Some(0);
    let begun = names.begin(draft)?;
    names.finish(begun);
    Ok(is_left && names.sheet_at(0) == Some(1) && names.len() == 1)
}

#[test]
fn sheets_go_by_drafts(rt: HostRuntime) -> Result<(), AllocError> {
    let mut names = Names::new(rt.alloc())?;
    assert!(rt; is_taken_out(rt.alloc(), &mut names)?);
    Ok(())
}
