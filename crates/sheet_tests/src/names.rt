ghost use Rattle.std.specs.Prelude.{◌≡◌, ◌<◌, IfOk, [], length};
ghost use Rattle.name_table.specs.Listed.{listed};
ghost use Rattle.name_table.specs.Named.{words_of};

use cell_addr::SheetNames;
use name_table::{NameKey, Names};
use std::alloc::AllocError;

// Puts in the sheets Plan, My Plan and Stock, of which My Plan is renamed to Two. Whether it stood second before that.
fn put_in(names: &mut Names) -> Result<bool, AllocError>
    requires { listed names.old ≡ [] }
{
    names.add_sheet(0, 0, "Plan")?;
    names.add_sheet(1, 2, "Stock")?;
    names.add_sheet(1, 1, "My Plan")?;
    let is_second = names.sheet_at(1) == Some(1);
    names.rename(1, "Two")?;
    Ok(is_second)
}

// Whether the second sheet has its new name alone.
fn is_renamed(names: &Names) -> bool {
    names.id_of("TWO") == Some(1) && names.id_of("My Plan").is_none()
}

// Takes the first sheet out. Whether the second one then stands in its place.
fn first_goes(names: &mut Names) -> bool {
    let is_out = names.remove_sheet(0).is_some();
    is_out && names.sheet_at(0) == Some(1) && names.id_of("plan").is_none()
}

// Whether all three sheets are still there.
fn has_all(names: &Names) -> bool {
    let is_last = match names.name_of(2) {
        Some(name) => name.as_str() == "Stock",
        None => false,
    };
    is_last && names.id_of("plan") == Some(0) && names.len() == 3
}

// Whether a copy keeps what is taken out.
fn copy_keeps_sheets(names: &mut Names) -> Result<bool, AllocError> {
    let copy = names.copied()?;
    Ok(first_goes(names) && has_all(&copy))
}

// Whether an empty table takes sheets in, and keeps them in order.
fn keeps_order(names: &mut Names) -> Result<bool, AllocError>
    requires { listed names.old ≡ [] }
{
    Ok(names.is_empty() && put_in(names)? && is_renamed(names) && copy_keeps_sheets(names)?)
}

// Sheets are put in at an index, renamed, found in any case of their letters, copied and taken out.
#[test]
fn sheets_keep_their_order(rt: HostRuntime) -> Result<(), AllocError> {
    let mut names = Names::new(rt.alloc())?;
    assert!(rt; keeps_order(&mut names)?);
    Ok(())
}

// Gives the scope a name of the text's word, where it has none. Answers the word's number.
pub(crate) fn define(
    names: &mut Names,
    scope: Option<u32>,
    text: &str,
    holder: u64,
) -> Result<u64, AllocError>
    ensures { IfOk result (λ word. word < length (words_of names.new)) }
{
    let word = names.word(text)?;
    if names.holder(scope, word).is_none() {
        names.add(scope, word, holder)?;
    }
    Ok(word)
}

// The words of a rate and a tax of the whole workbook; none where another sheet's rate has another word.
fn defined(names: &mut Names) -> Result<Option<(u64, u64)>, AllocError> {
    let rate = define(names, None, "Rate", 7)?;
    let tax = define(names, None, "tax", 9)?;
    let again = define(names, Some(2), "RATE", 8)?;
    if again == rate {
        Ok(Some((rate, tax)))
    } else {
        Ok(None)
    }
}

// Whether the word of the rate is known by any of its spellings, and no other is.
fn is_known(names: &Names, rate: u64) -> bool {
    let is_spelled = match names.spelling(rate) {
        Some(text) => text.as_str() == "rate",
        None => false,
    };
    is_spelled && names.known("rAtE") == Some(rate) && names.known("rates").is_none()
}

// Whether the sheet's own rate is found on it, and that of the whole workbook on another.
fn is_found(names: &Names, rate: u64) -> bool {
    names.find(rate, 2) == Some((Some(2), 8)) && names.find(rate, 1) == Some((None, 7))
}

// Takes the sheet's own name of the word away. Whether it had this holder.
fn own_goes(names: &mut Names, word: u64, holder: Option<u64>) -> bool {
    names.remove(Some(2), word) == holder
}

// Whether the sheet finds the rate of the whole workbook, and nothing by a number that is no word's.
fn finds_common(names: &Names, rate: u64) -> bool {
    names.find(rate, 2) == Some((None, 7)) && names.find(2, 2).is_none()
}

// Whether the names of the whole workbook are listed.
fn is_listed(names: &Names, rate: u64, tax: u64) -> Result<bool, AllocError> {
    let list = names.listed(None)?;
    Ok(list.items() == [(rate, 7), (tax, 9)].as_slice())
}

// Whether the sheet's own rate is the last of three names.
fn is_last(names: &Names, rate: u64) -> Result<bool, AllocError> {
    let last = NameKey {
        scope: Some(2),
        word: rate,
    };
    let all = names.all()?;
    Ok(all.len() == 3 && all.last() == Some(&(last, 8)))
}

// Whether a copy keeps what is taken away.
fn copy_keeps_names(names: &mut Names, rate: u64, tax: u64) -> Result<bool, AllocError> {
    let copy = names.copied()?;
    let goes = own_goes(names, rate, Some(8)) && own_goes(names, tax, None);
    Ok(goes && finds_common(names, rate) && is_listed(&copy, rate, tax)? && is_last(&copy, rate)?)
}

// Whether the table takes names in, and finds them by their scopes.
fn finds_by_scope(names: &mut Names) -> Result<bool, AllocError> {
    match defined(names)? {
        Some((rate, tax)) => {
            let is_in = is_known(names, rate) && is_found(names, rate);
            Ok(is_in && copy_keeps_names(names, rate, tax)?)
        }
        None => Ok(false),
    }
}

// A sheet's own name is found before that of the whole workbook, and each is listed, copied and taken out by itself.
#[test]
fn names_are_found_by_scope(rt: HostRuntime) -> Result<(), AllocError> {
    let mut names = Names::new(rt.alloc())?;
    assert!(rt; finds_by_scope(&mut names)?);
    Ok(())
}
