// The text of links: what formulas need, and which formulas need a cell.
ghost use Rattle.std.specs.Prelude.{◌≡◌, ◌++◌, ◌<◌, All, IfOk, OnOk, string_bytes};
ghost use Rattle.cell_addr.specs.Address.{place_letters};
ghost use Rattle.cell_addr.specs.Place.{IsBlockInside};
ghost use Rattle.cell_addr.specs.declared.place.TheConstants.{COLS};
ghost use Rattle.book_engine.specs.Engine.{StandsFor};
ghost use Rattle.book_model.specs.Sound.{IsLinkInside};
ghost use Rattle.book_model.specs.Workbook.{State};
ghost use Rattle.command_answers.specs.Replies.{area_text, link_text, links_text, sheet_mark};
ghost use Rattle.command_answers.specs.internal.Links.{gap_before};

use book_engine::Engine;
use calc_eval::Customs;
use cell_addr::{Block, place_text};
use formula_tree::Link;
use std::alloc::{AllocError, Global};

/// The links, parted by one blank each: cells and blocks by their addresses behind their sheet's name, whole ranges as
/// their blocks, and names behind the sheet's name of their scope, where it is one of a sheet.
pub fn links_text<C: Customs>(
    alloc: Global,
    engine: &Engine<C>,
    links: &[Link],
) -> Result<String, AllocError>
    requires { All IsLinkInside links.now }
    ensures { IfOk result (λ text. (d : State) → StandsFor C.customs engine.now d → string_bytes text ≡ links_text d.book links.now) }
{
    let mut text = String::new(alloc);
    'links: for (place, link) in links.iter().enumerate() {
        push_gap(&mut text, place)?;
        push_link(alloc, &mut text, engine, link)?;
    }
    Ok(text)
}

// Puts the blank in front of the link at this place of a list; there is none in front of the first.
fn push_gap(text: &mut String, place: usize) -> Result<(), AllocError>
    ensures { OnOk result (string_bytes text.new ≡ string_bytes text.old ++ gap_before place) }
{
    if place > 0 {
        text.push_str(" ")?;
    }
    Ok(())
}

// Puts the text of a link at the end.
fn push_link<C: Customs>(
    alloc: Global,
    text: &mut String,
    engine: &Engine<C>,
    link: &Link,
) -> Result<(), AllocError>
    requires { IsLinkInside link.now }
    ensures { OnOk result ((d : State) → StandsFor C.customs engine.now d → string_bytes text.new ≡ string_bytes text.old ++ link_text d.book link.now) }
{
    match link {
        Link::Cell(at) => {
            push_sheet(text, engine, at.sheet)?;
            push_address(alloc, text, at.row, at.col)?;
        }
        Link::Area(block) => push_area(alloc, text, engine, *block)?,
        Link::Whole(whole) => push_area(alloc, text, engine, whole.block())?,
        Link::Name(Some(sheet), word) => {
            push_sheet(text, engine, *sheet)?;
            text.push_str(word.as_str())?;
        }
        Link::Name(None, word) => text.push_str(word.as_str())?,
    }
    Ok(())
}

// Puts the text of a block at the end.
fn push_area<C: Customs>(
    alloc: Global,
    text: &mut String,
    engine: &Engine<C>,
    block: Block,
) -> Result<(), AllocError>
    requires { IsBlockInside block }
    ensures { OnOk result ((d : State) → StandsFor C.customs engine.now d → string_bytes text.new ≡ string_bytes text.old ++ area_text d.book block) }
{
    push_sheet(text, engine, block.sheet)?;
    push_address(alloc, text, block.top, block.left)?;
    text.push_str(":")?;
    push_address(alloc, text, block.bottom, block.right)
}

// Puts a sheet's name and `!` at the end.
fn push_sheet<C: Customs>(
    text: &mut String,
    engine: &Engine<C>,
    sheet: u32,
) -> Result<(), AllocError>
    ensures { OnOk result ((d : State) → StandsFor C.customs engine.now d → string_bytes text.new ≡ string_bytes text.old ++ sheet_mark d.book sheet) }
{
    if let Some(name) = engine.sheet_name(sheet) {
        text.push_str(name.as_str())?;
    }
    text.push_str("!")?;
    Ok(())
}

// Puts an address at the end.
fn push_address(alloc: Global, text: &mut String, row: u32, col: u32) -> Result<(), AllocError>
    requires { col < COLS }
    ensures { OnOk result (string_bytes text.new ≡ string_bytes text.old ++ place_letters row col) }
{
    let address = place_text(alloc, row, col)?;
    text.push_str(address.as_str())?;
    Ok(())
}
