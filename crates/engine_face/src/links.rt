// Links as rows of numbers, with the words of names as bytes.
ghost use Rattle.std.specs.Prelude.{◌≡◌, ◌&&◌, IfOk, length};
ghost use Rattle.book_model.specs.Answers.{dependents_of, precedents_of};
ghost use Rattle.book_model.specs.Operation as op;
ghost use Rattle.engine_face.specs.Links.{AreListed, EndCounts, EndLinks, ListFits, area_row, link_counts, link_row, link_rows, link_word, link_words};
ghost use Rattle.engine_face.specs.Shown.{fits};

use crate::room::write_list;
use crate::session::Session;
use crate::status::Status;
use book_engine::Stop;
use cell_addr::{Block, NO_SHEET, Place};
use formula_tree::Link;
use std::alloc::{AllocError, Global};

/// A link: a cell, a block, which all cells of a whole range are too, or a name.
#[repr(C)]
#[derive(Clone, Copy)]
pub struct LinkRow {
    /// 0 for a cell, 1 for a block, 2 for a name.
    pub kind: u32,
    /// The number of its sheet; of a name that of its scope, which is [`NO_SHEET`] for the whole workbook.
    pub sheet: u32,
    /// The first row of the block; of a cell its row; of a name 0, and so the next three.
    pub top: u32,
    /// The first column.
    pub left: u32,
    /// The last row.
    pub bottom: u32,
    /// The last column.
    pub right: u32,
    /// Where the word of a name begins among the words; 0 for any other link.
    pub word_start: usize,
    /// How many bytes it has; 0 for any other link.
    pub word_length: usize,
}

/// How much room the links of an answer need.
#[repr(C)]
#[derive(Clone, Copy)]
pub struct LinkCounts {
    /// How many links there are.
    pub links: usize,
    /// How many bytes the words of their names have.
    pub words: usize,
}

// Links as they are written: their rows, and the words of their names one after the other.
#[derive(Drop)]
struct Listed {
    rows: Vec<LinkRow>,
    words: Vec<u8>,
}

impl Session {
    ghost use Rattle.engine_face.specs.Session.{AsksFor, Told, Wrote};

    /// What a cell's formula needs, as [`Engine::precedents`]: the links and the words of their names each in a room.
    ///
    /// [`Engine::precedents`]: book_engine::Engine::precedents
    pub fn precedents(
        &mut self,
        at: Place,
        rows: &mut [LinkRow],
        words: &mut [u8],
        counts: &mut LinkCounts,
    ) -> Status
        ensures does { AsksFor (op.precedents at) (λ d. fits (link_rows 0 (precedents_of d at)) rows.old && fits (link_words (precedents_of d at)) words.old) self.old self.new result }
        ensures rows { Wrote (λ d. link_rows 0 (precedents_of d at)) rows.old rows.new self.old result }
        ensures words { Wrote (λ d. link_words (precedents_of d at)) words.old words.new self.old result }
        ensures told { Told (λ d. link_counts (precedents_of d at)) counts.old counts.new self.old result }
    {
        answer_links(self.alloc, self.engine.precedents(at), rows, words, counts)
    }

    /// The cells and names whose formulas need a cell, as [`Engine::dependents`].
    ///
    /// [`Engine::dependents`]: book_engine::Engine::dependents
    pub fn dependents(
        &mut self,
        at: Place,
        rows: &mut [LinkRow],
        words: &mut [u8],
        counts: &mut LinkCounts,
    ) -> Status
        ensures does { AsksFor (op.dependents at) (λ d. fits (link_rows 0 (dependents_of d at)) rows.old && fits (link_words (dependents_of d at)) words.old) self.old self.new result }
        ensures rows { Wrote (λ d. link_rows 0 (dependents_of d at)) rows.old rows.new self.old result }
        ensures words { Wrote (λ d. link_words (dependents_of d at)) words.old words.new self.old result }
        ensures told { Told (λ d. link_counts (dependents_of d at)) counts.old counts.new self.old result }
    {
        answer_links(self.alloc, self.engine.dependents(at), rows, words, counts)
    }
}

// Tells how many links there are and writes them, or says why there are none. For want of memory nothing is told.
fn answer_links(
    alloc: Global,
    end: Result<Vec<Link>, Stop>,
    rows: &mut [LinkRow],
    words: &mut [u8],
    counts: &mut LinkCounts,
) -> Status
    ensures fits { EndLinks (λ links. links.items) end rows.old rows.new words.old words.new result }
    ensures told { EndCounts (λ links. links.items) end counts.old counts.new result }
{
    match end {
        Ok(links) => match list_of(alloc, &links) {
            Ok(listed) => write_links(&listed, rows, words, counts),
            Err(_) => Status::NoMemory,
        },
        Err(stop) => Status::from(stop),
    }
}

// Tells how many links there are, and writes them where there is room for all.
fn write_links(
    listed: &Listed,
    rows: &mut [LinkRow],
    words: &mut [u8],
    counts: &mut LinkCounts,
) -> Status
    ensures fits { ListFits listed.now.rows.items listed.now.words.items rows.old rows.new words.old words.new result }
    ensures links { counts.new.links ≡ length listed.now.rows.items }
    ensures words { counts.new.words ≡ length listed.now.words.items }
{
    *counts = LinkCounts {
        links: listed.rows.len(),
        words: listed.words.len(),
    };
    write_list(&listed.rows, &listed.words, rows, words)
}

// The rows of links, and the words of their names.
fn list_of(alloc: Global, links: &[Link]) -> Result<Listed, AllocError>
    ensures { IfOk result (λ listed. AreListed links.now listed) }
{
    let mut rows = Vec::new(alloc);
    let mut words = Vec::new(alloc);
    let mut rest = links;
    'links: while let Some((link, after)) = rest.split_first() {
        rows.push(link_row(words.len(), link))?;
        words.extend_from_slice(link_word(link))?;
        rest = after;
    }
    Ok(Listed { rows, words })
}

// A link as a row, a whole range as its block, where the word of a name stands there among the words.
fn link_row(start: usize, link: &Link) -> LinkRow
    ensures { result ≡ link_row start link.now }
{
    match link {
        Link::Cell(at) => LinkRow {
            kind: 0,
            sheet: at.sheet,
            top: at.row,
            left: at.col,
            bottom: at.row,
            right: at.col,
            word_start: 0,
            word_length: 0,
        },
        Link::Area(block) => area_row(*block),
        Link::Whole(whole) => area_row(whole.block()),
        Link::Name(scope, word) => LinkRow {
            kind: 2,
            sheet: scope.unwrap_or(NO_SHEET),
            top: 0,
            left: 0,
            bottom: 0,
            right: 0,
            word_start: start,
            word_length: word.as_bytes().len(),
        },
    }
}

// A block as a row.
fn area_row(block: Block) -> LinkRow
    ensures { result ≡ area_row block }
{
    LinkRow {
        kind: 1,
        sheet: block.sheet,
        top: block.top,
        left: block.left,
        bottom: block.bottom,
        right: block.right,
        word_start: 0,
        word_length: 0,
    }
}

// The word of a name; no bytes of any other link.
fn link_word(link: &Link) -> &[u8]
    ensures { result.now ≡ link_word link.now }
{
    match link {
        Link::Name(_, word) => word.as_bytes(),
        Link::Cell(_) | Link::Area(_) | Link::Whole(_) => &[],
    }
}
