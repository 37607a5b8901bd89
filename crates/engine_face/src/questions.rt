// Questions of a session whose answers are values and texts.
ghost use Rattle.std.specs.Prelude.{◌≡◌, ◌<◌, IsUtf8, length};
ghost use Rattle.book_model.specs.Answers.{content_text, formula_of, name_value_of, tried_value, value_of};
ghost use Rattle.book_model.specs.Operation as op;
ghost use Rattle.book_engine.specs.Engine.{Does};
ghost use Rattle.cell_value.specs.Scalar.{shown_text};
ghost use Rattle.engine_face.specs.Shown.{EndFits, EndTold, fits, shown_value, text_or_none, value_text};
ghost use Rattle.rule_table.specs.Rules.{rules_of};

use crate::room::write;
use crate::session::Session;
use crate::shown::{Shown, value_text};
use crate::status::Status;
use book_engine::{Engine, Stop};
use cell_addr::{Place, Text};
use cell_value::Scalar;
use rule_table::Rules;
use std::alloc::Global;
use std::marker::Brand;
use std::sync::ledger::{Blank, Ledger};
use steps::Steps;

impl Session {
    ghost use Rattle.engine_face.specs.Session.{AsksFor, Told, Wrote};

    /// What a cell shows, as [`Engine::value`]: of a text its bytes in the room.
    pub fn value(&mut self, at: Place, room: &mut [u8], shown: &mut Shown) -> Status
        ensures does { AsksFor (op.value at) (λ d. fits (value_text (value_of d at)) room.old) self.old self.new result }
        ensures wrote { Wrote (λ d. value_text (value_of d at)) room.old room.new self.old result }
        ensures told { Told (λ d. shown_value (value_of d at)) shown.old shown.new self.old result }
    {
        let end = value_by::<Brand>(&mut self.engine, at, Blank::new(1));
        answer(end, room, shown)
    }

    /// What a name shows that the word finds on the sheet, as [`Engine::name_value`].
    pub fn name_value(
        &mut self,
        name: &str,
        sheet: u32,
        room: &mut [u8],
        shown: &mut Shown,
    ) -> Status
        ensures does { AsksFor (op.name_value name.now sheet) (λ d. fits (value_text (name_value_of d name.now sheet)) room.old) self.old self.new result }
        ensures wrote { Wrote (λ d. value_text (name_value_of d name.now sheet)) room.old room.new self.old result }
        ensures told { Told (λ d. shown_value (name_value_of d name.now sheet)) shown.old shown.new self.old result }
    {
        let end = name_value_by::<Brand>(&mut self.engine, name.as_bytes(), sheet, Blank::new(1));
        answer(end, room, shown)
    }

    /// What the formula of the text would show in the first cell of the sheet, as [`Engine::try_formula`].
    pub fn try_formula(
        &mut self,
        sheet: u32,
        text: &str,
        room: &mut [u8],
        shown: &mut Shown,
    ) -> Status
        ensures does { AsksFor (op.try_formula sheet text.now) (λ d. fits (value_text (tried_value d sheet text.now)) room.old) self.old self.new result }
        ensures wrote { Wrote (λ d. value_text (tried_value d sheet text.now)) room.old room.new self.old result }
        ensures told { Told (λ d. shown_value (tried_value d sheet text.now)) shown.old shown.new self.old result }
    {
        let end = tried_by::<Brand>(&mut self.engine, sheet, text.as_bytes(), Blank::new(1));
        answer(end, room, shown)
    }

    /// What a person sees of what a cell shows: a number and a truth value spelled, and of a fault its spelling.
    pub fn value_text(&mut self, at: Place, room: &mut [u8], needed: &mut usize) -> Status
        ensures does { AsksFor (op.value at) (λ d. fits (shown_text (value_of d at)) room.old) self.old self.new result }
        ensures wrote { Wrote (λ d. shown_text (value_of d at)) room.old room.new self.old result }
        ensures told { Told (λ d. length (shown_text (value_of d at))) needed.old needed.new self.old result }
    {
        let end = shown_by::<Brand>(self.alloc, &mut self.engine, at, Blank::new(1));
        answer_text(end, room, needed)
    }

    /// The text of a cell's formula, as [`Engine::formula`]; no bytes where the cell has none.
    pub fn formula(&mut self, at: Place, room: &mut [u8], needed: &mut usize) -> Status
        ensures does { AsksFor (op.formula at) (λ d. fits (text_or_none (formula_of d at)) room.old) self.old self.new result }
        ensures wrote { Wrote (λ d. text_or_none (formula_of d at)) room.old room.new self.old result }
        ensures told { Told (λ d. length (text_or_none (formula_of d at))) needed.old needed.new self.old result }
    {
        answer_formula(self.engine.formula(at), room, needed)
    }

    /// The text that gives a cell its content, as [`Engine::content`].
    pub fn content(&mut self, at: Place, room: &mut [u8], needed: &mut usize) -> Status
        ensures does { AsksFor (op.content at) (λ d. fits (content_text d at) room.old) self.old self.new result }
        ensures wrote { Wrote (λ d. content_text d at) room.old room.new self.old result }
        ensures told { Told (λ d. length (content_text d at)) needed.old needed.new self.old result }
    {
        answer_text(self.engine.content(at), room, needed)
    }
}

// The value of a cell, whose steps nobody reads.
fn value_by<L: Ledger>(engine: &mut Engine<Rules>, at: Place, blank: Blank) -> Result<Scalar, Stop>
    requires name { blank.name ≡ L.name }
    requires parts { blank.parts ≡ L.parts }
    requires some { 0 < blank.parts }
    ensures { Does rules_of (op.value at) (λ d value. value ≡ value_of d at) engine.old engine.new result }
{
    engine.value(at, &mut Steps::<L>::new(blank))
}

// The value of a name, whose word is given as bytes, since a ledger is picked at no call that takes a text.
fn name_value_by<L: Ledger>(
    engine: &mut Engine<Rules>,
    name: &[u8],
    sheet: u32,
    blank: Blank,
) -> Result<Scalar, Stop>
    requires utf8 { IsUtf8 name.now }
    requires name { blank.name ≡ L.name }
    requires parts { blank.parts ≡ L.parts }
    requires some { 0 < blank.parts }
    ensures { Does rules_of (op.name_value name.now sheet) (λ d value. value ≡ name_value_of d name.now sheet) engine.old engine.new result }
{
    let Ok(name) = str::from_utf8(name) else {
        unreachable!()
    };
    engine.name_value(name, sheet, &mut Steps::<L>::new(blank))
}

// The value of a formula that is tried.
fn tried_by<L: Ledger>(
    engine: &mut Engine<Rules>,
    sheet: u32,
    text: &[u8],
    blank: Blank,
) -> Result<Scalar, Stop>
    requires utf8 { IsUtf8 text.now }
    requires name { blank.name ≡ L.name }
    requires parts { blank.parts ≡ L.parts }
    requires some { 0 < blank.parts }
    ensures { Does rules_of (op.try_formula sheet text.now) (λ d value. value ≡ tried_value d sheet text.now) engine.old engine.new result }
{
    let Ok(text) = str::from_utf8(text) else {
        unreachable!()
    };
    engine.try_formula(sheet, text, &mut Steps::<L>::new(blank))
}

// What a person sees of the value of a cell.
fn shown_by<L: Ledger>(
    alloc: Global,
    engine: &mut Engine<Rules>,
    at: Place,
    blank: Blank,
) -> Result<Text, Stop>
    requires name { blank.name ≡ L.name }
    requires parts { blank.parts ≡ L.parts }
    requires some { 0 < blank.parts }
    ensures { Does rules_of (op.value at) (λ d text. text ≡ shown_text (value_of d at)) engine.old engine.new result }
{
    let value = engine.value(at, &mut Steps::<L>::new(blank))?;
    match value.shown(alloc) {
        Ok(text) => Ok(text),
        Err(_) => Err(Stop::NoMemory),
    }
}

// Tells a value and writes its text, or says why there is none.
fn answer(end: Result<Scalar, Stop>, room: &mut [u8], shown: &mut Shown) -> Status
    ensures fits { EndFits value_text end room.old room.new result }
    ensures told { EndTold shown_value end shown.old shown.new }
{
    match end {
        Ok(value) => {
            *shown = Shown::of(&value);
            write(value_text(&value), room)
        }
        Err(stop) => Status::from(stop),
    }
}

// Tells the length of a text and writes it, or says why there is none.
pub(crate) fn answer_text(end: Result<Text, Stop>, room: &mut [u8], needed: &mut usize) -> Status
    ensures fits { EndFits (λ text. text) end room.old room.new result }
    ensures told { EndTold length end needed.old needed.new }
{
    match end {
        Ok(text) => {
            *needed = text.as_bytes().len();
            write(text.as_bytes(), room)
        }
        Err(stop) => Status::from(stop),
    }
}

// The same of a text that may be missing, which is no bytes then.
fn answer_formula(end: Result<Option<Text>, Stop>, room: &mut [u8], needed: &mut usize) -> Status
    ensures fits { EndFits text_or_none end room.old room.new result }
    ensures told { EndTold (λ text. length (text_or_none text)) end needed.old needed.new }
{
    match end {
        Ok(Some(text)) => {
            *needed = text.as_bytes().len();
            write(text.as_bytes(), room)
        }
        Ok(None) => {
            *needed = 0;
            write(&[], room)
        }
        Err(stop) => Status::from(stop),
    }
}
