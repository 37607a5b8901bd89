// The arguments of a command: what the fields behind its word say.
ghost use Rattle.std.specs.Prelude.{◌≡◌, []};
ghost use Rattle.script_lang.specs.Arguments.{no_arguments, no_spot, said_by, with_field};
ghost use Rattle.script_lang.specs.internal.Reading.{Leaves};

use crate::commands::Version;
use crate::error::ScriptError;
use crate::form::{read_block, read_count, read_single, read_text, read_version};
use crate::word::FieldKind;
use cell_addr::{Spot, Text, read_column, read_row};
use std::alloc::Global;

/// What the fields behind a word say, each kind of field in a slot. A slot that no field fills is empty, or 0.
#[derive(Drop, Debug)]
pub struct Arguments {
    pub place: Spot,
    pub block: Spot,
    /// The name of a sheet; nothing where it is the scope of a name of the whole workbook.
    pub sheet: Text,
    /// The row or the column where something begins, counted from 0.
    pub line: u32,
    /// How many rows or columns.
    pub count: u32,
    /// The row or the column before which something goes, counted from 0.
    pub before: u32,
    pub name: Text,
    pub text: Text,
    /// The version of a script; the newest where no field says it.
    pub version: Version,
}

impl Arguments {
    /// No arguments.
    pub fn new(alloc: Global) -> Arguments
        ensures { result ≡ no_arguments }
    {
        Arguments {
            place: no_spot(),
            block: no_spot(),
            sheet: Text::new(String::new(alloc)),
            line: 0,
            count: 0,
            before: 0,
            name: Text::new(String::new(alloc)),
            text: Text::new(String::new(alloc)),
            version: Version::Two,
        }
    }

    /// Reads the field of this number into the slot of its kind.
    pub fn read(
        &mut self,
        alloc: Global,
        kind: FieldKind,
        number: u8,
        field: &[u8],
    ) -> Result<(), ScriptError>
        ensures { Leaves result self.new (said_by number (with_field kind field.now self.old)) }
    {
        match kind {
            FieldKind::Place => self.place = said(number, read_single(alloc, field)?)?,
            FieldKind::Block => self.block = said(number, read_block(alloc, field)?)?,
            FieldKind::Sheet | FieldKind::Scope => self.sheet = said(
                number,
                read_text(alloc, field)?,
            )?,
            FieldKind::Row => self.line = said(number, read_row(field))?,
            FieldKind::Column => self.line = said(number, read_column(field))?,
            FieldKind::Count => self.count = said(number, read_count(field))?,
            FieldKind::RowBefore => self.before = said(number, read_row(field))?,
            FieldKind::ColumnBefore => self.before = said(number, read_column(field))?,
            FieldKind::Name => self.name = said(number, read_text(alloc, field)?)?,
            FieldKind::Text => self.text = said(number, read_text(alloc, field)?)?,
            FieldKind::Version => self.version = said(number, read_version(field))?,
        }
        Ok(())
    }
}

// What a field says, or that the field of this number is bad.
fn said<T>(number: u8, value: Option<T>) -> Result<T, ScriptError>
    ensures { result ≡ said_by number value }
{
    value.ok_or(ScriptError::BadField(number))
}

// The first cell, on no sheet.
pub(crate) fn no_spot() -> Spot
    ensures { result ≡ no_spot }
{
    Spot {
        sheet: None,
        top: 0,
        left: 0,
        bottom: 0,
        right: 0,
        single: true,
    }
}
