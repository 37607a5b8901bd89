// The records of a text of CSV, read one at a time.
ghost use Rattle.std.specs.Prelude.{◌≡◌, ◌∷◌, [], false, true, IsTrue, OnErr};
ghost use Rattle.csv.specs.Reading.{default_config, error_kind, records, stops_reader, strip_bom};
ghost use Rattle.csv.specs.Records.{fields_of};

use csv::{ByteRecord, Error, Reader, ReaderBuilder};
use std::alloc::{AllocError, Global};
use std::marker::Model;

/// A reader of the records of a text of CSV: commas, double quotes, no header row and any number
/// of fields. A byte order mark at the front is dropped.
///
/// It holds one record at a time, whose room is used again for the next. Each call of
/// [`Records::advance`] reads one record:
///
/// ```text
/// let mut records = Records::open(alloc, b"set,A1,5\nget,A1\n");
/// while records.advance()? {
///     let first = records.fields().get(0);
/// }
/// ```
pub struct Records<'a> {
    reader: Reader<&'a [u8]>,
    row: ByteRecord,
    ended: bool,
}

// Written out, so that whoever drops one calls one function.
impl<'a> Drop for Records<'a> {
    fn drop(self) {
        let Records {
            reader: _reader,
            row: _row,
            ended: _,
        } = self;
    }
}

impl<'a> Model for Records<'a> {
    ghost use Rattle.std.specs.Prelude.{◌≡◌, false};
    ghost use Rattle.csv.specs.Records.{fields_of};
    ghost use Rattle.book_files.specs.internal.Records.{IsPlain, Reading, records_left};

    ghost Value = { Reading };

    ghost view = { λ r. record { fields = fields_of r.row; left = records_left r.ended r.reader } };

    ghost invariant = { λ r. r.ended ≡ false → IsPlain r.reader };
}

impl<'a> Records<'a> {
    /// A reader that stands before the first record of a text.
    pub fn open(alloc: Global, text: &'a [u8]) -> Records<'a>
        ensures { result.left ≡ records default_config (strip_bom text.now) }
    {
        let reader = ReaderBuilder::new()
            .has_headers(false)
            .flexible(true)
            .from_reader(alloc, text);
        Records {
            reader,
            row: ByteRecord::new(alloc),
            ended: false,
        }
    }

    /// Reads the next record, and answers whether there was one. After `false`, and after want of
    /// memory, no record is left.
    pub fn advance(&mut self) -> Result<bool, AllocError>
        ensures found { result ≡ Ok true → self.old.left ≡ self.new.fields ∷ self.new.left }
        ensures end { result ≡ Ok false → self.old.left ≡ [] }
        ensures ended { result ≡ Ok false → self.new.left ≡ [] }
        ensures stopped { OnErr result (self.new.left ≡ []) }
    {
        if self.ended {
            return Ok(false);
        }
        match self.reader.read_byte_record(&mut self.row) {
            Ok(true) => Ok(true),
            Ok(false) => {
                self.ended = true;
                Ok(false)
            }
            Err(error) => {
                self.ended = true;
                Err(want_of_memory(error))
            }
        }
    }

    /// The record that was read last.
    pub fn fields(&self) -> &ByteRecord
        ensures { fields_of result.now ≡ self.now.fields }
    {
        &self.row
    }
}

// What an error means that stops a reader: bytes in memory have no faults, so memory ran out.
fn want_of_memory(error: Error) -> AllocError
    requires { IsTrue (stops_reader (error_kind error)) }
{
    drop(error);
    AllocError
}
