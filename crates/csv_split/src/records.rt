//! The records of a CSV file, one after another into one record that is used again.

ghost use Rattle.std.specs.Prelude.{◌≡◌, [], IfErr, IfOk, true};
ghost use Rattle.csv.specs.Reading.{error_kind, stops_reader};
ghost use Rattle.csv.specs.Records.{fields_of};
ghost use Rattle.ghost_model.specs.core.Database.{records_of};
ghost use Rattle.csv_split.specs.Records.{Reads};

use csv::{ByteRecord, Error, ErrorKind, Reader, ReaderBuilder};
use std::alloc::{AllocError, Global};
use std::marker::Model;

/// The records of a text that are left, which a clause sees as their list.
#[derive(Drop)]
pub struct Records<'a> {
    reader: Reader<&'a [u8]>,
}

impl<'a> Model for Records<'a> {
    ghost use Rattle.std.specs.Prelude.{ℕ, List, Some};
    ghost use Rattle.csv_split.specs.Records.{left_of, IsReading};

    ghost Value = { List (List (List ℕ)) };

    ghost view = { λ records. left_of (λ bytes. Some bytes.now) records.reader };

    ghost invariant = { λ records. IsReading records.reader };
}

/// Want of memory, of an error that tells nothing of a record's form.
fn wanting(error: Error) -> AllocError
    requires { stops_reader (error_kind error) ≡ true }
{
    match error.into_kind() {
        ErrorKind::OutOfMemory | ErrorKind::Io(_) => AllocError,
        _ => unreachable!(),
    }
}

impl<'a> Records<'a> {
    /// All records of a text.
    pub fn open(alloc: Global, text: &'a [u8]) -> Records<'a>
        ensures { result ≡ records_of text.now }
    {
        Records {
            reader: ReaderBuilder::new()
                .has_headers(false)
                .flexible(true)
                .from_reader(alloc, text),
        }
    }

    /// Takes the next record, where there is one. Records of any number of fields are taken, and none is read as text, so
    /// that no fault of a record's form can come; that bytes in memory can't be read is told as want of memory. No record is left after an error.
    pub fn read(&mut self, row: &mut ByteRecord) -> Result<bool, AllocError>
        ensures read { IfOk result (λ found. Reads found self.old (fields_of row.new) self.new) }
        ensures stopped { IfErr result (λ _. self.new ≡ []) }
    {
        let found = match self.reader.read_byte_record(row) {
            Ok(found) => found,
            Err(error) => return Err(wanting(error)),
        };
        Ok(found)
    }
}
