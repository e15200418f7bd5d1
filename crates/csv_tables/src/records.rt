//! The records of a file, one after another.

ghost use Rattle.std.specs.Prelude.{◌≡◌, IfOk};
ghost use Rattle.csv.specs.Reading.{AreRecords, default_config, strip_bom};
ghost use Rattle.csv.specs.Records.{fields_of};
ghost use Rattle.csv.specs.declared.parser.State.TheVariants as st;
ghost use Rattle.csv_tables.specs.Records.{TakesNext, file_records};

use csv::{ByteRecord, Reader, ReaderBuilder};
use std::alloc::{AllocError, Global};
use std::marker::Model;

/// The records of a file that are not read yet. Clauses see them as the list of their fields.
pub struct FileRecords<'a> {
    reader: Reader<&'a [u8]>,
}

// By hand, so that whatever drops records calls this, and isn't proved for each part of their reader.
impl Drop for FileRecords<'_> {
    fn drop(self) {
        let FileRecords { reader: _ } = self;
    }
}

impl<'a> Model for FileRecords<'a> {
    ghost use Rattle.std.specs.Prelude.{List, ℕ};

    ghost Value = { List (List (List ℕ)) };

    ghost use Rattle.csv_tables.specs.Records.{IsFileReader, records_left};

    ghost view = { λ r. records_left r.reader };

    ghost invariant = { λ r. IsFileReader r.reader };
}

impl<'a> FileRecords<'a> {
    /// The reader leaves out one byte order mark by itself, so it is handed the file as it is.
    pub fn new(alloc: Global, bytes: &'a [u8]) -> FileRecords<'a>
        ensures records { result ≡ file_records bytes.now }
        ensures all { AreRecords default_config st.StartRecord (strip_bom bytes.now) (file_records bytes.now) }
    {
        let reader = ReaderBuilder::new()
            .has_headers(false)
            .flexible(true)
            .from_reader(alloc, bytes);
        FileRecords { reader }
    }

    /// Takes the next record into `row`, and says whether there was one. Over bytes in memory nothing
    /// but want of memory can fail; then nothing is promised of the place where the reader stands.
    pub fn next(&mut self, row: &mut ByteRecord) -> Result<bool, AllocError>
        ensures { IfOk result (λ found. TakesNext found self.old (fields_of row.new) self.new) }
    {
        let Ok(found) = self.reader.read_byte_record(row) else {
            return Err(AllocError);
        };
        Ok(found)
    }
}
