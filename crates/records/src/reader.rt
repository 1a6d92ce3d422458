// A reader over a lent fleet file, which hands out one record at a time, by index. The definitions are in
// `specs/Reader.antt`.
//
// The functions over a `RecordReader` are thin: whether a record is refused, and what it is, is the work of
// `handed_at`, by the decoder and the checks that a whole file meets.
ghost use Rattle.std.specs.Prelude.{◌≡◌};
ghost use Rattle.records.specs.Reader.{reader_at, handed_at};

use super::checks::record_verdict;
use super::file::{record_at, whole_file};
use super::{RECORD_BYTES, RECORD_WORDS, Record, RecordReader};
use refusals::Refusal;

// 14, then 8, then the record's checks.
#[tactic(auto, unfolding(crate::specs::Reader::handed_at, crate::specs::Reader::stored_verdict))]
fn handed_at(file: &[u8], index: usize) -> Result<Record, Refusal>
    ensures { result ≡ handed_at file.now index }
{
    whole_file(file.len())?;
    if file.len() / RECORD_BYTES <= index {
        return Err(Refusal::NoAgent { index });
    }
    let stored = record_at(file, RECORD_BYTES * index);
    record_verdict(RECORD_WORDS * index, stored)?;
    Ok(stored)
}

impl<'a> RecordReader<'a> {
    // A reader of a file, at the record with that index.
    pub fn at(file: &'a [u8], index: usize) -> RecordReader<'a>
        ensures { result ≡ reader_at file.entry index }
    {
        RecordReader { file, index }
    }

    // A reader of the same file, at another index.
    pub fn moved(self, index: usize) -> RecordReader<'a>
        ensures { result ≡ reader_at self.entry.file index }
    {
        RecordReader {
            file: self.file,
            index,
        }
    }

    // The record at the reader's index.
    pub fn record(self) -> Result<Record, Refusal>
        ensures { result ≡ handed_at self.entry.file.now self.entry.index }
    {
        handed_at(self.file, self.index)
    }
}

// The record at `index` of a file, for a caller that holds no reader.
pub fn read_record(file: &[u8], index: usize) -> Result<Record, Refusal>
    ensures { result ≡ handed_at file.now index }
{
    RecordReader::at(file, index).record()
}
