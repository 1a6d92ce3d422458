// The fleet file: records of 76 bytes, with each word little-endian. The definitions are in `specs/File.antt`.
ghost use Rattle.std.specs.Prelude.{◌≡◌, ◌++◌, ◌+◌, ◌/◌, ◌≤◌, ◌<◌, length, take, drop, IsOk};
ghost use Rattle.records.specs.Record.{most_agents};
ghost use Rattle.records.specs.File.{record_bytes, word_in, record_in, whole_file, decoded_records, decoded, bytes_of_word, bytes_of, with_record};

use super::checks::record_verdict;
use super::{MOST_AGENTS, RECORD_BYTES, RECORD_WORDS, Record, Records};
use refusals::Refusal;
use std::array;

// The word whose first byte is at `at`, the least of the four.
#[tactic(auto, unfolding(crate::specs::File::word_in))]
fn word_at(file: &[u8], at: usize) -> u32
    requires { at + 4 ≤ length file.now }
    ensures { result ≡ word_in (drop at file.now) }
{
    u32::from_le_bytes([file[at], file[at + 1], file[at + 2], file[at + 3]])
}

// The record whose first byte is at `at`.
pub(crate) fn record_at(file: &[u8], at: usize) -> Record
    requires { at + record_bytes ≤ length file.now }
    ensures { result ≡ record_in (drop at file.now) }
{
    Record {
        words: array::from_fn(|place| word_at(file, at + 4 * place)),
    }
}

#[tactic(auto, unfolding(crate::specs::File::whole_file))]
pub(crate) fn whole_file(bytes: usize) -> Result<(), Refusal>
    ensures verdict { result ≡ whole_file bytes }
    ensures few { IsOk result → bytes / record_bytes ≤ most_agents }
{
    if bytes % RECORD_BYTES != 0 {
        return Err(Refusal::BadFile { bytes });
    }
    let is_too_long = MOST_AGENTS < bytes / RECORD_BYTES;
    if is_too_long {
        return Err(Refusal::BadFile { bytes });
    }
    Ok(())
}

// The records of a whole file. The first bad one decides.
#[tactic(auto, using(crate::proofs::InTurn::in_turn, crate::proofs::Filled::pushing), unfolding(crate::specs::File::decoded_records))]
fn decoded_records(file: &[u8]) -> Result<Records, Refusal>
    requires { length file.now / record_bytes ≤ most_agents }
    ensures { result ≡ decoded_records file.now }
{
    let mut records = Records::new();
    for index in 0..file.len() / RECORD_BYTES {
        let stored = record_at(file, RECORD_BYTES * index);
        record_verdict(RECORD_WORDS * index, stored)?;
        records.push(stored);
    }
    Ok(records)
}

// What a lent file holds: its records, or why it is refused.
#[tactic(auto, unfolding(crate::specs::File::decoded, crate::specs::File::decoded_records, crate::specs::File::file_verdict))]
pub fn decoded(file: &[u8]) -> Result<Records, Refusal>
    ensures { result ≡ decoded file.now }
{
    whole_file(file.len())?;
    decoded_records(file)
}

// Writes a word's four bytes from `at` on, the least of them first.
#[tactic(auto, unfolding(crate::specs::File::bytes_of_word))]
fn write_word(buffer: &mut [u8], at: usize, word: u32)
    requires { at + 4 ≤ length buffer.old }
    ensures { buffer.new ≡ take at buffer.old ++ (bytes_of_word word ++ drop (at + 4) buffer.old) }
{
    buffer[at..at + 4].copy_from_slice(&word.to_le_bytes());
}

// Writes a record's words from `at` on.
#[tactic(auto, using(crate::proofs::Encoding::words_written))]
fn write_words(buffer: &mut [u8], at: usize, stored: Record)
    requires { at + record_bytes ≤ length buffer.old }
    ensures { buffer.new ≡ take at buffer.old ++ (bytes_of stored ++ drop (at + record_bytes) buffer.old) }
{
    for (place, &word) in stored.words.iter().enumerate() {
        write_word(buffer, at + 4 * place, word);
    }
}

// Writes a record as its 76 bytes, at `index` among records of so many. Where there is no room for it, nothing is
// written.
#[tactic(auto, unfolding(crate::specs::File::with_record))]
pub fn write_record(buffer: &mut [u8], index: usize, stored: Record)
    ensures { buffer.new ≡ with_record buffer.old index stored }
{
    if index < buffer.len() / RECORD_BYTES {
        write_words(buffer, RECORD_BYTES * index, stored);
    }
}
