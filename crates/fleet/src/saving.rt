// The call save, into a lent buffer. The definitions are in `specs/Save.antt`.
ghost use Rattle.std.specs.Prelude.{◌≡◌, ◌++◌, ◌*◌, ◌≤◌, length, drop};
ghost use Rattle.records.specs.File.{record_bytes, file_of};
ghost use Rattle.fleet.specs.Save.{save_call, buffer_after};

use super::{Answer, Fleet, Saved};
use records::file::write_record;
use records::{RECORD_BYTES, Record};
use refusals::Refusal;

// Writes the records at the start of the buffer.
fn write_records(buffer: &mut [u8], records: &[Record])
    requires { record_bytes * length records.now ≤ length buffer.old }
    ensures { buffer.new ≡ file_of records.now ++ drop (record_bytes * length records.now) buffer.old }
{
    for (index, &stored) in records.iter().enumerate() {
        write_record(buffer, index, stored);
    }
}

impl Fleet {
    // The standing records as the bytes of a fleet file, in a tick too.
    #[tactic(auto, unfolding(crate::specs::Save::save_call, crate::specs::Save::save_verdict, crate::specs::Save::short_buffer, crate::specs::Save::needed_bytes, crate::specs::Save::buffer_after, crate::specs::Save::saved_bytes, crate::specs::Table::answer_to))]
    pub fn save(self, buffer: &mut [u8]) -> Saved
        ensures answer { result ≡ save_call self (length buffer.old) }
        ensures buffer { buffer.new ≡ buffer_after self buffer.old }
    {
        let needed = RECORD_BYTES * self.agent_count();
        if buffer.len() < needed {
            return Saved {
                answer: Answer::Refused(Refusal::ShortBuffer { needed }),
                fleet: self,
                bytes: 0,
            };
        }
        write_records(buffer, self.standing.as_slice());
        Saved {
            answer: Answer::Done,
            fleet: self,
            bytes: needed,
        }
    }
}
