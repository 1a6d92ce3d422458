// The call load, of a whole fleet file. The definitions are in `specs/Load.antt`.
ghost use Rattle.std.specs.Prelude.{◌≡◌, Err};
ghost use Rattle.refusals.specs.Verdict.{settled_by};
ghost use Rattle.records.specs.File.{records_of, decoded_as};
ghost use Rattle.fleet.specs.Load.{load_verdict, load_call};

use super::table::{done, holding_nothing, refused, shut};
use super::{Called, Fleet, Tick};
use records::Records;
use records::file::decoded;
use refusals::Refusal;

// The records of a lent file, where no tick is open.
#[tactic(auto, unfolding(crate::specs::Load::load_verdict, records::specs::File::decoded))]
fn file_records(tick: Option<Tick>, file: &[u8]) -> Result<Records, Refusal>
    ensures { result ≡ settled_by (load_verdict tick file.now) Err (decoded_as (records_of file.now)) }
{
    shut(tick)?;
    decoded(file)
}

impl Fleet {
    // The fleet of a lent file, in place of the one that stands.
    #[tactic(auto, unfolding(crate::specs::Load::load_call, crate::specs::Load::loaded, crate::specs::Table::settled))]
    pub fn load(self, file: &[u8]) -> Called
        ensures { result ≡ load_call self file.now }
    {
        match file_records(self.tick, file) {
            Ok(records) => done(holding_nothing(None, records)),
            Err(refusal) => refused(self, refusal),
        }
    }
}
