// What a call hands back: its number, and the record where it is carried out.
ghost use Rattle.std.specs.Prelude.{◌≡◌, length, IsOk};
ghost use Rattle.host_answer.specs.Back.{back, back_of, short_number};

use super::write::StoredRecord;
use base_outcome::refusal::{Refusal, verdict_number};

// Stores the record that a call hands back, and gives the call's number. A refusal stores nothing.
pub fn keep<R: StoredRecord>(given: &mut [u64], answer: Result<R, Refusal>) -> u64
    requires { IsOk answer → length given.old ≡ R.LENGTH }
    ensures { back result given.new ≡ back_of R.numbers answer given.old }
{
    match answer {
        Ok(record) => {
            record.store(given);
            0
        }
        Err(refusal) => refusal.number(),
    }
}

// The number where the result slice is too short: v is the verdict by 1 to 5.
pub fn short_number(v: Result<(), Refusal>) -> u64
    ensures { result ≡ short_number v }
{
    verdict_number(v.and(Err(Refusal::ListLength)))
}
