// Why an input that is given as a whole is refused.
ghost use Rattle.std.specs.Prelude.{◌≡◌};
ghost use Rattle.console_calls.specs.Finish.{written};
ghost use Rattle.console_reason.specs.Reason.{reason_of, reason_to};

use super::explain::explain;
use base_outcome::refusal::Refusal;
use console_grammar::lent::Lent;
use console_grammar::progress::{JOB_ENTRIES, STINT_ENTRIES};
use console_reader::reader::MEMORY_WORDS;
use console_unreadable::tracker::Tracker;

pub fn reason(input: &[u8], out: &mut [u8]) -> Result<usize, Refusal>
    ensures { written result out.new ≡ reason_to (reason_of input.now) out.old }
{
    let mut memory = [0; MEMORY_WORDS];
    let mut jobs = [0; JOB_ENTRIES];
    let mut stint_jobs = [0; STINT_ENTRIES];
    let mut stint_turns = [0; STINT_ENTRIES];
    let mut lent = Lent {
        memory: &mut memory,
        jobs: &mut jobs,
        stint_jobs: &mut stint_jobs,
        stint_turns: &mut stint_turns,
    };
    let tracker = Tracker::new().track(input, &mut lent)?;
    let Lent {
        memory,
        jobs,
        stint_jobs,
        stint_turns,
    } = lent;
    explain(tracker, memory, jobs, stint_jobs, stint_turns, out)
}
