// The verdict on a schedule: the host's numbers 1, 3 and 5, then 6 to 8 on its lists, then 9 to 12 on its jobs' packages.
ghost use Rattle.std.specs.Prelude.{◌≡◌};
ghost use Rattle.shared_schedule.specs.Refusals.{schedule_verdict};
ghost use Rattle.shared_schedule.specs.Schedule.{schedule_of};

use super::lists::lists_verdict;
use super::owners::owners_verdict;
use base_outcome::refusal::Refusal;
use central_record::record::{Central, host_verdict};

// Memory and record, the jobs' package addresses, and the job and the turns of each stint: lowest number first.
#[tactic(auto, unfolding(shared_schedule::specs::Refusals::schedule_verdict))]
pub fn schedule_verdict(
    m: &[u64],
    c: Central,
    jobs: &[u64],
    js: &[u64],
    ts: &[u64],
) -> Result<(), Refusal>
    ensures { result ≡ schedule_verdict (schedule_of m.now c jobs.now js.now ts.now) }
{
    host_verdict(m, c)?;
    lists_verdict(jobs, js, ts)?;
    owners_verdict(m, jobs)
}
