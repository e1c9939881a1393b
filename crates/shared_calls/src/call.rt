// The call that runs a schedule.
ghost use Rattle.std.specs.Prelude.{◌≡◌};
ghost use Rattle.shared_calls.specs.Answer.{schedule_answer_of, schedule_answer_to, schedule_answer};
ghost use Rattle.shared_schedule.specs.Schedule.{schedule_of};

use super::stints::{StintsEnd, run_stints};
use base_outcome::refusal::Refusal;
use central_record::record::Central;
use shared_verdict::verdict::schedule_verdict;

// Runs the jobs, given by the addresses of their packages, in stints, given by the job and the turns of each.
// The record comes back as it was, its stop included.
// Kept: stint_jobs and stint_turns are two slices, since the C interface lends them so.
#[tactic(auto, unfolding(crate::specs::Answer::schedule_answer))]
pub fn schedule(
    memory: &mut [u64],
    central: Central,
    jobs: &[u64],
    stint_jobs: &[u64],
    stint_turns: &[u64],
) -> Result<StintsEnd, Refusal>
    ensures { schedule_answer_to memory.new (schedule_answer_of central result)
        ≡ schedule_answer (schedule_of memory.old central jobs.now stint_jobs.now stint_turns.now) }
{
    schedule_verdict(memory, central, jobs, stint_jobs, stint_turns)?;
    Ok(run_stints(memory, central, jobs, stint_jobs, stint_turns))
}
