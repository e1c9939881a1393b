// The tests of a schedule's lists: numbers 6, 7 and 8. Of each stint js has the job and ts the turns.
// Kept: js and ts are two lists, since the C interface lends them so, and no struct holds them with jobs, since each test here takes the
// lists that it is about and no other.
ghost use Rattle.std.specs.Prelude.{◌≡◌};
ghost use Rattle.shared_schedule.specs.Refusals.{lists_fit, jobs_listed, turns_fit, lists_verdict};

use base_outcome::refusal::Refusal;
use central_record::record::all_below;
use shared_limits::limits::{MOST_STINTS, jobs_fit};

// Jobs and stints within their limits, and a job and turns for each stint.
#[tactic(auto, unfolding(shared_schedule::specs::Refusals::lists_fit))]
fn lists_fit(jobs: &[u64], js: &[u64], ts: &[u64]) -> bool
    ensures { result ≡ lists_fit jobs.now js.now ts.now }
{
    jobs_fit(jobs.len()) && js.len() <= MOST_STINTS && js.len() == ts.len()
}

// Each stint is of a listed job; jobs are numbered from 0.
fn jobs_listed(jobs: &[u64], js: &[u64]) -> bool
    ensures { result ≡ jobs_listed jobs.now js.now }
{
    all_below(js, jobs.len() as u64)
}

// No stint is of more than 65,535 turns.
fn turns_fit(ts: &[u64]) -> bool
    ensures { result ≡ turns_fit ts.now }
{
    all_below(ts, 65536)
}

// Numbers 6, 7 and 8, lowest first.
#[tactic(auto, unfolding(shared_schedule::specs::Refusals::lists_verdict))]
pub(crate) fn lists_verdict(jobs: &[u64], js: &[u64], ts: &[u64]) -> Result<(), Refusal>
    ensures { result ≡ lists_verdict jobs.now js.now ts.now }
{
    if !lists_fit(jobs, js, ts) {
        return Err(Refusal::ListLength);
    }
    if !jobs_listed(jobs, js) {
        return Err(Refusal::UnlistedJob);
    }
    if !turns_fit(ts) {
        return Err(Refusal::TooManyTurns);
    }
    Ok(())
}
