// Who is at fault in a schedule's lists: numbers 6, 7 and 8.
ghost use Rattle.std.specs.Prelude.{◌≡◌, length};
ghost use Rattle.central_record.specs.Record.{below};
ghost use Rattle.shared_fault.specs.Fault.{length_fault};
ghost use Rattle.shared_fault.specs.Search.{first_failing};

use super::fault::Fault;
use shared_limits::limits::{MOST_JOBS, MOST_STINTS};

// Number 6, of so many jobs and stints.
#[tactic(auto, unfolding(crate::specs::Fault::length_fault))]
pub(crate) fn length_fault(jobs: usize, stints: usize) -> Option<Fault>
    ensures { result ≡ length_fault jobs stints }
{
    if jobs == 0 {
        return Some(Fault::NoJob);
    }
    if MOST_JOBS < jobs {
        return Some(Fault::Job(MOST_JOBS as u64));
    }
    if MOST_STINTS < stints {
        return Some(Fault::Stint(MOST_STINTS as u64));
    }
    None
}

// The place of the first number that is not below the limit: numbers 7 and 8.
// Kept: where there is none, the list's length and not `None`, as `first_failing` says it; so in the searches of owners.rt.
pub(crate) fn first_not_below(list: &[u64], limit: u64) -> usize
    ensures { result ≡ first_failing (length list.now) (below limit list.now) }
{
    list.iter().position(|n| limit <= *n).unwrap_or(list.len())
}
