// The verdict on a schedule, and who is at fault.
ghost use Rattle.std.specs.Prelude.{◌≡◌};
ghost use Rattle.shared_fault.specs.Fault.{told_by, finding_of};
ghost use Rattle.shared_schedule.specs.Schedule.{schedule_of};

use super::fault::Fault;
use super::lists::{first_not_below, length_fault};
use super::owners::{first_field_past_end, first_past_end, first_stray, overlap_fault};
use base_outcome::refusal::Refusal;
use central_record::record::Central;
use shared_verdict::owners::Packages;
use shared_verdict::verdict::schedule_verdict;

// Why a schedule is refused, and who is at fault, if anybody.
#[derive(Clone, Copy, Debug, PartialEq, Eq)]
pub struct Finding {
    pub refusal: Refusal,
    pub fault: Option<Fault>,
}

// Memory and record, the jobs' package addresses, and the job and the turns of each stint.
pub fn find_fault(
    m: &[u64],
    c: Central,
    jobs: &[u64],
    js: &[u64],
    ts: &[u64],
) -> Result<(), Finding>
    ensures { told_by result ≡ finding_of (schedule_of m.now c jobs.now js.now ts.now) }
{
    let Err(refusal) = schedule_verdict(m, c, jobs, js, ts) else {
        return Ok(());
    };
    let fault = match refusal {
        Refusal::ListLength => length_fault(jobs.len(), js.len()),
        Refusal::UnlistedJob => Some(Fault::Stint(first_not_below(js, jobs.len() as u64) as u64)),
        Refusal::TooManyTurns => Some(Fault::Stint(first_not_below(ts, 65536) as u64)),
        Refusal::PackagePastEnd => Some(Fault::Job(first_past_end(m, jobs) as u64)),
        Refusal::StrayBits => Some(Fault::Job(first_stray(m, jobs) as u64)),
        Refusal::FieldPastEnd => Some(Fault::Job(first_field_past_end(m, jobs) as u64)),
        Refusal::SharedWord => Some(overlap_fault(&Packages { memory: m, jobs })),
        _ => None,
    };
    Err(Finding { refusal, fault })
}
