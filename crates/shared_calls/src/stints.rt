// The stints of a schedule, one after the other.
ghost use Rattle.std.specs.Prelude.{◌≡◌, ◌<◌, length, get_or};
ghost use Rattle.shared_schedule.specs.Schedule.{stints_of};
ghost use Rattle.shared_calls.specs.Answer.{MayRun, turns_in, stops_in, stints_to, in_arrays};

use base_outcome::stop::CentralStop;
use central_record::record::Central;
use central_turn::turn::stop_number;
use shared_limits::limits::MOST_STINTS;
use single_stint::stint::stint;
use std::array;

// The turns made in a stint, and its stop, if any.
#[derive(Clone, Copy)]
pub struct StintResult {
    pub turns: u64,
    pub stop: Option<CentralStop>,
}

// The record after the stints, and the result of each. Entries past the last stint have no turns and no stop.
#[derive(Clone, Copy)]
pub struct StintsEnd {
    pub central: Central,
    pub results: [StintResult; MOST_STINTS],
}

impl StintsEnd {
    // The turns made in each stint.
    pub fn turns(&self) -> [u64; MOST_STINTS]
        ensures { result ≡ turns_in self.now.results }
    {
        array::from_fn(|k| self.results[k].turns)
    }

    // The number of each stint's stop, or 0.
    pub fn stops(&self) -> [u64; MOST_STINTS]
        ensures { result ≡ stops_in self.now.results }
    {
        array::from_fn(|k| stop_number(self.results[k].stop))
    }
}

// The address of a listed job's package.
fn package_of(jobs: &[u64], job: u64) -> usize
    requires { job < length jobs.now }
    ensures { result ≡ get_or jobs.now job 0 }
{
    jobs[job as usize] as usize
}

// Runs the stints in the order listed, each on what the one before it left.
pub(crate) fn run_stints(
    m: &mut [u64],
    c: Central,
    jobs: &[u64],
    stint_jobs: &[u64],
    stint_turns: &[u64],
) -> StintsEnd
    requires { MayRun m.old c jobs.now stint_jobs.now stint_turns.now }
    ensures { stints_to m.new result
        ≡ in_arrays (stints_of jobs.now stint_jobs.now stint_turns.now m.old c) }
{
    let mut end = StintsEnd {
        central: c,
        results: [StintResult {
            turns: 0,
            stop: None,
        }; MOST_STINTS],
    };
    for k in 0..stint_jobs.len() {
        let at = package_of(jobs, stint_jobs[k]);
        let n = stint_turns[k];
        let o = stint(m, end.central, at, n);
        end.central = o.central;
        end.results[k] = StintResult {
            turns: o.turns,
            stop: o.stop,
        };
    }
    end
}
