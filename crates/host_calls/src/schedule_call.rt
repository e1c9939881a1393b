// The call that runs a schedule.
ghost use Rattle.std.specs.Prelude.{[], None, ◌≡◌, ◌*◌, ◌≤◌, length, get_or};
ghost use Rattle.base_lists.specs.Rows.{rows};
ghost use Rattle.base_lists.specs.Written.{Stores};
ghost use Rattle.shared_calls.specs.Answer.{padded, turns_in, stops_in};
ghost use Rattle.host_answer.specs.Results.{stint_row};
ghost use Rattle.host_calls.specs.Central.{result_left};
ghost use Rattle.host_calls.specs.Schedule.{schedule_run};

use central_record::record::host_verdict;
use central_turn::turn::stop_number;
use host_answer::keep::short_number;
use host_answer::results::store_stints;
use host_record::read::lent;
use shared_calls::call::schedule;
use shared_calls::stints::StintResult;
use shared_limits::limits::MOST_STINTS;

// The result of a stint, and past the last no turns and no stop.
fn result_of(results: &[StintResult], i: usize) -> StintResult
    ensures { result ≡ get_or results.now i (record { turns = 0; stop = None }) }
{
    results.get(i).copied().unwrap_or(StintResult {
        turns: 0,
        stop: None,
    })
}

// The turns and the stop of each of n stints. Two lists of all that there may be, for `store_stints`, took more time than a short schedule.
fn store_results(res: &mut [u64], results: &[StintResult], n: usize)
    requires { 2 * n ≤ length res.old }
    ensures { Stores res.old 0
        (rows n (stint_row (turns_in results.now) (stops_in results.now)))
        res.new }
{
    for i in 0..n {
        let made = result_of(results, i);
        res[2 * i] = made.turns;
        res[2 * i + 1] = stop_number(made.stop);
    }
}

// The stints of a refused schedule have no turns and no stop. A function of its own, since a function pays at entry for the size of what it
// holds.
fn store_none(res: &mut [u64], stints: usize)
    requires { 2 * stints ≤ length res.old }
    ensures { Stores res.old 0 (rows stints (stint_row (padded []) (padded []))) res.new }
{
    store_stints(res, &[0; MOST_STINTS], &[0; MOST_STINTS], stints);
}

// Runs the jobs, given by the addresses of their packages, in stints, given by the job and the turns of each. The result is of each stint
// the turns made and the stop's number, or 0.
#[unsafe(no_mangle)]
pub extern "C" fn tozhenab_schedule(
    memory: &mut [u64],
    central: &[u64],
    jobs: &[u64],
    stint_jobs: &[u64],
    stint_turns: &[u64],
    res: &mut [u64],
) -> u64
    ensures { result_left result memory.new res.new
        ≡ schedule_run memory.old central.now jobs.now stint_jobs.now stint_turns.now res.old }
{
    let c = lent(central);
    let stints = stint_jobs.len();
    if res.len() / 2 < stints {
        return short_number(host_verdict(memory, c));
    }
    // By reference, since the answer is large.
    match &schedule(memory, c, jobs, stint_jobs, stint_turns) {
        Ok(end) => {
            store_results(res, &end.results, stints);
            0
        }
        Err(refusal) => {
            store_none(res, stints);
            refusal.number()
        }
    }
}
