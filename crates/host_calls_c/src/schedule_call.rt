// The call that runs a schedule.
ghost use Rattle.std.specs.Prelude.{◌≡◌};
ghost use Rattle.host_calls.specs.Central.{result_left};
ghost use Rattle.host_calls.specs.Schedule.{schedule_run};

#[unsafe(no_mangle)]
pub extern "C" fn tozhenab_schedule(
    memory: &mut [u64],
    central: &[u64],
    jobs: &[u64],
    stint_jobs: &[u64],
    stint_turns: &[u64],
    res: &mut [u64],
) -> u64
    ensures { result_left result memory.new res.new
        ≡ schedule_run memory.old central.now jobs.now stint_jobs.now stint_turns.now res.old }
{
    host_calls::schedule_call::tozhenab_schedule(
        memory,
        central,
        jobs,
        stint_jobs,
        stint_turns,
        res,
    )
}
