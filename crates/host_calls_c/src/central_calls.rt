// The calls on the central processor: one turn, many turns, one exchange jump, the run of one program.
ghost use Rattle.std.specs.Prelude.{◌≡◌};
ghost use Rattle.host_calls.specs.Central.{central_left, central_turn, turns_left, central_turns, central_exchange, result_left, program_run};

#[unsafe(no_mangle)]
pub extern "C" fn tozhenab_central_turn(memory: &mut [u64], central: &mut [u64]) -> u64
    ensures { central_left result memory.new central.new ≡ central_turn memory.old central.old }
{
    host_calls::central_calls::tozhenab_central_turn(memory, central)
}

#[unsafe(no_mangle)]
pub extern "C" fn tozhenab_central_turns(
    memory: &mut [u64],
    central: &mut [u64],
    turns: u64,
    res: &mut [u64],
) -> u64
    ensures { turns_left result memory.new central.new res.new
        ≡ central_turns memory.old central.old turns res.old }
{
    host_calls::central_calls::tozhenab_central_turns(memory, central, turns, res)
}

#[unsafe(no_mangle)]
pub extern "C" fn tozhenab_exchange(memory: &mut [u64], central: &mut [u64], address: u64) -> u64
    ensures { central_left result memory.new central.new
        ≡ central_exchange memory.old central.old address }
{
    host_calls::central_calls::tozhenab_exchange(memory, central, address)
}

#[unsafe(no_mangle)]
pub extern "C" fn tozhenab_run_program(
    memory: &mut [u64],
    central: &[u64],
    address: u64,
    turns: u64,
    res: &mut [u64],
) -> u64
    ensures { result_left result memory.new res.new
        ≡ program_run memory.old central.now address turns res.old }
{
    host_calls::central_calls::tozhenab_run_program(memory, central, address, turns, res)
}
