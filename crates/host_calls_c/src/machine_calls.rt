// The calls on the whole machine: a turn of one peripheral processor, and a run of rounds.
ghost use Rattle.std.specs.Prelude.{◌≡◌};
ghost use Rattle.host_calls.specs.Machine.{machine_left, processor_turn, run_left, machine_run};

#[unsafe(no_mangle)]
pub extern "C" fn tozhenab_peripheral_turn(
    central: &mut [u64],
    peripheral: &mut [u16],
    machine: &mut [u64],
    processor: u64,
) -> u64
    ensures { machine_left result central.new peripheral.new machine.new
        ≡ processor_turn central.old peripheral.old machine.old processor }
{
    host_calls::machine_calls::tozhenab_peripheral_turn(central, peripheral, machine, processor)
}

#[unsafe(no_mangle)]
pub extern "C" fn tozhenab_run(
    central: &mut [u64],
    peripheral: &mut [u16],
    machine: &mut [u64],
    rounds: u64,
    res: &mut [u64],
) -> u64
    ensures { run_left result central.new peripheral.new machine.new res.new
        ≡ machine_run central.old peripheral.old machine.old rounds res.old }
{
    host_calls::machine_calls::tozhenab_run(central, peripheral, machine, rounds, res)
}
