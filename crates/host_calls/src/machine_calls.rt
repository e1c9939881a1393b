// The calls on the whole machine: a turn of one peripheral processor, and a run of rounds.
ghost use Rattle.std.specs.Prelude.{◌≡◌};
ghost use Rattle.host_calls.specs.Machine.{machine_left, processor_turn, run_left, machine_run};

use host_answer::keep::{keep, short_number};
use host_answer::write::StoredRecord;
use host_record::read::lent;
use whole_calls::call::{peripheral_turn, run};
use whole_verdict::verdict::machine_verdict;

// One turn of a peripheral processor.
#[unsafe(no_mangle)]
pub extern "C" fn tozhenab_peripheral_turn(
    central: &mut [u64],
    peripheral: &mut [u16],
    machine: &mut [u64],
    processor: u64,
) -> u64
    ensures { machine_left result central.new peripheral.new machine.new
        ≡ processor_turn central.old peripheral.old machine.old processor }
{
    let r = lent(machine);
    keep(machine, peripheral_turn(central, peripheral, r, processor))
}

// Up to so many rounds. The result is the rounds made.
#[unsafe(no_mangle)]
pub extern "C" fn tozhenab_run(
    central: &mut [u64],
    peripheral: &mut [u16],
    machine: &mut [u64],
    rounds: u64,
    res: &mut [u64],
) -> u64
    ensures { run_left result central.new peripheral.new machine.new res.new
        ≡ machine_run central.old peripheral.old machine.old rounds res.old }
{
    let r = lent(machine);
    if res.len() < 1 {
        return short_number(machine_verdict(central, peripheral, r, true));
    }
    match run(central, peripheral, r, rounds) {
        Ok(ran) => {
            res[0] = ran.rounds;
            ran.machine.store(machine);
            0
        }
        Err(refusal) => {
            res[0] = 0;
            refusal.number()
        }
    }
}
