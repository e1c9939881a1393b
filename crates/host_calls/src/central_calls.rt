// The calls on the central processor: one turn, many turns, one exchange jump, the run of one program.
ghost use Rattle.std.specs.Prelude.{◌≡◌};
ghost use Rattle.host_calls.specs.Central.{central_left, central_turn, turns_left, central_turns, central_exchange, result_left, program_run};

use central_record::record::host_verdict;
use central_turn::turn::stop_number;
use host_answer::keep::{keep, short_number};
use host_answer::write::StoredRecord;
use host_record::read::lent;
use single_calls::program::run_program;
use single_calls::record_calls::{central_turn, exchange};
use single_calls::turns::central_turns;

// One turn of the central processor.
#[unsafe(no_mangle)]
pub extern "C" fn tozhenab_central_turn(memory: &mut [u64], central: &mut [u64]) -> u64
    ensures { central_left result memory.new central.new ≡ central_turn memory.old central.old }
{
    let c = lent(central);
    keep(central, central_turn(memory, c))
}

// Up to so many turns of the central processor. The result is the turns made.
#[unsafe(no_mangle)]
pub extern "C" fn tozhenab_central_turns(
    memory: &mut [u64],
    central: &mut [u64],
    turns: u64,
    res: &mut [u64],
) -> u64
    ensures { turns_left result memory.new central.new res.new
        ≡ central_turns memory.old central.old turns res.old }
{
    let c = lent(central);
    if res.len() < 1 {
        return short_number(host_verdict(memory, c));
    }
    match central_turns(memory, c, turns) {
        Ok(made) => {
            res[0] = made.turns;
            made.central.store(central);
            0
        }
        Err(refusal) => {
            res[0] = 0;
            refusal.number()
        }
    }
}

// An exchange jump at the package with this address.
#[unsafe(no_mangle)]
pub extern "C" fn tozhenab_exchange(memory: &mut [u64], central: &mut [u64], address: u64) -> u64
    ensures { central_left result memory.new central.new
        ≡ central_exchange memory.old central.old address }
{
    let c = lent(central);
    keep(central, exchange(memory, c, address))
}

// One stint of the program of the package at this address. The result is the turns made and the stop's number, or 0.
#[unsafe(no_mangle)]
pub extern "C" fn tozhenab_run_program(
    memory: &mut [u64],
    central: &[u64],
    address: u64,
    turns: u64,
    res: &mut [u64],
) -> u64
    ensures { result_left result memory.new res.new
        ≡ program_run memory.old central.now address turns res.old }
{
    let c = lent(central);
    if res.len() < 2 {
        return short_number(host_verdict(memory, c));
    }
    match run_program(memory, c, address, turns) {
        Ok(end) => {
            res[0] = end.turns;
            res[1] = stop_number(end.stop);
            0
        }
        Err(refusal) => {
            res[0] = 0;
            res[1] = 0;
            refusal.number()
        }
    }
}
