// The calls on the whole machine: a turn of one peripheral processor, and a run of rounds.
ghost use Rattle.std.specs.Prelude.{◌≡◌, Ok};
ghost use Rattle.whole_record.specs.Numbers.{machine_of};
ghost use Rattle.whole_verdict.specs.Verdict.{processors_in, turn_verdict, run_verdict};
ghost use Rattle.whole_rounds.specs.Rounds.{rounds_of};
ghost use Rattle.whole_processors.specs.Processors.{processor_turned};
ghost use Rattle.whole_calls.specs.Call.{left, left_by, left_after, turn_answer_to, peripheral_turn_answer, run_answer_to, run_answer};

use base_outcome::refusal::Refusal;
use whole_processors::processors::processors_turn;
use whole_record::numbers::{numbers_of, record_of};
use whole_record::record::MachineRecord;
use whole_rounds::round;
use whole_verdict::verdict::{run_verdict, turn_verdict};

// The record after a run, and the rounds made.
#[derive(Clone, Copy)]
pub struct RoundsMade {
    pub machine: MachineRecord,
    pub rounds: u64,
}

// The turn of a processor that is there, on what no number refuses.
fn turn(c: &mut [u64], m: &mut [u16], r: MachineRecord, n: u64) -> MachineRecord
    requires { turn_verdict c.old m.old r n ≡ Ok tt }
    ensures { left c.new m.new result ≡ left_by (processor_turned (machine_of c.old m.old r) n) }
{
    let mut x = r.central.registers;
    let mut s = numbers_of(&r);
    processors_turn(m, c, &mut x, &mut s, n as usize, 1);
    record_of(&x, &s)
}

// One turn of a peripheral processor.
#[tactic(auto, unfolding(crate::specs::Call::peripheral_turn_answer))]
pub fn peripheral_turn(
    central: &mut [u64],
    peripheral: &mut [u16],
    machine: MachineRecord,
    processor: u64,
) -> Result<MachineRecord, Refusal>
    ensures { turn_answer_to central.new peripheral.new machine result
        ≡ peripheral_turn_answer central.old peripheral.old machine processor }
{
    turn_verdict(central, peripheral, machine, processor)?;
    Ok(turn(central, peripheral, machine, processor))
}

// Rounds on what no number refuses.
fn make_rounds(c: &mut [u64], m: &mut [u16], r: MachineRecord, n: u64) -> RoundsMade
    requires { run_verdict c.old m.old r n ≡ Ok tt }
    ensures { left c.new m.new result
        ≡ left_after (rounds_of n (processors_in m.old) (machine_of c.old m.old r)) }
{
    let k = m.len() / 4096;
    let mut x = r.central.registers;
    let mut s = numbers_of(&r);
    let rounds = round::run(m, c, &mut x, &mut s, k, n);
    RoundsMade {
        machine: record_of(&x, &s),
        rounds,
    }
}

// Up to so many rounds.
#[tactic(auto, unfolding(crate::specs::Call::run_answer))]
pub fn run(
    central: &mut [u64],
    peripheral: &mut [u16],
    machine: MachineRecord,
    rounds: u64,
) -> Result<RoundsMade, Refusal>
    ensures { run_answer_to central.new peripheral.new machine result
        ≡ run_answer central.old peripheral.old machine rounds }
{
    run_verdict(central, peripheral, machine, rounds)?;
    Ok(make_rounds(central, peripheral, machine, rounds))
}
