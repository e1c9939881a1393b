// The call that makes many turns: memory is tested once for all of them.
ghost use Rattle.std.specs.Prelude.{◌≡◌};
ghost use Rattle.exchange_jump.specs.Accepted.{HostAccepted};
ghost use Rattle.single_calls.specs.RecordCalls.{central_machine};
ghost use Rattle.single_calls.specs.Turns.{turned_to, turned_up_to, turns_verdict, turns_answer_of, turns_answer_to, turns_answer};

use base_outcome::refusal::Refusal;
use central_record::record::{Central, host_verdict};
use single_stint::field::{Ran, run};

// Numbers 1, 3, 5, then 8.
#[tactic(auto, unfolding(crate::specs::Turns::turns_verdict))]
pub(crate) fn turns_verdict(m: &[u64], c: Central, n: u64) -> Result<(), Refusal>
    ensures { result ≡ turns_verdict m.now c n }
{
    host_verdict(m, c)?;
    if n > 65535 {
        return Err(Refusal::TooManyTurns);
    }
    Ok(())
}

// Up to n turns. A stopped processor makes none, and nothing changes.
pub(crate) fn turns_if_running(m: &mut [u64], c: Central, n: u64) -> Ran
    requires { HostAccepted m.old c }
    ensures { turned_to (central_machine m.new result.central) result.turns ≡ turned_up_to n (central_machine m.old c) }
{
    if c.stop > 0 {
        return Ran {
            central: c,
            turns: 0,
        };
    }
    run(m, c, n).0
}

// Up to so many turns of the central processor, ended early by a stop.
#[tactic(auto, unfolding(crate::specs::Turns::turns_answer))]
pub fn central_turns(memory: &mut [u64], central: Central, turns: u64) -> Result<Ran, Refusal>
    ensures { turns_answer_to memory.new (turns_answer_of central result) ≡ turns_answer memory.old central turns }
{
    turns_verdict(memory, central, turns)?;
    Ok(turns_if_running(memory, central, turns))
}
