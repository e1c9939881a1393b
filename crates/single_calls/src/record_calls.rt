// The calls on the central record itself: one turn, one exchange jump.
ghost use Rattle.std.specs.Prelude.{◌≡◌};
ghost use Rattle.single_calls.specs.RecordCalls.{exchange_verdict, answer_of, central_answer_to, turn_answer, exchange_answer};

use super::turns::turns_if_running;
use base_outcome::refusal::Refusal;
use central_record::record::{Central, host_verdict};
use exchange_jump::jump::{exchange_jump, package_verdict};

// One turn of the central processor.
#[tactic(auto, unfolding(crate::specs::RecordCalls::turn_answer))]
pub fn central_turn(memory: &mut [u64], central: Central) -> Result<Central, Refusal>
    ensures { central_answer_to memory.new (answer_of central result) ≡ turn_answer memory.old central }
{
    host_verdict(memory, central)?;
    Ok(turns_if_running(memory, central, 1).central)
}

#[tactic(auto, unfolding(crate::specs::RecordCalls::exchange_verdict))]
fn exchange_verdict(m: &[u64], c: Central, at: u64) -> Result<(), Refusal>
    ensures { result ≡ exchange_verdict m.now c at }
{
    host_verdict(m, c)?;
    package_verdict(m, at)
}

// An exchange jump at the package with this address.
#[tactic(auto, unfolding(crate::specs::RecordCalls::exchange_answer))]
pub fn exchange(memory: &mut [u64], central: Central, address: u64) -> Result<Central, Refusal>
    ensures { central_answer_to memory.new (answer_of central result) ≡ exchange_answer memory.old central address }
{
    exchange_verdict(memory, central, address)?;
    Ok(exchange_jump(memory, central, address as usize))
}
