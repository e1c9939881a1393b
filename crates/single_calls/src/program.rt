// The call that runs one program.
ghost use Rattle.std.specs.Prelude.{◌≡◌, ◌≤◌, length};
ghost use Rattle.exchange_jump.specs.Accepted.{PackageAccepted};
ghost use Rattle.single_calls.specs.Program.{overlap_verdict, owner_verdict, program_verdict, program_answer_of, program_answer_to, program_answer};

use super::turns::turns_verdict;
use base_lists::overlap::shares_word;
use base_outcome::refusal::Refusal;
use central_record::record::Central;
use exchange_jump::jump::package_verdict;
use exchange_package::package::load;
use single_stint::stint::{StintEnd, stint};

// Number 12: the package and the field of its own record.
#[tactic(auto, unfolding(crate::specs::Program::overlap_verdict))]
fn overlap_verdict(m: &[u64], at: usize) -> Result<(), Refusal>
    requires package_accepted { PackageAccepted m.now at }
    requires m_len_bound { length m.now ≤ 131072 }
    ensures { result ≡ overlap_verdict m.now at }
{
    let c = load(m, at);
    if shares_word(at as u64, 16, c.ra, c.fl) {
        return Err(Refusal::SharedWord);
    }
    Ok(())
}

// Numbers 9 to 12.
#[tactic(auto, unfolding(crate::specs::Program::owner_verdict))]
fn owner_verdict(m: &[u64], at: u64) -> Result<(), Refusal>
    requires { length m.now ≤ 131072 }
    ensures { result ≡ owner_verdict m.now at }
{
    package_verdict(m, at)?;
    overlap_verdict(m, at as usize)
}

#[tactic(auto, unfolding(crate::specs::Program::program_verdict))]
fn program_verdict(m: &[u64], c: Central, at: u64, n: u64) -> Result<(), Refusal>
    ensures { result ≡ program_verdict m.now c at n }
{
    turns_verdict(m, c, n)?;
    owner_verdict(m, at)
}

// Runs the program of the package at this address for up to so many turns. The record comes back as it was, its stop included.
#[tactic(auto, unfolding(crate::specs::Program::program_answer))]
pub fn run_program(
    memory: &mut [u64],
    central: Central,
    address: u64,
    turns: u64,
) -> Result<StintEnd, Refusal>
    ensures { program_answer_to memory.new (program_answer_of central result) ≡ program_answer memory.old central address turns }
{
    program_verdict(memory, central, address, turns)?;
    Ok(stint(memory, central, address as usize, turns))
}
