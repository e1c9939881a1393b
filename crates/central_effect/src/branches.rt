// Codes 00 to 07.
ghost use Rattle.std.specs.Prelude.{◌≡◌, ◌<◌};
ghost use Rattle.central_effect.specs.Effects.{return_word, branch_of};
ghost use Rattle.central_decode.specs.Widths.{Fit};
ghost use Rattle.central_registers.specs.Widths.{Wide};

use super::effect::{CentralEffect, jump_if};
use base_outcome::stop::CentralStop;
use central_condition::conditions::{comparison, word_condition};
use central_decode::instruction::Instruction;
use central_registers::registers::{b_of, x_of};
use word_arithmetic::sums::sum;

// What 010 writes: 0400, P + 1 and ten zeros.
fn return_word(p: u64) -> u64
    requires { p < 131072 }
    ensures { result ≡ return_word p }
{
    (0o0400 << 48) + ((p + 1) << 30)
}

// Code 0m in the word at p.
#[tactic(auto, unfolding(crate::specs::Effects::branch_of))]
pub(crate) fn effect_of(r: &[u64; 24], q: Instruction, m: u64, p: u64) -> CentralEffect
    requires wide { Wide r.now }
    requires fit { Fit q }
    requires m_bound { m < 8 }
    requires p_bound { p < 131072 }
    ensures { result ≡ branch_of r.now q m p }
{
    let i = q.i;
    let j = q.j;
    let k = q.constant;
    match m {
        0 => CentralEffect::Stop(CentralStop::Halt),
        1 => CentralEffect::ReturnJump(k, return_word(p)),
        2 => CentralEffect::Jump(sum::<18>(b_of(r, i), k)),
        3 => jump_if(word_condition(i as u64, x_of(r, j)), k),
        _ => jump_if(comparison(m, b_of(r, i), b_of(r, j)), k),
    }
}
