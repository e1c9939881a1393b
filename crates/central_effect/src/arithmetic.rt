// Codes 30 to 33, 36 and 37, 43, 46 and 47.
ghost use Rattle.std.specs.Prelude.{◌≡◌, ◌<◌};
ghost use Rattle.central_effect.specs.Effects.{sum_of, mask_or_count_of};
ghost use Rattle.central_decode.specs.Widths.{Fit};
ghost use Rattle.central_registers.specs.Widths.{Wide};

use super::effect::CentralEffect;
use super::floating::result_to;
use base_outcome::stop::CentralStop;
use central_decode::instruction::Instruction;
use central_registers::registers::x_of;
use floating_sum::sums::floating_sum;
use word_arithmetic::sums::{difference, sum};
use word_shift::shifts::{count_ones, mask};

// Code 3m: 31 and 33 subtract, 32 and 33 give the lower half.
#[tactic(auto, unfolding(crate::specs::Effects::sum_of, crate::specs::Floating::floating_sum_to))]
pub(crate) fn sum_of(r: &[u64; 24], q: Instruction, em: u64, m: u64) -> CentralEffect
    requires wide { Wide r.now }
    requires fit { Fit q }
    requires m_bound { m < 8 }
    ensures { result ≡ sum_of r.now q em m }
{
    let i = q.i;
    let xj = x_of(r, q.j);
    let xk = x_of(r, q.k);
    match m {
        0 => result_to(em, i, xj, xk, floating_sum(false, false, xj, xk)),
        1 => result_to(em, i, xj, xk, floating_sum(true, false, xj, xk)),
        2 => result_to(em, i, xj, xk, floating_sum(false, true, xj, xk)),
        3 => result_to(em, i, xj, xk, floating_sum(true, true, xj, xk)),
        4 | 5 => CentralEffect::Stop(CentralStop::UnfitCode),
        6 => CentralEffect::SetX(i, sum::<60>(xj, xk)),
        _ => CentralEffect::SetX(i, difference::<60>(xj, xk)),
    }
}

// Code 4m.
#[tactic(auto, unfolding(crate::specs::Effects::mask_or_count_of))]
pub(crate) fn mask_or_count_of(r: &[u64; 24], q: Instruction, m: u64) -> CentralEffect
    requires wide { Wide r.now }
    requires fit { Fit q }
    ensures { result ≡ mask_or_count_of r.now q m }
{
    let i = q.i;
    let k = q.k;
    match m {
        3 => CentralEffect::SetX(i, mask::<60>(q.jk)),
        6 => CentralEffect::Pass,
        7 => CentralEffect::SetX(i, count_ones::<60>(x_of(r, k))),
        _ => CentralEffect::Stop(CentralStop::UnfitCode),
    }
}
