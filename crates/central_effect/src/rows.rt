// One function for each first digit of a code. It decodes the instruction at the top of v, and works out the effect of its second digit m.
// Each arm of the listing decodes for itself, so that the compiler drops the parts that its code does not use.
// Kept: r, v, p, em and m come one by one, so that a row's parameters show of what its effects are worked out: of P in 00 to 07 alone, of
// the exit mode in 20 to 37 alone. A struct of them would hide it.
ghost use Rattle.std.specs.Prelude.{◌≡◌, ◌<◌};
ghost use Rattle.word_arithmetic.specs.Logic.{logical};
ghost use Rattle.word_arithmetic.specs.Sums.{sign_extend};
ghost use Rattle.central_registers.specs.Registers.{x_of};
ghost use Rattle.central_decode.specs.Shifted.{decoded_top};
ghost use Rattle.central_registers.specs.Widths.{Wide};
ghost use Rattle.central_effect.specs.Effects.{branch_of, shift_of, sum_of, mask_or_count_of, operand_of};
ghost use Rattle.central_effect.specs.declared.effect.CentralEffect.TheVariants.{SetA, SetB, SetX};

use super::effect::CentralEffect;
use super::increments::operand;
use super::{arithmetic, branches, shifts};
use central_decode::instruction::decode;
use central_registers::registers::x_of;
use word_arithmetic::logic::logical;
use word_arithmetic::sums::sign_extend18;

// Codes 00 to 07.
pub(crate) fn branch(r: &[u64; 24], v: u64, p: u64, m: u64) -> CentralEffect
    requires wide { Wide r.now }
    requires m_bound { m < 8 }
    requires p_bound { p < 131072 }
    ensures { result ≡ branch_of r.now (decoded_top v) m p }
{
    let q = decode(v);
    branches::effect_of(r, q, m, p)
}

// Codes 10 to 17.
pub(crate) fn logic(r: &[u64; 24], v: u64, m: u64) -> CentralEffect
    requires wide { Wide r.now }
    requires m_bound { m < 8 }
    ensures { result ≡ SetX (decoded_top v).i (logical m (x_of r.now (decoded_top v).j) (x_of r.now (decoded_top v).k)) }
{
    let q = decode(v);
    CentralEffect::SetX(q.i, logical(m, x_of(r, q.j), x_of(r, q.k)))
}

// Codes 20 to 27.
pub(crate) fn shift(r: &[u64; 24], v: u64, em: u64, m: u64) -> CentralEffect
    requires wide { Wide r.now }
    requires m_bound { m < 8 }
    ensures { result ≡ shift_of r.now (decoded_top v) em m }
{
    let q = decode(v);
    shifts::effect_of(r, q, em, m)
}

// Codes 30 to 37.
pub(crate) fn sum(r: &[u64; 24], v: u64, em: u64, m: u64) -> CentralEffect
    requires wide { Wide r.now }
    requires m_bound { m < 8 }
    ensures { result ≡ sum_of r.now (decoded_top v) em m }
{
    let q = decode(v);
    arithmetic::sum_of(r, q, em, m)
}

// Codes 40 to 47.
pub(crate) fn mask_or_count(r: &[u64; 24], v: u64, m: u64) -> CentralEffect
    requires { Wide r.now }
    ensures { result ≡ mask_or_count_of r.now (decoded_top v) m }
{
    let q = decode(v);
    arithmetic::mask_or_count_of(r, q, m)
}

// Codes 50 to 57.
// Kept: a row by itself beside 60 to 67: a function of both would be handed `SetA` or `SetB` as a closure, in each of 16 arms.
pub(crate) fn set_a(r: &[u64; 24], v: u64, m: u64) -> CentralEffect
    requires wide { Wide r.now }
    requires m_bound { m < 8 }
    ensures { result ≡ SetA (decoded_top v).i (operand_of r.now (decoded_top v) m) }
{
    let q = decode(v);
    CentralEffect::SetA(q.i, operand(r, q, m))
}

// Codes 60 to 67.
pub(crate) fn set_b(r: &[u64; 24], v: u64, m: u64) -> CentralEffect
    requires wide { Wide r.now }
    requires m_bound { m < 8 }
    ensures { result ≡ SetB (decoded_top v).i (operand_of r.now (decoded_top v) m) }
{
    let q = decode(v);
    CentralEffect::SetB(q.i, operand(r, q, m))
}

// Codes 70 to 77.
pub(crate) fn set_x(r: &[u64; 24], v: u64, m: u64) -> CentralEffect
    requires wide { Wide r.now }
    requires m_bound { m < 8 }
    ensures { result ≡ SetX (decoded_top v).i (sign_extend 18 60 (operand_of r.now (decoded_top v) m)) }
{
    let q = decode(v);
    CentralEffect::SetX(q.i, sign_extend18(operand(r, q, m)))
}
