// Codes 20 to 24, 26, 27.
ghost use Rattle.std.specs.Prelude.{◌≡◌, ◌<◌, ◌^◌};
ghost use Rattle.central_effect.specs.Effects.{unpack_to, shift_of};
ghost use Rattle.central_decode.specs.Widths.{Fit};
ghost use Rattle.central_registers.specs.Widths.{Wide};

use super::effect::CentralEffect;
use super::floating::normalize_to;
use base_outcome::stop::CentralStop;
use central_decode::instruction::Instruction;
use central_registers::registers::{b_of, x_of};
use word_shift::floating::{pack, unpack};
use word_shift::nominal::nominal;
use word_shift::shifts::{rotate_left, shift_right_signed};

// 26: the coefficient of x to Xi, its exponent to Bj.
#[tactic(auto, unfolding(crate::specs::Effects::unpack_to, word_shift::specs::Floating::unpacked_from))]
fn unpack_to(i: usize, j: usize, x: u64) -> CentralEffect
    requires { x < 2 ^ 60 }
    ensures { result ≡ unpack_to i j x }
{
    let u = unpack(x);
    CentralEffect::SetXB(i, u.coefficient, j, u.exponent)
}

// Code 2m. 22 shifts nominally left, 23 nominally right.
#[tactic(auto, unfolding(crate::specs::Effects::shift_of))]
pub(crate) fn effect_of(r: &[u64; 24], q: Instruction, em: u64, m: u64) -> CentralEffect
    requires wide { Wide r.now }
    requires fit { Fit q }
    requires m_bound { m < 8 }
    ensures { result ≡ shift_of r.now q em m }
{
    let i = q.i;
    let j = q.j;
    let k = q.k;
    let jk = q.jk;
    match m {
        0 => CentralEffect::SetX(i, rotate_left::<60>(x_of(r, i), jk)),
        1 => CentralEffect::SetX(i, shift_right_signed::<60>(x_of(r, i), jk)),
        2 => CentralEffect::SetX(i, nominal(true, b_of(r, j), x_of(r, k))),
        3 => CentralEffect::SetX(i, nominal(false, b_of(r, j), x_of(r, k))),
        4 => normalize_to(em, i, j, x_of(r, k)),
        5 => CentralEffect::Stop(CentralStop::UnfitCode),
        6 => unpack_to(i, j, x_of(r, k)),
        _ => CentralEffect::SetX(i, pack(b_of(r, j), x_of(r, k))),
    }
}
