// The 18-bit sums of 50 to 77: the second digit gives the operands, the first the register to be set.
ghost use Rattle.std.specs.Prelude.{◌≡◌, ◌<◌};
ghost use Rattle.central_effect.specs.Effects.{operand_of};
ghost use Rattle.central_decode.specs.Widths.{Fit};
ghost use Rattle.central_registers.specs.Widths.{Wide};

use central_decode::instruction::Instruction;
use central_registers::registers::{a_of, b_of, x_of};
use word_arithmetic::sums::{difference, low, sum};

// Codes 5m, 6m and 7m.
#[tactic(auto, unfolding(crate::specs::Effects::operand_of))]
pub(crate) fn operand(r: &[u64; 24], q: Instruction, m: u64) -> u64
    requires wide { Wide r.now }
    requires fit { Fit q }
    requires m_bound { m < 8 }
    ensures { result ≡ operand_of r.now q m }
{
    let j = q.j;
    let k = q.k;
    let constant = q.constant;
    match m {
        0 => sum::<18>(a_of(r, j), constant),
        1 => sum::<18>(b_of(r, j), constant),
        2 => sum::<18>(low::<18>(x_of(r, j)), constant),
        3 => sum::<18>(low::<18>(x_of(r, j)), b_of(r, k)),
        4 => sum::<18>(a_of(r, j), b_of(r, k)),
        5 => difference::<18>(a_of(r, j), b_of(r, k)),
        6 => sum::<18>(b_of(r, j), b_of(r, k)),
        _ => difference::<18>(b_of(r, j), b_of(r, k)),
    }
}
