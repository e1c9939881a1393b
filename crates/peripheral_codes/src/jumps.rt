// Codes 00 to 07.
ghost use Rattle.std.specs.Prelude.{◌≡◌, ◌^◌, ◌<◌};
ghost use Rattle.peripheral_codes.specs.Jumps.{pass, relative_jump_if, return_jump, jump_of};

use super::addresses::{Registers, View, jump_target, onward};
use peripheral_machine::effect::PeripheralEffect;
use peripheral_machine::numbers::Processor;
use word_arithmetic::sums::is_negative;

pub fn pass(q: Registers) -> PeripheralEffect
    ensures { result ≡ pass q.processor }
{
    PeripheralEffect::Advance(onward(q.processor.p, 1), q.processor.a)
}

fn jump_if(q: Registers, d: u64, taken: bool) -> PeripheralEffect
    requires { d < 64 }
    ensures { result ≡ relative_jump_if q.processor d taken }
{
    if taken {
        return PeripheralEffect::Advance(jump_target(q.processor.p, d), q.processor.a);
    }
    pass(q)
}

// 02.
fn return_jump(q: Registers, target: u64) -> PeripheralEffect
    requires { target < 2 ^ 12 }
    ensures { result ≡ return_jump q.processor target }
{
    let next = onward(q.processor.p, 2);
    PeripheralEffect::Store(onward(target, 1), q.processor.a, target as usize, next)
}

// Code 0k.
#[tactic(auto, unfolding(crate::specs::Jumps::jump_of))]
pub fn jump_of(v: &View<'_>, k: u64, d: u64) -> PeripheralEffect
    requires k_bound { k < 8 }
    requires d_bound { d < 64 }
    ensures { result ≡ jump_of v.now.memory.words.now v.now.registers.processor k d }
{
    let q = v.registers;
    let Processor { p, a, .. } = q.processor;
    match k {
        0 => pass(q),
        1 => PeripheralEffect::Advance(v.memory.indexed(p, d), a),
        2 => return_jump(q, v.memory.indexed(p, d)),
        3 => PeripheralEffect::Advance(jump_target(p, d), a),
        4 => jump_if(q, d, a == 0),
        5 => jump_if(q, d, a != 0),
        6 => jump_if(q, d, !is_negative::<18>(a)),
        _ => jump_if(q, d, is_negative::<18>(a)),
    }
}
