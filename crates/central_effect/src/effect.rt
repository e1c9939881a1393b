// What an instruction asks for, worked out from the registers without writing any.
ghost use Rattle.std.specs.Prelude.{◌≡◌};
ghost use Rattle.central_effect.specs.Effects.{jump_if};

use base_outcome::stop::CentralStop;

#[derive(Clone, Copy)]
pub enum CentralEffect {
    Pass,
    Stop(CentralStop),
    // A taken branch: the new P.
    Jump(u64),
    // 010: the target, and the word to be written there.
    ReturnJump(u64, u64),
    // A register's number and its new value.
    SetA(usize, u64),
    SetB(usize, u64),
    SetX(usize, u64),
    // 26: Xi and its value, Bj and its value.
    SetXB(usize, u64, usize, u64),
}

// A branch with its condition.
pub(crate) fn jump_if(taken: bool, target: u64) -> CentralEffect
    ensures { result ≡ jump_if taken target }
{
    if taken {
        CentralEffect::Jump(target)
    } else {
        CentralEffect::Pass
    }
}
