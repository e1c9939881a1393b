// The one listing of the central processor's instructions.
ghost use Rattle.std.specs.Prelude.{◌≡◌, ◌<◌};
ghost use Rattle.central_decode.specs.Shifted.{decoded_top};
ghost use Rattle.central_registers.specs.Widths.{Wide};
ghost use Rattle.central_effect.specs.Effects.{effect_of};

use super::effect::CentralEffect;
use super::rows::{branch, logic, mask_or_count, set_a, set_b, set_x, shift, sum};

// The effect of the instruction at the top of v, of the word at p, under the exit mode em: an arm for each code, with its name in the
// manual. A code left out does not get here; were it to, its row would stop it.
#[tactic(auto, unfolding(crate::specs::Effects::effect_of, central_decode::specs::Shifted::decoded_top))]
pub fn effect_of(r: &[u64; 24], v: u64, em: u64, p: u64) -> CentralEffect
    requires wide { Wide r.now }
    requires p_bound { p < 131072 }
    ensures { result ≡ effect_of r.now (decoded_top v) em p }
{
    match v >> 58 {
        0o00 => branch(r, v, p, 0), // STOP
        0o01 => branch(r, v, p, 1), // RETURN JUMP to K
        0o02 => branch(r, v, p, 2), // GO TO K + Bi
        0o03 => branch(r, v, p, 3), // GO TO K if Xj = zero, and so on by i
        0o04 => branch(r, v, p, 4), // GO TO K if Bi = Bj
        0o05 => branch(r, v, p, 5), // GO TO K if Bi ≠ Bj
        0o06 => branch(r, v, p, 6), // GO TO K if Bi ≥ Bj
        0o07 => branch(r, v, p, 7), // GO TO K if Bi < Bj
        0o10 => logic(r, v, 0), // TRANSMIT Xj to Xi
        0o11 => logic(r, v, 1), // LOGICAL PRODUCT of Xj and Xk to Xi
        0o12 => logic(r, v, 2), // LOGICAL SUM of Xj and Xk to Xi
        0o13 => logic(r, v, 3), // LOGICAL DIFFERENCE of Xj and Xk to Xi
        0o14 => logic(r, v, 4), // TRANSMIT Xk COMP. to Xi
        0o15 => logic(r, v, 5), // LOGICAL PRODUCT of Xj and Xk COMP. to Xi
        0o16 => logic(r, v, 6), // LOGICAL SUM of Xj and Xk COMP. to Xi
        0o17 => logic(r, v, 7), // LOGICAL DIFFERENCE of Xj and Xk COMP. to Xi
        0o20 => shift(r, v, em, 0), // SHIFT Xi LEFT jk places
        0o21 => shift(r, v, em, 1), // SHIFT Xi RIGHT jk places
        0o22 => shift(r, v, em, 2), // SHIFT Xk NOMINALLY LEFT Bj places to Xi
        0o23 => shift(r, v, em, 3), // SHIFT Xk NOMINALLY RIGHT Bj places to Xi
        0o24 => shift(r, v, em, 4), // NORMALIZE Xk in Xi and Bj
        0o25 => shift(r, v, em, 5), // ROUND AND NORMALIZE Xk in Xi and Bj: left out
        0o26 => shift(r, v, em, 6), // UNPACK Xk to Xi and Bj
        0o27 => shift(r, v, em, 7), // PACK Xi from Xk and Bj
        0o30 => sum(r, v, em, 0), // FLOATING SUM of Xj and Xk to Xi
        0o31 => sum(r, v, em, 1), // FLOATING DIFFERENCE of Xj and Xk to Xi
        0o32 => sum(r, v, em, 2), // FLOATING DP SUM of Xj and Xk to Xi
        0o33 => sum(r, v, em, 3), // FLOATING DP DIFFERENCE of Xj and Xk to Xi
        0o34 => sum(r, v, em, 4), // ROUND FLOATING SUM of Xj and Xk to Xi: left out
        0o35 => sum(r, v, em, 5), // ROUND FLOATING DIFFERENCE of Xj and Xk to Xi: left out
        0o36 => sum(r, v, em, 6), // INTEGER SUM of Xj and Xk to Xi
        0o37 => sum(r, v, em, 7), // INTEGER DIFFERENCE of Xj and Xk to Xi
        0o40 => mask_or_count(r, v, 0), // FLOATING PRODUCT of Xj and Xk to Xi: left out
        0o41 => mask_or_count(r, v, 1), // ROUND FLOATING PRODUCT of Xj and Xk to Xi: left out
        0o42 => mask_or_count(r, v, 2), // FLOATING DP PRODUCT of Xj and Xk to Xi: left out
        0o43 => mask_or_count(r, v, 3), // FORM jk MASK in Xi
        0o44 => mask_or_count(r, v, 4), // FLOATING DIVIDE Xj by Xk to Xi: left out
        0o45 => mask_or_count(r, v, 5), // ROUND FLOATING DIVIDE Xj by Xk to Xi: left out
        0o46 => mask_or_count(r, v, 6), // PASS
        0o47 => mask_or_count(r, v, 7), // SUM of 1's in Xk to Xi
        0o50 => set_a(r, v, 0), // SUM of Aj and K to Ai
        0o51 => set_a(r, v, 1), // SUM of Bj and K to Ai
        0o52 => set_a(r, v, 2), // SUM of Xj and K to Ai
        0o53 => set_a(r, v, 3), // SUM of Xj and Bk to Ai
        0o54 => set_a(r, v, 4), // SUM of Aj and Bk to Ai
        0o55 => set_a(r, v, 5), // DIFFERENCE of Aj and Bk to Ai
        0o56 => set_a(r, v, 6), // SUM of Bj and Bk to Ai
        0o57 => set_a(r, v, 7), // DIFFERENCE of Bj and Bk to Ai
        0o60 => set_b(r, v, 0), // SUM of Aj and K to Bi
        0o61 => set_b(r, v, 1), // SUM of Bj and K to Bi
        0o62 => set_b(r, v, 2), // SUM of Xj and K to Bi
        0o63 => set_b(r, v, 3), // SUM of Xj and Bk to Bi
        0o64 => set_b(r, v, 4), // SUM of Aj and Bk to Bi
        0o65 => set_b(r, v, 5), // DIFFERENCE of Aj and Bk to Bi
        0o66 => set_b(r, v, 6), // SUM of Bj and Bk to Bi
        0o67 => set_b(r, v, 7), // DIFFERENCE of Bj and Bk to Bi
        0o70 => set_x(r, v, 0), // SUM of Aj and K to Xi
        0o71 => set_x(r, v, 1), // SUM of Bj and K to Xi
        0o72 => set_x(r, v, 2), // SUM of Xj and K to Xi
        0o73 => set_x(r, v, 3), // SUM of Xj and Bk to Xi
        0o74 => set_x(r, v, 4), // SUM of Aj and Bk to Xi
        0o75 => set_x(r, v, 5), // DIFFERENCE of Aj and Bk to Xi
        0o76 => set_x(r, v, 6), // SUM of Bj and Bk to Xi
        _ => set_x(r, v, 7), // 77 DIFFERENCE of Bj and Bk to Xi
    }
}
