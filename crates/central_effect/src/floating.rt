// The stops of floating operands, and code 24.
ghost use Rattle.std.specs.Prelude.{◌≡◌, ◌<◌, ◌^◌};
ghost use Rattle.central_effect.specs.Floating.{em_set, stops_on_infinite, stops_on_indefinite, unless_stopped, normalize_to};
ghost use Rattle.central_effect.specs.declared.effect.CentralEffect.TheVariants.{SetX};

use super::effect::CentralEffect;
use base_outcome::stop::CentralStop;
use floating_normalize::normalize::normalize;
use floating_word::special::{either_indefinite, either_infinite};

// EM bits 020000 and 040000, which are bits 13 and 14.
const INFINITE_BIT: u64 = 13;

const INDEFINITE_BIT: u64 = 14;

fn em_set(em: u64, place: u64) -> bool
    requires { place < 64 }
    ensures { result ≡ em_set em place }
{
    (em >> place) & 1 == 1
}

fn stops_on_infinite(em: u64, x: u64, y: u64) -> bool
    ensures { result ≡ stops_on_infinite em x y }
{
    em_set(em, INFINITE_BIT) && either_infinite(x, y)
}

fn stops_on_indefinite(em: u64, x: u64, y: u64) -> bool
    ensures { result ≡ stops_on_indefinite em x y }
{
    em_set(em, INDEFINITE_BIT) && either_indefinite(x, y)
}

// The effect e, unless an operand stops the code, with 8 before 7. An effect writes nothing, so it may be worked out before the test.
#[tactic(auto, unfolding(crate::specs::Floating::unless_stopped))]
fn unless_stopped(em: u64, x: u64, y: u64, e: CentralEffect) -> CentralEffect
    ensures { result ≡ unless_stopped em x y e }
{
    let indefinite = stops_on_indefinite(em, x, y);
    let infinite = stops_on_infinite(em, x, y);
    if indefinite {
        return CentralEffect::Stop(CentralStop::IndefiniteOperand);
    }
    if infinite {
        return CentralEffect::Stop(CentralStop::InfiniteOperand);
    }
    e
}

// The result of a code with the operands x and y to Xi.
pub(crate) fn result_to(em: u64, i: usize, x: u64, y: u64, res: u64) -> CentralEffect
    ensures { result ≡ unless_stopped em x y (SetX i res) }
{
    unless_stopped(em, x, y, CentralEffect::SetX(i, res))
}

// 24: the normalized x to Xi, the count to Bj.
#[tactic(auto, unfolding(crate::specs::Floating::normalize_to))]
pub(crate) fn normalize_to(em: u64, i: usize, j: usize, x: u64) -> CentralEffect
    requires { x < 2 ^ 60 }
    ensures { result ≡ normalize_to em i j x }
{
    let n = normalize(x);
    unless_stopped(em, x, x, CentralEffect::SetXB(i, n.word, j, n.count))
}
