// Codes 30 to 57 at their address: the same eight operations for each way of addressing.
ghost use Rattle.std.specs.Prelude.{◌≡◌, ◌^◌, ◌<◌};
ghost use Rattle.peripheral_codes.specs.Memory.{replaced, operation_of};

use super::addresses::OwnMemory;
use peripheral_machine::effect::PeripheralEffect;
use word_arithmetic::logic::logical_difference;
use word_arithmetic::sums::{difference, low, sum};

// The sum of a replace code.
fn replaced(p: u64, i: u64, v: u64) -> PeripheralEffect
    ensures { result ≡ replaced p i v }
{
    PeripheralEffect::Store(p, v, i as usize, low::<12>(v))
}

// The operation k on the word at i, with p the next P.
#[tactic(auto, unfolding(crate::specs::Memory::operation_of))]
pub fn operation_of(m: &OwnMemory<'_>, a: u64, k: u64, i: u64, p: u64) -> PeripheralEffect
    requires a_bound { a < 2 ^ 18 }
    requires k_bound { k < 8 }
    requires i_bound { i < 4096 }
    ensures { result ≡ operation_of m.now.words.now a k i p }
{
    let word = m.read(i);
    match k {
        0 => PeripheralEffect::Advance(p, word),
        1 => PeripheralEffect::Advance(p, sum::<18>(a, word)),
        2 => PeripheralEffect::Advance(p, difference::<18>(a, word)),
        3 => PeripheralEffect::Advance(p, logical_difference(a, word)),
        4 => PeripheralEffect::Store(p, a, i as usize, low::<12>(a)),
        5 => replaced(p, i, sum::<18>(a, word)),
        6 => replaced(p, i, sum::<18>(word, 1)),
        _ => replaced(p, i, difference::<18>(word, 1)),
    }
}
