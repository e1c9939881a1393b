// Codes 10 to 17 and 20 to 23.
ghost use Rattle.std.specs.Prelude.{◌≡◌, ◌^◌, ◌<◌};
ghost use Rattle.peripheral_codes.specs.Constants.{short_value, short_of, long_value, long_of};

use super::addresses::{Registers, View, onward};
use peripheral_machine::effect::PeripheralEffect;
use word_arithmetic::logic::{logical_difference, logical_product, selective_clear};
use word_arithmetic::sums::{complement, difference, sum};
use word_shift::shifts::shift_a;

// A after code 1k.
#[tactic(auto, unfolding(crate::specs::Constants::short_value))]
fn short_value(k: u64, a: u64, d: u64) -> u64
    requires k_bound { k < 8 }
    requires a_bound { a < 2 ^ 18 }
    requires d_bound { d < 64 }
    ensures { result ≡ short_value k a d }
{
    match k {
        0 => shift_a(d, a),
        1 => logical_difference(a, d),
        2 => logical_product(a, d),
        3 => selective_clear(a, d),
        4 => d,
        5 => complement::<18>(d),
        6 => sum::<18>(a, d),
        _ => difference::<18>(a, d),
    }
}

// Code 1k.
pub fn short_of(q: Registers, k: u64, d: u64) -> PeripheralEffect
    requires k_bound { k < 8 }
    requires d_bound { d < 64 }
    ensures { result ≡ short_of q.processor k d }
{
    PeripheralEffect::Advance(onward(q.processor.p, 1), short_value(k, q.processor.a, d))
}

// A after code 2k, k to 3.
#[tactic(auto, unfolding(crate::specs::Constants::long_value))]
fn long_value(k: u64, a: u64, dm: u64) -> u64
    requires k_bound { k < 4 }
    requires a_bound { (a < 2 ^ 18) × (dm < 2 ^ 18) }
    ensures { result ≡ long_value k a dm }
{
    match k {
        0 => dm,
        1 => sum::<18>(a, dm),
        2 => logical_product(a, dm),
        _ => logical_difference(a, dm),
    }
}

// Code 2k, k to 3.
pub fn long_of(v: &View<'_>, k: u64, d: u64) -> PeripheralEffect
    requires k_bound { k < 4 }
    requires d_bound { d < 64 }
    ensures { result ≡ long_of v.now.memory.words.now v.now.registers.processor k d }
{
    let q = v.registers.processor;
    let dm = v.memory.constant(q.p, d);
    PeripheralEffect::Advance(onward(q.p, 2), long_value(k, q.a, dm))
}
