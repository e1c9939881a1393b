// One function for each first digit of a code, which works out the effect of its second digit k. Rows 0 and 1 are in `peripheral_codes`.
ghost use Rattle.std.specs.Prelude.{◌≡◌, ◌<◌};
ghost use Rattle.peripheral_turn.specs.Turn.{second_row_of, sixth_row_of, seventh_row_of};
ghost use Rattle.peripheral_codes.specs.Addresses.{word_at, onward, indexed};
ghost use Rattle.peripheral_codes.specs.Memory.{operation_of};

use base_outcome::stop::PeripheralStop;
use peripheral_codes::addresses::{View, onward};
use peripheral_codes::constants::long_of;
use peripheral_codes::jumps::pass;
use peripheral_codes::memory::operation_of;
use peripheral_io::central_side::{exchange_of, read_central, write_central};
use peripheral_io::channels::{change_on, channel_jump, input_from, output_to};
use peripheral_machine::effect::PeripheralEffect;
use peripheral_machine::numbers::{Numbers, Processor};

// Code 2k.
#[tactic(auto, unfolding(crate::specs::Turn::second_row_of))]
pub(crate) fn second_row(v: &View<'_>, c: &[u64], s: &Numbers, k: u64, d: u64) -> PeripheralEffect
    requires k_bound { k < 8 }
    requires d_bound { d < 64 }
    ensures { result ≡ second_row_of v.now.memory.words.now c.now s.now.places v.now.registers.processor k d }
{
    match k {
        0..=3 => long_of(v, k, d),
        4 | 5 => pass(v.registers),
        6 => exchange_of(c, v.registers),
        _ => PeripheralEffect::Advance(onward(v.registers.processor.p, 1), s.central_p()),
    }
}

// Code 3k: the word at d.
pub(crate) fn direct(v: &View<'_>, k: u64, d: u64) -> PeripheralEffect
    requires k_bound { k < 8 }
    requires d_bound { d < 64 }
    ensures { result ≡ operation_of v.now.memory.words.now v.now.registers.processor.a k d (onward v.now.registers.processor.p 1) }
{
    let Processor { p, a, .. } = v.registers.processor;
    operation_of(&v.memory, a, k, d, onward(p, 1))
}

// Code 4k: the word at (d).
pub(crate) fn indirect(v: &View<'_>, k: u64, d: u64) -> PeripheralEffect
    requires k_bound { k < 8 }
    requires d_bound { d < 64 }
    ensures { result ≡ operation_of v.now.memory.words.now v.now.registers.processor.a k (word_at v.now.memory.words.now d) (onward v.now.registers.processor.p 1) }
{
    let Processor { p, a, .. } = v.registers.processor;
    operation_of(&v.memory, a, k, v.memory.read(d), onward(p, 1))
}

// Code 5k: the word at m + (d).
pub(crate) fn indexed_direct(v: &View<'_>, k: u64, d: u64) -> PeripheralEffect
    requires k_bound { k < 8 }
    requires d_bound { d < 64 }
    ensures { result ≡ operation_of v.now.memory.words.now v.now.registers.processor.a k (indexed v.now.memory.words.now v.now.registers.processor.p d) (onward v.now.registers.processor.p 2) }
{
    let Processor { p, a, .. } = v.registers.processor;
    operation_of(&v.memory, a, k, v.memory.indexed(p, d), onward(p, 2))
}

// Code 6k.
#[tactic(auto, unfolding(crate::specs::Turn::sixth_row_of))]
pub(crate) fn sixth_row(v: &View<'_>, c: &[u64], s: &Numbers, k: u64, d: u64) -> PeripheralEffect
    requires k_bound { k < 8 }
    requires d_bound { d < 64 }
    ensures { result ≡ sixth_row_of v.now.memory.words.now c.now s.now.places v.now.registers.processor k d }
{
    match k {
        0 => read_central(c, v.registers, d),
        1 => PeripheralEffect::Stop(PeripheralStop::UnfitCode),
        2 => write_central(v, c, d),
        3 => PeripheralEffect::Stop(PeripheralStop::UnfitCode),
        _ => channel_jump(v, s, k, d),
    }
}

// Code 7k.
#[tactic(auto, unfolding(crate::specs::Turn::seventh_row_of))]
pub(crate) fn seventh_row(v: &View<'_>, s: &Numbers, k: u64, d: u64) -> PeripheralEffect
    requires { k < 8 }
    ensures { result ≡ seventh_row_of v.now.memory.words.now s.now.places v.now.registers.processor k d }
{
    match k {
        0 => input_from(s, v.registers, d),
        1 => PeripheralEffect::Stop(PeripheralStop::UnfitCode), // 71, on a missing channel too
        2 => output_to(s, v.registers, d),
        3 => PeripheralEffect::Stop(PeripheralStop::UnfitCode),
        _ => change_on(v, s, k, d),
    }
}
