// Codes 26, 60 and 62.
ghost use Rattle.std.specs.Prelude.{◌≡◌, ◌<◌};
ghost use Rattle.peripheral_io.specs.CentralSide.{exchange_of, read_central, joined, write_central};

use base_outcome::stop::PeripheralStop;
use exchange_jump::jump::{field_inside, package_is_inside};
use exchange_package::package::has_stray;
use peripheral_codes::addresses::{OwnMemory, Registers, View, onward};
use peripheral_machine::effect::PeripheralEffect;
use peripheral_machine::numbers::Processor;
use word_fields::fields::from_parts;

// 26. Each fault of the package has its own stop.
#[tactic(auto, unfolding(crate::specs::CentralSide::exchange_of, exchange_jump::specs::Jump::package_inside, exchange_jump::specs::Jump::package_clean))]
pub fn exchange_of(c: &[u64], q: Registers) -> PeripheralEffect
    ensures { result ≡ exchange_of c.now q.processor }
{
    let a = q.processor.a;
    if !package_is_inside(c.len() as u64, a) {
        return PeripheralEffect::Stop(PeripheralStop::PackagePastEnd);
    }
    let package = a as usize;
    if has_stray(c, package) {
        return PeripheralEffect::Stop(PeripheralStop::StrayBits);
    }
    if !field_inside(c, package) {
        return PeripheralEffect::Stop(PeripheralStop::FieldPastEnd);
    }
    PeripheralEffect::Exchange(onward(q.processor.p, 1), a, package)
}

// 60.
#[tactic(auto, unfolding(crate::specs::CentralSide::read_central))]
pub fn read_central(c: &[u64], q: Registers, d: u64) -> PeripheralEffect
    requires { d < 64 }
    ensures { result ≡ read_central c.now q.processor d }
{
    let Processor { p, a, .. } = q.processor;
    let at = a as usize;
    if at < c.len() { // 60 reads a word that is there
        return PeripheralEffect::ReadCentral(onward(p, 1), a, d as usize, c[at]);
    }
    PeripheralEffect::Stop(PeripheralStop::CentralAddress)
}

// The word of the five parts from d up.
#[tactic(auto, unfolding(crate::specs::CentralSide::joined))]
fn joined(m: &OwnMemory<'_>, d: u64) -> u64
    requires { d < 64 }
    ensures { result ≡ joined m.now.words.now d }
{
    from_parts(
        m.read(d),
        m.read(d + 1),
        m.read(d + 2),
        m.read(d + 3),
        m.read(d + 4),
    )
}

// 62.
#[tactic(auto, unfolding(crate::specs::CentralSide::write_central))]
pub fn write_central(v: &View<'_>, c: &[u64], d: u64) -> PeripheralEffect
    requires { d < 64 }
    ensures { result ≡ write_central v.now.memory.words.now c.now v.now.registers.processor d }
{
    let Processor { p, a, .. } = v.registers.processor;
    let at = a as usize;
    if at < c.len() { // 62 writes a word that is there
        return PeripheralEffect::WriteCentral(onward(p, 1), a, at, joined(&v.memory, d));
    }
    PeripheralEffect::Stop(PeripheralStop::CentralAddress)
}
