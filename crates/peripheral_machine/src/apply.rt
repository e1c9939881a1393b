// The only code that writes for a peripheral processor.
ghost use Rattle.std.specs.Prelude.{◌≡◌, ◌<◌, ◌≤◌, ◌+◌, length};
ghost use Rattle.central_record.specs.Record.{FitsPackage};
ghost use Rattle.peripheral_machine.specs.Numbers.{central_of};
ghost use Rattle.peripheral_machine.specs.Machine.{machine, central_side};
ghost use Rattle.peripheral_machine.specs.Apply.{with_parts, exchanged_at, peripheral_applied};
ghost use Rattle.peripheral_machine.specs.Widths.{PeripheralSound};

use super::effect::PeripheralEffect;
use super::numbers::Numbers;
use exchange_jump::jump::exchange_jump;
use word_fields::fields::part;

// The five parts of a word, top part first, from this address up.
// Kept: five lines, one a part, as document 01 has them ("in five parts, top part first") and `with_parts` of specs/Apply.antt sets them.
#[tactic(auto, unfolding(crate::specs::Apply::with_parts))]
fn set_parts(m: &mut [u16], at: usize, w: u64)
    requires { at + 4 < length m.old }
    ensures { m.new ≡ with_parts m.old at w }
{
    m[at] = part(w, 0) as u16;
    m[at + 1] = part(w, 1) as u16;
    m[at + 2] = part(w, 2) as u16;
    m[at + 3] = part(w, 3) as u16;
    m[at + 4] = part(w, 4) as u16;
}

// The exchange jump of 26.
fn exchange_at(c: &mut [u64], x: &mut [u64; 24], s: &mut Numbers, at: usize)
    requires at_in_bounds { at + 16 ≤ length c.old }
    requires fits_package { FitsPackage (central_of x.old s.old.places) }
    ensures { central_side c.new x.new s.new.places
        ≡ exchanged_at c.old x.old s.old.places at }
{
    let before = s.central(x);
    let next = exchange_jump(c, before, at);
    let registers = next.registers;
    *x = registers;
    s.set_controls(next.p, next.ra, next.fl, next.em, next.stop);
}

// The effect e of an instruction of processor n, whose own memory is m.
#[tactic(auto, unfolding(crate::specs::Apply::peripheral_applied))]
pub fn apply(
    m: &mut [u16],
    c: &mut [u64],
    x: &mut [u64; 24],
    s: &mut Numbers,
    n: usize,
    e: PeripheralEffect,
)
    requires m_len { length m.old ≡ 4096 }
    requires fits_package { FitsPackage (central_of x.old s.old.places) }
    requires n_bound { n < 10 }
    requires peripheral_sound { PeripheralSound c.old e }
    ensures { machine m.new c.new x.new s.new.places
        ≡ peripheral_applied (machine m.old c.old x.old s.old.places) n e }
{
    match e {
        PeripheralEffect::Advance(p, a) => {
            s.advance(n, p, a);
        }
        PeripheralEffect::Store(p, a, at, v) => {
            m[at] = v as u16;
            s.advance(n, p, a);
        }
        PeripheralEffect::ReadCentral(p, a, at, w) => {
            set_parts(m, at, w);
            s.advance(n, p, a);
        }
        PeripheralEffect::WriteCentral(p, a, at, w) => {
            c[at] = w;
            s.advance(n, p, a);
        }
        PeripheralEffect::SetChannel(p, a, i, d) => {
            s.set_channel(i, d);
            s.advance(n, p, a);
        }
        PeripheralEffect::Exchange(p, a, at) => {
            exchange_at(c, x, s, at);
            s.advance(n, p, a);
        }
        PeripheralEffect::Wait => {}
        PeripheralEffect::Stop(why) => {
            s.stop(n, why);
        }
    }
}
