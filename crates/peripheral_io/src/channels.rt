// Codes 64 to 67, 70, 72 and 74 to 77.
ghost use Rattle.std.specs.Prelude.{◌≡◌, ◌<◌, ◌≤◌};
ghost use Rattle.peripheral_io.specs.Channels.{condition, jump_channel, channel_jump, changed, input_from, output_to, change_of, change_on};

use base_outcome::stop::PeripheralStop;
use peripheral_channel::record::Channel;
use peripheral_codes::addresses::{Registers, View, onward};
use peripheral_machine::effect::PeripheralEffect;
use peripheral_machine::numbers::{Numbers, Processor};
use word_arithmetic::sums::low;

// Channel 14 is the clock, and there is none above it.
const CLOCK: u64 = 0o14;

// The condition of code 6k, k from 4, of a channel.
#[tactic(auto, unfolding(crate::specs::Channels::condition))]
fn condition(c: Channel, k: u64) -> bool
    requires { (4 ≤ k) × (k < 8) }
    ensures { result ≡ condition c k }
{
    match k {
        4 => c.active,
        5 => !c.active,
        6 => c.full,
        _ => !c.full,
    }
}

// Channel d, or the clock as an active and full channel.
#[tactic(auto, unfolding(crate::specs::Channels::jump_channel))]
fn jump_channel(s: &Numbers, d: u64) -> Channel
    requires { d ≤ 0o14 }
    ensures { result ≡ jump_channel s.now.places d }
{
    if d == CLOCK {
        return Channel {
            active: true,
            full: true,
            ..Channel::INACTIVE
        };
    }
    s.channel(d as usize)
}

// Code 6k, k from 4.
#[tactic(auto, unfolding(crate::specs::Channels::channel_jump))]
pub fn channel_jump(v: &View<'_>, s: &Numbers, k: u64, d: u64) -> PeripheralEffect
    requires { (4 ≤ k) × (k < 8) }
    ensures { result ≡ channel_jump v.now.memory.words.now s.now.places v.now.registers.processor k d }
{
    if CLOCK < d {
        return PeripheralEffect::Stop(PeripheralStop::NoChannel);
    }
    let Processor { p, a, .. } = v.registers.processor;
    if condition(jump_channel(s, d), k) {
        return PeripheralEffect::Advance(v.memory.second(p), a);
    }
    PeripheralEffect::Advance(onward(p, 2), a)
}

// Channel d becomes this, or the code waits.
fn changed(p: u64, a: u64, d: u64, next: Option<Channel>) -> PeripheralEffect
    ensures { result ≡ changed p a d next }
{
    match next {
        Some(c) => PeripheralEffect::SetChannel(p, a, d as usize, c),
        None => PeripheralEffect::Wait,
    }
}

// 70.
#[tactic(auto, unfolding(crate::specs::Channels::input_from))]
pub fn input_from(s: &Numbers, q: Registers, d: u64) -> PeripheralEffect
    ensures { result ≡ input_from s.now.places q.processor d }
{
    let next = onward(q.processor.p, 1);
    if d == CLOCK {
        return PeripheralEffect::Advance(next, s.clock());
    }
    if d < CLOCK {
        let c = s.channel(d as usize);
        return changed(next, c.word, d, c.input());
    }
    PeripheralEffect::Stop(PeripheralStop::NoChannel)
}

// 72.
#[tactic(auto, unfolding(crate::specs::Channels::output_to))]
pub fn output_to(s: &Numbers, q: Registers, d: u64) -> PeripheralEffect
    ensures { result ≡ output_to s.now.places q.processor d }
{
    let Processor { p, a, .. } = q.processor;
    if d < CLOCK { // 72 is not for the clock
        let c = s.channel(d as usize);
        return changed(onward(p, 1), a, d, c.output(low::<12>(a)));
    }
    PeripheralEffect::Stop(PeripheralStop::NoChannel)
}

// Code 7k, k from 4, on channel d, whose record is c.
#[tactic(auto, unfolding(crate::specs::Channels::change_of))]
fn change_of(v: &View<'_>, c: Channel, k: u64, d: u64) -> PeripheralEffect
    requires { (4 ≤ k) × (k < 8) }
    ensures { result ≡ change_of v.now.memory.words.now c v.now.registers.processor k d }
{
    let Processor { p, a, .. } = v.registers.processor;
    match k {
        4 => changed(onward(p, 1), a, d, c.activate()),
        5 => changed(onward(p, 1), a, d, c.disconnect()),
        6 => changed(onward(p, 1), a, d, c.function(low::<12>(a))),
        _ => changed(onward(p, 2), a, d, c.function(v.memory.second(p))),
    }
}

// Code 7k, k from 4.
#[tactic(auto, unfolding(crate::specs::Channels::change_on))]
pub fn change_on(v: &View<'_>, s: &Numbers, k: u64, d: u64) -> PeripheralEffect
    requires { (4 ≤ k) × (k < 8) }
    ensures { result ≡ change_on v.now.memory.words.now s.now.places v.now.registers.processor k d }
{
    if d < CLOCK { // 74 to 77 are not for the clock
        return change_of(v, s.channel(d as usize), k, d);
    }
    PeripheralEffect::Stop(PeripheralStop::NoChannel)
}
