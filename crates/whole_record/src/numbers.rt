// The machine's record as the 84 numbers that turns work on, and back.
ghost use Rattle.std.specs.Prelude.{◌≡◌, ◌<◌};
ghost use Rattle.whole_record.specs.Numbers.{processor_number, channel_number, number_of, numbers_of, processors_of, channels_of, record_of};

use super::record::MachineRecord;
use peripheral_channel::record::Channel;
use peripheral_machine::numbers::{Numbers, Processor};
use std::array;

// P, A and stop of ten processors, by place.
#[tactic(auto, unfolding(crate::specs::Numbers::processor_number))]
fn processor_number(processors: &[Processor; 10], i: usize) -> u64
    requires { i < 30 }
    ensures { result ≡ processor_number processors.now i }
{
    if i < 10 {
        processors[i].p
    } else if i < 20 {
        processors[i - 10].a
    } else {
        processors[i - 20].stop
    }
}

// Active, full, mark and word of twelve channels, by place.
#[tactic(auto, unfolding(crate::specs::Numbers::channel_number))]
fn channel_number(channels: &[Channel; 12], i: usize) -> u64
    requires { i < 48 }
    ensures { result ≡ channel_number channels.now i }
{
    if i < 12 {
        u64::from(channels[i].active)
    } else if i < 24 {
        u64::from(channels[i - 12].full)
    } else if i < 36 {
        u64::from(channels[i - 24].mark)
    } else {
        channels[i - 36].word
    }
}

// The number at place i.
#[tactic(auto, unfolding(crate::specs::Numbers::number_of))]
fn number_of(r: &MachineRecord, i: usize) -> u64
    requires { i < 84 }
    ensures { result ≡ number_of r.now i }
{
    match i {
        0..=29 => processor_number(&r.processors, i),
        30..=77 => channel_number(&r.channels, i - 30),
        78 => r.central.p,
        79 => r.central.ra,
        80 => r.central.fl,
        81 => r.central.em,
        82 => r.central.stop,
        _ => r.clock,
    }
}

pub fn numbers_of(r: &MachineRecord) -> Numbers
    ensures { result.places ≡ numbers_of r.now }
{
    let places = array::from_fn(|i| number_of(r, i));
    Numbers { places }
}

fn processors_of(s: &Numbers) -> [Processor; 10]
    ensures { result ≡ processors_of s.now.places }
{
    array::from_fn(|n| s.processor(n))
}

fn channels_of(s: &Numbers) -> [Channel; 12]
    ensures { result ≡ channels_of s.now.places }
{
    array::from_fn(|i| s.channel(i))
}

pub fn record_of(x: &[u64; 24], s: &Numbers) -> MachineRecord
    ensures { result ≡ record_of x.now s.now.places }
{
    let central = s.central(x);
    let channels = channels_of(s);
    let processors = processors_of(s);
    MachineRecord {
        central,
        clock: s.clock(),
        channels,
        processors,
    }
}
