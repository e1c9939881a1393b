// The device calls: put, take and drop, by value and on the channel that the host lends.
ghost use Rattle.std.specs.Prelude.{◌≡◌};
ghost use Rattle.whole_device.specs.Device.{taken_number, device_answer_to, take_answer_to, put_of, take_of, drop_of, Puts, Takes, Drops};

use base_outcome::refusal::{Refusal, verdict_number};
use peripheral_channel::record::Channel;

// What a take gives.
#[derive(Clone, Copy, Debug, PartialEq, Eq)]
pub struct Taken {
    pub word: u64,
    pub is_function: bool,
}

// The same, and the channel after the take.
#[derive(Clone, Copy, Debug, PartialEq, Eq)]
pub struct TakenFrom {
    pub taken: Taken,
    pub channel: Channel,
}

// The number of a take: 0 where a word is taken.
pub fn taken_number(taken: Result<Taken, Refusal>) -> u64
    ensures { result ≡ taken_number taken }
{
    verdict_number(taken.map(|_| ()))
}

// A put of a word on a channel by value: it fills the channel as 72 does.
#[tactic(auto, unfolding(crate::specs::Device::put_of, peripheral_channel::specs::Codes::channel_output))]
pub fn put_value(c: Channel, word: u64) -> Result<Channel, Refusal>
    ensures { device_answer_to c result ≡ put_of c word }
{
    if !c.fits() {
        return Err(Refusal::RecordValue);
    }
    if 4095 < word {
        return Err(Refusal::DeviceWord);
    }
    c.output(word).ok_or(Refusal::PutUnmet)
}

// A take from a channel by value.
#[tactic(auto, unfolding(crate::specs::Device::take_of))]
pub fn take_value(c: Channel) -> Result<TakenFrom, Refusal>
    ensures { take_answer_to c result ≡ take_of c }
{
    if !c.fits() {
        return Err(Refusal::RecordValue);
    }
    if !c.active || !c.full {
        return Err(Refusal::TakeUnmet);
    }
    Ok(TakenFrom {
        taken: Taken {
            word: c.word,
            is_function: c.mark,
        },
        channel: Channel {
            // Taking a function also makes the channel inactive.
            active: !c.mark,
            ..Channel::INACTIVE
        },
    })
}

// A drop of a channel by value.
#[tactic(auto, unfolding(crate::specs::Device::drop_of))]
pub fn drop_value(c: Channel) -> Result<Channel, Refusal>
    ensures { device_answer_to c result ≡ drop_of c }
{
    if !c.fits() {
        return Err(Refusal::RecordValue);
    }
    Ok(Channel::INACTIVE)
}

// Puts a word on the channel that the host lends.
pub fn put(c: &mut Channel, word: u64) -> Result<(), Refusal>
    ensures { Puts c.old word result c.new }
{
    *c = put_value(*c, word)?;
    Ok(())
}

// Takes the word or function from the channel that the host lends.
pub fn take(c: &mut Channel) -> Result<Taken, Refusal>
    ensures { Takes c.old result c.new }
{
    let after = take_value(*c)?;
    *c = after.channel;
    Ok(after.taken)
}

// Makes the channel that the host lends inactive and empty.
pub fn drop(c: &mut Channel) -> Result<(), Refusal>
    ensures { Drops c.old result c.new }
{
    *c = drop_value(*c)?;
    Ok(())
}
