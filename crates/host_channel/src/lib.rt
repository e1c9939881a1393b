// The device calls by value, over those on a channel that is lent.
// Kept: `put`, `take` and `drop` beside `put_value`, `take_value` and `drop_value`, so that what the library runs is
// `whole_device::calls::put` itself, the call that a host makes (decision 114), and so of the others.
#![tactic(auto)]

ghost use Rattle.std.specs.Prelude.{◌≡◌};
ghost use Rattle.whole_device.specs.Device.{device_answer_to, take_answer_to, put_of, take_of, drop_of};

use base_outcome::refusal::Refusal;
use peripheral_channel::record::Channel;
use whole_device::calls;
use whole_device::calls::TakenFrom;

pub fn put(c: Channel, word: u64) -> Result<Channel, Refusal>
    ensures { device_answer_to c result ≡ put_of c word }
{
    let mut channel = c;
    calls::put(&mut channel, word)?;
    Ok(channel)
}

pub fn take(c: Channel) -> Result<TakenFrom, Refusal>
    ensures { take_answer_to c result ≡ take_of c }
{
    let mut channel = c;
    let taken = calls::take(&mut channel)?;
    Ok(TakenFrom { taken, channel })
}

pub fn drop(c: Channel) -> Result<Channel, Refusal>
    ensures { device_answer_to c result ≡ drop_of c }
{
    let mut channel = c;
    calls::drop(&mut channel)?;
    Ok(channel)
}
