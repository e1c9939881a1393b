// The device calls, on the four numbers of a channel.
ghost use Rattle.std.specs.Prelude.{◌≡◌};
ghost use Rattle.host_answer.specs.Back.{back};
ghost use Rattle.host_answer.specs.Results.{take_left};
ghost use Rattle.host_calls.specs.Device.{channel_verdict, channel_put, channel_take, channel_drop};

use base_outcome::refusal::Refusal;
use host_answer::keep::{keep, short_number};
use host_answer::results::keep_taken;
use host_record::read::lent;
use peripheral_channel::record::Channel;

// Puts a word on the channel.
#[unsafe(no_mangle)]
pub extern "C" fn tozhenab_put(channel: &mut [u64], word: u64) -> u64
    ensures { back result channel.new ≡ channel_put channel.old word }
{
    let c = lent(channel);
    keep(channel, host_channel::put(c, word))
}

// Makes the channel inactive and empty.
#[unsafe(no_mangle)]
pub extern "C" fn tozhenab_drop(channel: &mut [u64]) -> u64
    ensures { back result channel.new ≡ channel_drop channel.old }
{
    let c = lent(channel);
    keep(channel, host_channel::drop(c))
}

// Number 5 for a channel's word.
fn channel_verdict(c: Channel) -> Result<(), Refusal>
    ensures { result ≡ channel_verdict c }
{
    if !c.fits() {
        return Err(Refusal::RecordValue);
    }
    Ok(())
}

// Takes the word or function of the channel. The result is the word, and 1 for a function.
#[unsafe(no_mangle)]
pub extern "C" fn tozhenab_take(channel: &mut [u64], res: &mut [u64]) -> u64
    ensures { take_left result channel.new res.new ≡ channel_take channel.old res.old }
{
    let c = lent(channel);
    if res.len() < 2 {
        return short_number(channel_verdict(c));
    }
    keep_taken(channel, res, host_channel::take(c))
}
