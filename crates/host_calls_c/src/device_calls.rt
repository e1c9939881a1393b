// The device calls, on the four numbers of a channel.
ghost use Rattle.std.specs.Prelude.{◌≡◌};
ghost use Rattle.host_answer.specs.Back.{back};
ghost use Rattle.host_answer.specs.Results.{take_left};
ghost use Rattle.host_calls.specs.Device.{channel_put, channel_take, channel_drop};

#[unsafe(no_mangle)]
pub extern "C" fn tozhenab_put(channel: &mut [u64], word: u64) -> u64
    ensures { back result channel.new ≡ channel_put channel.old word }
{
    host_calls::device_calls::tozhenab_put(channel, word)
}

#[unsafe(no_mangle)]
pub extern "C" fn tozhenab_drop(channel: &mut [u64]) -> u64
    ensures { back result channel.new ≡ channel_drop channel.old }
{
    host_calls::device_calls::tozhenab_drop(channel)
}

#[unsafe(no_mangle)]
pub extern "C" fn tozhenab_take(channel: &mut [u64], res: &mut [u64]) -> u64
    ensures { take_left result channel.new res.new ≡ channel_take channel.old res.old }
{
    host_calls::device_calls::tozhenab_take(channel, res)
}
