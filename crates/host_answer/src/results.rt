// The results of calls as flat numbers: of a schedule's stints, and of a take.
ghost use Rattle.std.specs.Prelude.{◌≡◌, ◌*◌, ◌≤◌, length, get_or};
ghost use Rattle.base_lists.specs.Rows.{rows};
ghost use Rattle.base_lists.specs.Written.{Stores};
ghost use Rattle.peripheral_channel.specs.declared.record.Channel.{Channel};
ghost use Rattle.whole_device.specs.Device.{take_answer_to};
ghost use Rattle.host_answer.specs.Results.{stint_row, take_left, take_by, TakeStorable};

use super::write::StoredRecord;
use base_outcome::refusal::Refusal;
use whole_device::calls::TakenFrom;

// The entry of a list, and 0 past its end.
fn entry(list: &[u64], i: usize) -> u64
    ensures { result ≡ get_or list.now i 0 }
{
    list.get(i).copied().unwrap_or(0)
}

// The turns and the stop of each of n stints.
pub fn store_stints(res: &mut [u64], turns: &[u64], stops: &[u64], n: usize)
    requires { 2 * n ≤ length res.old }
    ensures { Stores res.old 0 (rows n (stint_row turns.now stops.now)) res.new }
{
    for i in 0..n {
        res[2 * i] = entry(turns, i);
        res[2 * i + 1] = entry(stops, i);
    }
}

// Stores what a take gave: the word and the mark, and the channel after it. A refusal stores nothing.
pub fn keep_taken(channel: &mut [u64], res: &mut [u64], answer: Result<TakenFrom, Refusal>) -> u64
    requires { TakeStorable channel.old res.old answer }
    ensures { (before : Channel) → take_left result channel.new res.new ≡ take_by channel.old res.old (take_answer_to before answer) }
{
    match answer {
        Ok(after) => {
            after.channel.store(channel);
            res[0] = after.taken.word;
            res[1] = u64::from(after.taken.is_function);
            0
        }
        Err(refusal) => refusal.number(),
    }
}
