// The device calls, on the channel that is the one job of the line.
use super::given::Given;
use super::lent::Lent;
use super::line::{ARGUMENT, CHANNELS, JOB_COUNT, JOBS, Numbers};
use host_calls::device_calls::{tozhenab_drop, tozhenab_put, tozhenab_take};

// The four numbers of the channel.
fn channel(numbers: &mut Numbers) -> Option<&mut [u64]> {
    let job = numbers[JOBS];
    if numbers[JOB_COUNT] != 1 || 12 <= job {
        return None;
    }
    let at = CHANNELS + 4 * (job as usize);
    Some(&mut numbers[at..at + 4])
}

impl Lent<'_> {
    pub(crate) fn put(&mut self) -> Option<Given> {
        let word = self.numbers[ARGUMENT];
        let channel = channel(self.numbers)?;
        Some(Given::refusal(tozhenab_put(channel, word)))
    }

    pub(crate) fn take(&mut self) -> Option<Given> {
        let channel = channel(self.numbers)?;
        let mut taken = [0; 2];
        let refusal = tozhenab_take(channel, &mut taken);
        Some(Given {
            word: taken[0],
            mark: taken[1],
            ..Given::refusal(refusal)
        })
    }

    pub(crate) fn drop_channel(&mut self) -> Option<Given> {
        let channel = channel(self.numbers)?;
        Some(Given::refusal(tozhenab_drop(channel)))
    }
}
