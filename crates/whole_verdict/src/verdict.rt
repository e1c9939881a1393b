// The tests of what the host lends for a peripheral turn or a run: numbers 1 to 5, and 8.
ghost use Rattle.std.specs.Prelude.{◌≡◌};
ghost use Rattle.whole_record.specs.Record.{processor_fits, processors_fit, channels_fit, machine_fits};
ghost use Rattle.whole_verdict.specs.Verdict.{peripheral_length_fits, short_words_fit, machine_verdict, turn_verdict, run_verdict};

use base_outcome::refusal::Refusal;
use central_record::record::{length_fits, record_fits, words_fit};
use peripheral_channel::record::Channel;
use peripheral_machine::numbers::Processor;
use whole_record::record::MachineRecord;

// P has 12 bits, A has 18, and the stop is 0 or 31 to 36.
#[tactic(auto, unfolding(whole_record::specs::Record::processor_fits))]
fn processor_fits(q: &Processor) -> bool
    ensures { result ≡ processor_fits q.now }
{
    q.p <= 4095 && q.a <= 0o777777 && (q.stop == 0 || 31 <= q.stop && q.stop <= 36)
}

fn processors_fit(processors: &[Processor; 10]) -> bool
    ensures { result ≡ processors_fit processors.now }
{
    processors.iter().all(processor_fits)
}

// Each channel's word has 12 bits.
fn channels_fit(channels: &[Channel; 12]) -> bool
    ensures { result ≡ channels_fit channels.now }
{
    channels.iter().all(|channel| channel.fits())
}

// Number 5 does not refuse the record, with a central memory of so many words.
#[tactic(auto, unfolding(whole_record::specs::Record::machine_fits))]
fn machine_fits(r: &MachineRecord, words: u64) -> bool
    ensures { result ≡ machine_fits words r.now }
{
    record_fits(r.central, words)
        && r.clock <= 4095
        && channels_fit(&r.channels)
        && processors_fit(&r.processors)
}

// 4,096 words for each of 1 to 10 processors.
#[tactic(auto, unfolding(crate::specs::Verdict::peripheral_length_fits))]
fn peripheral_length_fits(words: usize) -> bool
    ensures { result ≡ peripheral_length_fits words }
{
    4096 <= words && words <= 40960 && words % 4096 == 0
}

// No word of peripheral memory is over 4,095: tested in one pass, as in `words_fit`.
// Kept: a function of its own beside `words_fit` of central_record: the contract of one for both would have to say which number a word of
// type T is, and take the limit too, for a line of code in two places.
fn short_words_fit(m: &[u16]) -> bool
    ensures { result ≡ short_words_fit m.now }
{
    m.iter().fold(0, |all, word| all | word) < 4096
}

// Numbers 1 to 5, lowest first. `there`: the processor whose turn is asked for is there.
// Kept: c, m and r come one by one: the memories are two slices of a host's (the C interface), and r is the record read from its numbers.
#[tactic(auto, unfolding(crate::specs::Verdict::machine_verdict))]
pub fn machine_verdict(c: &[u64], m: &[u16], r: MachineRecord, there: bool) -> Result<(), Refusal>
    ensures { result ≡ machine_verdict there c.now m.now r }
{
    if !length_fits(c.len()) {
        return Err(Refusal::CentralLength);
    }
    if !peripheral_length_fits(m.len()) || !there {
        return Err(Refusal::PeripheralLength);
    }
    if !words_fit(c) {
        return Err(Refusal::CentralWord);
    }
    if !short_words_fit(m) {
        return Err(Refusal::PeripheralWord);
    }
    if !machine_fits(&r, c.len() as u64) {
        return Err(Refusal::RecordValue);
    }
    Ok(())
}

// The verdict on a turn of peripheral processor n.
pub fn turn_verdict(c: &[u64], m: &[u16], r: MachineRecord, n: u64) -> Result<(), Refusal>
    ensures { result ≡ turn_verdict c.now m.now r n }
{
    machine_verdict(c, m, r, n < (m.len() / 4096) as u64)
}

// The verdict on a run of n rounds.
#[tactic(auto, unfolding(crate::specs::Verdict::run_verdict))]
pub fn run_verdict(c: &[u64], m: &[u16], r: MachineRecord, n: u64) -> Result<(), Refusal>
    ensures { result ≡ run_verdict c.now m.now r n }
{
    machine_verdict(c, m, r, true)?;
    if 65535 < n {
        return Err(Refusal::TooManyTurns);
    }
    Ok(())
}
