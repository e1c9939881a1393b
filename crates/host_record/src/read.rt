// The record that a slice of numbers holds.
ghost use Rattle.std.specs.Prelude.{◌≡◌, ◌+◌, ◌≤◌, length, true, ℕ, List, Bool};
ghost use Rattle.base_lists.specs.Indexed.{tabulate};
ghost use Rattle.host_record.specs.Layout.{register_in_numbers, central_in, channel_in, channel_in_machine, processor_in, processor_in_machine, machine_in};
ghost use Rattle.host_record.specs.Lent.{flags_fit, all_flags_fit, refused_central, refused_channel, refused_machine, lent_by, central_lent, channel_lent, machine_lent};
ghost use Rattle.host_record.specs.Laws.Read.{central-read, channel-read, machine-read};

use central_record::record::Central;
use peripheral_channel::record::Channel;
use peripheral_machine::numbers::Processor;
use std::array;
use whole_record::record::MachineRecord;

fn registers_in(r: &[u64]) -> [u64; 24]
    requires { 28 ≤ length r.now }
    ensures { result ≡ tabulate 24 (register_in_numbers r.now) }
{
    array::from_fn(|i| r[4 + i])
}

#[tactic(auto, unfolding(crate::specs::Layout::central_in))]
fn central_in(r: &[u64]) -> Central
    requires { 29 ≤ length r.now }
    ensures { result ≡ central_in r.now }
{
    let registers = registers_in(r);
    Central {
        p: r[0],
        ra: r[1],
        fl: r[2],
        em: r[3],
        registers,
        stop: r[28],
    }
}

fn channel_in(r: &[u64], at: usize) -> Channel
    requires { at + 4 ≤ length r.now }
    ensures { result ≡ channel_in r.now at }
{
    Channel {
        active: r[at] == 1,
        full: r[at + 1] == 1,
        mark: r[at + 2] == 1,
        word: r[at + 3],
    }
}

fn channels_in(r: &[u64]) -> [Channel; 12]
    requires { 78 ≤ length r.now }
    ensures { result ≡ tabulate 12 (channel_in_machine r.now) }
{
    array::from_fn(|i| channel_in(r, 30 + 4 * i))
}

fn processor_in(r: &[u64], at: usize) -> Processor
    requires { at + 3 ≤ length r.now }
    ensures { result ≡ processor_in r.now at }
{
    Processor {
        p: r[at],
        a: r[at + 1],
        stop: r[at + 2],
    }
}

fn processors_in(r: &[u64]) -> [Processor; 10]
    requires { 108 ≤ length r.now }
    ensures { result ≡ tabulate 10 (processor_in_machine r.now) }
{
    array::from_fn(|i| processor_in(r, 78 + 3 * i))
}

#[tactic(auto, unfolding(crate::specs::Layout::machine_in))]
fn machine_in(r: &[u64]) -> MachineRecord
    requires { 108 ≤ length r.now }
    ensures { result ≡ machine_in r.now }
{
    let central = central_in(r);
    let channels = channels_in(r);
    let processors = processors_in(r);
    MachineRecord {
        central,
        clock: r[29],
        channels,
        processors,
    }
}

// The three flags of a channel are 0 or 1.
#[tactic(auto, unfolding(crate::specs::Lent::flags_fit))]
fn flags_fit(r: &[u64], at: usize) -> bool
    requires { at + 4 ≤ length r.now }
    ensures { result ≡ flags_fit r.now at }
{
    r[at] <= 1 && r[at + 1] <= 1 && r[at + 2] <= 1
}

#[tactic(auto, unfolding(crate::specs::Lent::all_flags_fit))]
fn all_flags_fit(r: &[u64]) -> bool
    requires { 78 ≤ length r.now }
    ensures { result ≡ all_flags_fit r.now }
{
    (0..12).all(|i| flags_fit(r, 30 + 4 * i))
}

// P has more than 18 bits.
const REFUSED_CENTRAL: Central = Central {
    p: 0o1000000,
    ra: 0,
    fl: 0,
    em: 0,
    registers: [0; 24],
    stop: 0,
};

// The word has more than 12 bits.
const REFUSED_CHANNEL: Channel = Channel {
    active: false,
    full: false,
    mark: false,
    word: 0o10000,
};

const IDLE: Processor = Processor {
    p: 0,
    a: 0,
    stop: 0,
};

const REFUSED_MACHINE: MachineRecord = MachineRecord {
    central: REFUSED_CENTRAL,
    clock: 0,
    channels: [REFUSED_CHANNEL; 12],
    processors: [IDLE; 10],
};

// A record as flat numbers, as a host lends it.
pub trait FlatRecord: Copy {
    // How many numbers it has.
    const LENGTH: usize;

    // What stands in the place of a slice that is no record: number 5 refuses it.
    // Kept: a record and no `None`, since numbers 1 to 4 come before 5 and the entry point tests them itself (`central_lent`, decision 118).
    const REFUSED: Self;

    ghost LENGTH: { ℕ };

    ghost REFUSED: { Self };

    ghost flags_fit: { List ℕ → Bool };

    ghost read: { List ℕ → Self };

    ghost lent: { List ℕ → Self };

    // The flags in the record are 0 or 1.
    fn flags_fit(numbers: &[u64]) -> bool
        requires { length numbers.now ≡ LENGTH }
        ensures { result ≡ flags_fit numbers.now };

    // The record that these numbers are.
    fn read(numbers: &[u64]) -> Self
        requires { length numbers.now ≡ LENGTH }
        ensures { result ≡ read numbers.now };

    ghost lent_is_read: { (numbers : List ℕ) → lent numbers ≡ lent_by LENGTH flags_fit read REFUSED numbers };
}

impl FlatRecord for Central {
    const LENGTH: usize = 29;

    const REFUSED: Central = REFUSED_CENTRAL;

    ghost LENGTH = { 29 };

    ghost REFUSED = { refused_central };

    ghost flags_fit = { λ numbers. true };

    ghost read = { central_in };

    ghost lent = { central_lent };

    ghost lent_is_read = { central-read };

    fn flags_fit(_numbers: &[u64]) -> bool {
        true
    }

    fn read(numbers: &[u64]) -> Central {
        central_in(numbers)
    }
}

impl FlatRecord for Channel {
    const LENGTH: usize = 4;

    const REFUSED: Channel = REFUSED_CHANNEL;

    ghost LENGTH = { 4 };

    ghost REFUSED = { refused_channel };

    ghost flags_fit = { λ numbers. flags_fit numbers 0 };

    ghost read = { λ numbers. channel_in numbers 0 };

    ghost lent = { channel_lent };

    ghost lent_is_read = { channel-read };

    fn flags_fit(numbers: &[u64]) -> bool {
        flags_fit(numbers, 0)
    }

    fn read(numbers: &[u64]) -> Channel {
        channel_in(numbers, 0)
    }
}

impl FlatRecord for MachineRecord {
    const LENGTH: usize = 108;

    const REFUSED: MachineRecord = REFUSED_MACHINE;

    ghost LENGTH = { 108 };

    ghost REFUSED = { refused_machine };

    ghost flags_fit = { all_flags_fit };

    ghost read = { machine_in };

    ghost lent = { machine_lent };

    ghost lent_is_read = { machine-read };

    fn flags_fit(numbers: &[u64]) -> bool {
        all_flags_fit(numbers)
    }

    fn read(numbers: &[u64]) -> MachineRecord {
        machine_in(numbers)
    }
}

// The record that a host lends.
pub fn lent<R: FlatRecord>(numbers: &[u64]) -> R
    ensures { result ≡ R.lent numbers.now }
{
    if numbers.len() != R::LENGTH || !R::flags_fit(numbers) {
        return R::REFUSED;
    }
    R::read(numbers)
}
