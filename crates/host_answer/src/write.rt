// A record stored into a slice of numbers.
ghost use Rattle.std.specs.Prelude.{◌≡◌, ◌+◌, ◌≤◌, List, ℕ, length};
ghost use Rattle.host_record.specs.Layout.{register_row, central_numbers, channel_numbers, processor_numbers, channel_row, processor_row, machine_numbers};
ghost use Rattle.base_lists.specs.Rows.{rows};
ghost use Rattle.base_lists.specs.Written.{Stores};

use central_record::record::Central;
use host_record::read::FlatRecord;
use peripheral_channel::record::Channel;
use peripheral_machine::numbers::Processor;
use whole_record::record::MachineRecord;

// A record that may be stored as flat numbers.
pub trait StoredRecord: FlatRecord {
    ghost numbers: { Self → List ℕ };

    fn store(self, out: &mut [u64])
        requires { length out.old ≡ Self.LENGTH }
        ensures { out.new ≡ numbers self };
}

impl StoredRecord for Central {
    ghost numbers = { central_numbers };

    fn store(self, out: &mut [u64]) {
        store_central(out, self);
    }
}

impl StoredRecord for Channel {
    ghost numbers = { channel_numbers };

    fn store(self, out: &mut [u64]) {
        store_channel(out, 0, self);
    }
}

impl StoredRecord for MachineRecord {
    ghost numbers = { machine_numbers };

    fn store(self, out: &mut [u64]) {
        store_central(out, self.central);
        out[29] = self.clock;
        store_channels(out, self.channels);
        store_processors(out, self.processors);
    }
}

fn store_registers(out: &mut [u64], registers: [u64; 24])
    requires { 28 ≤ length out.old }
    ensures { Stores out.old 4 (rows 24 (register_row registers)) out.new }
{
    out[4..28].copy_from_slice(&registers);
}

fn store_central(out: &mut [u64], c: Central)
    requires { 29 ≤ length out.old }
    ensures { Stores out.old 0 (central_numbers c) out.new }
{
    out[0] = c.p;
    out[1] = c.ra;
    out[2] = c.fl;
    out[3] = c.em;
    store_registers(out, c.registers);
    out[28] = c.stop;
}

fn store_channel(out: &mut [u64], at: usize, c: Channel)
    requires { at + 4 ≤ length out.old }
    ensures { Stores out.old at (channel_numbers c) out.new }
{
    out[at] = u64::from(c.active);
    out[at + 1] = u64::from(c.full);
    out[at + 2] = u64::from(c.mark);
    out[at + 3] = c.word;
}

fn store_channels(out: &mut [u64], channels: [Channel; 12])
    requires { 78 ≤ length out.old }
    ensures { Stores out.old 30 (rows 12 (channel_row channels)) out.new }
{
    for (i, channel) in channels.iter().enumerate() {
        store_channel(out, 30 + 4 * i, *channel);
    }
}

fn store_processor(out: &mut [u64], at: usize, q: Processor)
    requires { at + 3 ≤ length out.old }
    ensures { Stores out.old at (processor_numbers q) out.new }
{
    out[at] = q.p;
    out[at + 1] = q.a;
    out[at + 2] = q.stop;
}

fn store_processors(out: &mut [u64], processors: [Processor; 10])
    requires { 108 ≤ length out.old }
    ensures { Stores out.old 78 (rows 10 (processor_row processors)) out.new }
{
    for (i, processor) in processors.iter().enumerate() {
        store_processor(out, 78 + 3 * i, *processor);
    }
}
