// The machine's record.
use central_record::record::Central;
use peripheral_channel::record::Channel;
use peripheral_machine::numbers::Processor;

// All registers and channels of the machine. There are ten processor records, however many processors the peripheral memory has.
#[derive(Clone, Copy)]
pub struct MachineRecord {
    pub central: Central,
    pub clock: u64,
    pub channels: [Channel; 12],
    pub processors: [Processor; 10],
}
