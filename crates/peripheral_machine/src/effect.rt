// What an instruction of a peripheral processor asks for.
use base_outcome::stop::PeripheralStop;
use peripheral_channel::record::Channel;

// Each effect that goes on begins with the new P and A.
#[derive(Clone, Copy)]
pub enum PeripheralEffect {
    Advance(u64, u64),
    // An address of the processor's own memory and the word for it.
    Store(u64, u64, usize, u64),
    // 60: the first of five addresses of its own memory, and the central word for them.
    ReadCentral(u64, u64, usize, u64),
    // 62: a central address and the word for it.
    WriteCentral(u64, u64, usize, u64),
    // A channel's number and its new record.
    SetChannel(u64, u64, usize, Channel),
    // 26: the address of the package.
    Exchange(u64, u64, usize),
    // A channel is not ready: nothing changes, and the instruction comes again.
    Wait,
    Stop(PeripheralStop),
}
