// A channel's record.
ghost use Rattle.std.specs.Prelude.{◌≡◌};
ghost use Rattle.peripheral_channel.specs.Fits.{channel_fits};

// The word stands first, so that in `PeripheralEffect` it lies where other effects have a number. Flags there would be split and joined by
// bytes in every turn.
#[derive(Clone, Copy, Debug, PartialEq, Eq)]
pub struct Channel {
    // 12 bits.
    pub word: u64,
    pub active: bool,
    pub full: bool,
    // The word is a function.
    pub mark: bool,
}

impl Channel {
    // Inactive and empty.
    pub const INACTIVE: Channel = Channel {
        word: 0,
        active: false,
        full: false,
        mark: false,
    };

    // Number 5 does not refuse the channel.
    pub fn fits(self) -> bool
        ensures { result ≡ channel_fits self }
    {
        self.word < 4096
    }
}
