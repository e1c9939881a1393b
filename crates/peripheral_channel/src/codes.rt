// What the peripheral codes 70, 72 and 74 to 77 do to a channel, by value: the channel after the code, or `None` where what the code needs
// is unmet and the turn changes nothing.
ghost use Rattle.std.specs.Prelude.{◌≡◌};
ghost use Rattle.peripheral_channel.specs.Codes.{channel_input, channel_output, activate_of, disconnect_of, function_of};

use super::record::Channel;

impl Channel {
    // 70 empties. The word that it reads is the word of the channel as it was.
    #[tactic(auto, unfolding(crate::specs::Codes::channel_input))]
    pub fn input(self) -> Option<Channel>
        ensures { result ≡ channel_input self }
    {
        if self.active && self.full {
            Some(Channel {
                word: 0,
                full: false,
                mark: false,
                ..self
            })
        } else {
            None
        }
    }

    // 72 fills.
    #[tactic(auto, unfolding(crate::specs::Codes::channel_output))]
    pub fn output(self, word: u64) -> Option<Channel>
        ensures { result ≡ channel_output self word }
    {
        if self.active && !self.full {
            Some(Channel {
                word,
                full: true,
                mark: false, // a word of 72 is no function
                ..self
            })
        } else {
            None
        }
    }

    // 74 activates only.
    #[tactic(auto, unfolding(crate::specs::Codes::activate_of))]
    pub fn activate(self) -> Option<Channel>
        ensures { result ≡ activate_of self }
    {
        if self.active {
            return None;
        }
        Some(Channel {
            active: true, // 74 does no more
            ..self
        })
    }

    // 75 empties and makes inactive.
    #[tactic(auto, unfolding(crate::specs::Codes::disconnect_of))]
    pub fn disconnect(self) -> Option<Channel>
        ensures { result ≡ disconnect_of self }
    {
        if self.active {
            Some(Channel::INACTIVE)
        } else {
            None
        }
    }

    // 76 and 77 activate, fill and mark.
    #[tactic(auto, unfolding(crate::specs::Codes::function_of))]
    pub fn function(self, word: u64) -> Option<Channel>
        ensures { result ≡ function_of self word }
    {
        if self.active {
            return None;
        }
        Some(Channel {
            word,
            active: true,
            full: true,
            mark: true,
        })
    }
}
