// A hard channel (000 1.5; 01, Memory and registers): 0 to 3 are the output links, 4 to 7 the input links, 8 is the event channel. Its three
// registers stand together.
ghost use Rattle.std.specs.Prelude.{◌≡◌, ◌↔◌, ◌<◌, ℕ, IfSome, IsTrue, IsSome};
ghost use Rattle.rules.specs.Registers as registers;

use rules::names::*;
use std::marker::Model;

// The number of a hard channel.
#[derive(Clone, Copy, Debug, PartialEq, Eq)]
pub struct Channel {
    number: u32,
}

impl Model for Channel {
    ghost Value = { ℕ };

    ghost view = { λ c. c.number };

    ghost invariant = { λ c. c.number < registers.link_chans };

    ghost inverse = { λ n. record { number = n } };
}

impl Channel {
    // Returns the channel of a number; none where the number is that of a soft channel.
    pub fn new(number: u32) -> Option<Channel>
        ensures hard { IsSome result ↔ (number < registers.link_chans) }
        ensures same { IfSome result (λ c. c ≡ number) }
    {
        if number < LINK_CHANS {
            Some(Channel { number })
        } else {
            None
        }
    }

    // Returns the event channel.
    pub fn event() -> Channel
        ensures { result ≡ registers.event_channel }
    {
        Channel { number: 8 }
    }

    // Returns the number.
    pub fn number(self) -> u32
        ensures { (result ≡ self) × (result < registers.link_chans) }
    {
        self.number
    }

    // Tests whether the channel is an output link.
    pub fn is_output(self) -> bool
        ensures { IsTrue result ↔ (self < 4) }
    {
        self.number < 4
    }

    // Returns the register of the pointer.
    pub fn pointer(self) -> usize
        ensures { (result ≡ registers.pointer_reg self) × (result < registers.registers) }
    {
        POINTER_REG + 3 * (self.number as usize)
    }

    // Returns the register of the count.
    pub fn count(self) -> usize
        ensures { (result ≡ registers.count_reg self) × (result < registers.registers) }
    {
        COUNT_REG + 3 * (self.number as usize)
    }

    // Returns the register of the flags.
    pub fn flags(self) -> usize
        ensures { (result ≡ registers.channel_reg self) × (result < registers.registers) }
    {
        CHANNEL_REG + 3 * (self.number as usize)
    }
}
