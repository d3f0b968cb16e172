// A priority (000 1.2): level 0 is high, level 1 low. Each has a run queue, a clock and a timer queue.
ghost use Rattle.std.specs.Prelude.{◌≡◌, ◌<◌};
ghost use Rattle.rules.specs.Core as core;
ghost use Rattle.rules.specs.Registers as registers;
ghost use Rattle.plan.specs.Level.{number};

use rules::names::*;

#[derive(Clone, Copy, Debug, PartialEq, Eq)]
pub enum Level {
    High,
    Low,
}

impl Level {
    // Returns the priority of a process: bit 0 of its descriptor.
    pub fn of(wdesc: u32) -> Level
        ensures { number result ≡ core.priority_of wdesc }
    {
        if wdesc & PRIORITY_MASK == 0 {
            Level::High
        } else {
            Level::Low
        }
    }

    // Returns the number.
    // Kept, point 2: this and the registers of a level are a match each, with its two constants; that is their table (d).
    pub fn number(self) -> u32
        ensures { (result ≡ number self) × (result < 2) }
    {
        match self {
            Level::High => 0,
            Level::Low => 1,
        }
    }

    // Returns the register that holds the front of the run queue.
    pub fn front(self) -> usize
        ensures { (result ≡ registers.fptr_reg (number self)) × (result < registers.registers) }
    {
        match self {
            Level::High => FPTR_REG_HIGH,
            Level::Low => FPTR_REG_LOW,
        }
    }

    // Returns the register that holds the back of the run queue.
    pub fn back(self) -> usize
        ensures { (result ≡ registers.bptr_reg (number self)) × (result < registers.registers) }
    {
        match self {
            Level::High => BPTR_REG_HIGH,
            Level::Low => BPTR_REG_LOW,
        }
    }

    // Returns the register of the clock.
    pub fn clock(self) -> usize
        ensures { (result ≡ registers.clock_reg (number self)) × (result < registers.registers) }
    {
        match self {
            Level::High => CLOCK_REG_HIGH,
            Level::Low => CLOCK_REG_LOW,
        }
    }

    // Returns the register of the next time of the timer queue.
    pub fn next_time(self) -> usize
        ensures { (result ≡ registers.tnext_reg (number self)) × (result < registers.registers) }
    {
        match self {
            Level::High => TNEXT_REG_HIGH,
            Level::Low => TNEXT_REG_LOW,
        }
    }

    // Returns the mask of TEnabled in the flags.
    pub fn timer_enabled(self) -> u32
        ensures { result ≡ registers.t_enabled (number self) }
    {
        match self {
            Level::High => T_ENABLED_HIGH,
            Level::Low => T_ENABLED_LOW,
        }
    }
}
