// Common steps (DECISIONS 54; specs/Fast.antt): nearly every step of a program works on the seven registers of Core and stores nothing, one
// word, or the frame of a call. Declines every other step, and one that changes Status; step_engine makes those.
#![tactic(auto)]

pub mod functions; // the sixteen functions, after the fetch

ghost use Rattle.std.specs.Prelude.{◌≡◌, ◌<◌};
ghost use Rattle.rules.specs.Registers as registers;
ghost use Rattle.step_fast.specs.Fast as fast;

use rules::names::*;
use rules::{Core, REGISTERS};

// What a step stores: nothing; value in word index; or the frame of a call from word index on: value, then A, B and C as they were before the
// step.
#[derive(Clone, Copy, Debug, PartialEq, Eq)]
pub enum Stored {
    Nothing,
    Word { index: u32, value: u32 },
    Frame { index: u32, value: u32 },
}

// A common step: the registers after it, and what it stores.
#[derive(Clone, Copy, Debug, PartialEq, Eq)]
pub struct FastStep {
    pub core: Core,
    pub stored: Stored,
}

// Takes the seven registers out of all.
// Kept, point 4: as plan::core_of, on registers by value; the common step stands beside the plan and does not use it (d).
fn core_of(regs: [u32; REGISTERS]) -> Core
    ensures { result ≡ registers.core_of regs }
{
    Core {
        iptr: regs[IPTR_REG],
        wdesc: regs[WDESC_REG],
        a: regs[AREG],
        b: regs[BREG],
        c: regs[CREG],
        oreg: regs[OREG],
        status: regs[STATUS_REG],
    }
}

// Advances Iptr and takes the nibble into Oreg.
fn fetched(byte: u32, s: Core) -> Core
    ensures { result ≡ fast.fetched byte s }
{
    Core {
        iptr: words::at_byte(s.iptr, 1),
        oreg: words::with_nibble(byte, s.oreg),
        ..s
    }
}

#[tactic(auto, unfolding(crate::specs::Fast::decoded))]
fn decoded(mem: &[u32], regs: [u32; REGISTERS], byte: u32, s: Core) -> Option<FastStep>
    ensures { result ≡ fast.decoded mem.now regs byte s }
{
    functions::decode(mem, regs, byte >> 4, fetched(byte, s))
}

#[tactic(auto, unfolding(crate::specs::Fast::fetch, rules::specs::Tests::if_lt))]
fn fetch(mem: &[u32], regs: [u32; REGISTERS], s: Core) -> Option<FastStep>
    ensures { result ≡ fast.fetch mem.now regs s }
{
    let at = words::index_of(s.iptr) as usize;
    if at < mem.len() {
        let byte = words::byte_of(words::selector(s.iptr), mem[at]);
        return decoded(mem, regs, byte, s);
    }
    None
}

// Does the next instruction as a common step; None where it declines. This is the step of a machine where nothing is pending (step_pending).
pub fn common_step(mem: &[u32], regs: [u32; REGISTERS]) -> Option<FastStep>
    ensures { result ≡ fast.fetch mem.now regs (registers.core_of regs) }
{
    fetch(mem, regs, core_of(regs))
}
