// Tick (01, Links, clocks, slice): it stores nothing and is never refused, so it works on the registers without a plan.
ghost use Rattle.std.specs.Prelude.{◌≡◌};
ghost use Rattle.rules.specs.Work.{begin};
ghost use Rattle.rules.specs.Links as links;

use rules::REGISTERS;
use rules::names::*;
use words::wrap_add;

// Adds 1 to a slice below 1,024 where a low process is current and the machine is not idle.
#[tactic(auto, using(plan::proofs::Decided::tests), unfolding(rules::specs::Links::tick_slice, rules::specs::Work::put))]
fn tick_slice(regs: [u32; REGISTERS]) -> [u32; REGISTERS]
    ensures { begin result ≡ links.tick_slice (begin regs) }
{
    let mut t = regs;
    if regs[SLICE_REG] < SLICE_LENGTH
        && regs[WDESC_REG] & PRIORITY_MASK != 0
        && regs[FLAGS_REG] & IDLE_FLAG == 0
    {
        t[SLICE_REG] = regs[SLICE_REG] + 1;
    }
    t
}

// Adds 1 to the prescaler; from 63 on sets the prescaler to 0 and adds 1 to the low clock.
#[tactic(auto, using(plan::proofs::Decided::tests), unfolding(rules::specs::Links::tick_prescaler, rules::specs::Work::put))]
fn tick_prescaler(regs: [u32; REGISTERS]) -> [u32; REGISTERS]
    ensures { begin result ≡ links.tick_prescaler (begin regs) }
{
    let mut t = regs;
    if 63 <= regs[PRESCALER_REG] {
        let low = wrap_add(regs[CLOCK_REG_LOW], 1);
        t[PRESCALER_REG] = 0;
        t[CLOCK_REG_LOW] = low;
    } else {
        t[PRESCALER_REG] = regs[PRESCALER_REG] + 1;
    }
    t
}

// Adds 1 to the high clock, then ticks the prescaler and the slice.
#[tactic(auto, unfolding(rules::specs::Links::tick_clocks, rules::specs::Work::put))]
fn tick_clocks(regs: [u32; REGISTERS]) -> [u32; REGISTERS]
    ensures { begin result ≡ links.tick_clocks (begin regs) }
{
    let high = wrap_add(regs[CLOCK_REG_HIGH], 1);
    let mut t = regs;
    t[CLOCK_REG_HIGH] = high;
    tick_slice(tick_prescaler(t))
}

// Ticks the clocks if they run.
#[tactic(auto, using(plan::proofs::Decided::tests), unfolding(rules::specs::Links::tick))]
pub fn tick(regs: [u32; REGISTERS]) -> [u32; REGISTERS]
    ensures { begin result ≡ links.tick (begin regs) }
{
    if regs[FLAGS_REG] & CLOCKS_RUN == 0 {
        regs
    } else {
        tick_clocks(regs)
    }
}
