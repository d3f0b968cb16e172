// What a step serves before an instruction (01, One step (a) and (b)): the lowest channel with a request, else the first ready timer. The crates
// channels and timers serve the request.
ghost use Rattle.std.specs.Prelude.{◌≡◌, ◌<◌, eqb, IfSome, unwrap_or};
ghost use Rattle.rules.specs.Registers as registers;
ghost use Rattle.rules.specs.Work.{reg};
ghost use Rattle.rules.specs.Channels as channels;
ghost use Rattle.plan.specs.View.{view};
ghost use Rattle.plan.specs.declared.Log.{Log};
ghost use Rattle.step_pending.specs.Timer.{first_ready};

use plan::channel::Channel;
use plan::level::Level;
use rules::REGISTERS;
use rules::names::*;
use timers::timer_queue::timer_ready;

// Tests that Oreg is 0: only then does a step serve requests (01, One step).
pub fn between_instructions(regs: &[u32; REGISTERS]) -> bool
    ensures { (log : Log) → result ≡ eqb (reg registers.oreg (view regs.now log)) 0 }
{
    regs[OREG] == 0
}

// Finds the lowest channel with a run or ready request.
pub fn requested(regs: &[u32; REGISTERS]) -> Option<Channel>
    ensures lowest { (log : Log) → unwrap_or result registers.link_chans ≡ channels.requested (view regs.now log) }
    ensures hard { IfSome result (λ c. c < registers.link_chans) }
{
    for number in 0..LINK_CHANS {
        let c = Channel::new(number).unwrap();
        if regs[c.flags()] & (RUN_REQUEST + READY_REQUEST) != 0 {
            return Some(c);
        }
    }
    None
}

// Finds the ready timer to serve, the high one before the low one.
#[tactic(auto, unfolding(crate::specs::Timer::first_ready))]
pub fn ready_timer(regs: &[u32; REGISTERS]) -> Option<Level>
    ensures { (log : Log) → result ≡ first_ready (view regs.now log) }
{
    if timer_ready(regs, Level::High) {
        Some(Level::High)
    } else if timer_ready(regs, Level::Low) {
        Some(Level::Low)
    } else {
        None
    }
}
