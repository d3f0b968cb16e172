// The tests for a common step, which step_fast makes without a plan (DECISIONS 54).
ghost use Rattle.std.specs.Prelude.{◌≡◌};
ghost use Rattle.plan.specs.Level.{number};
ghost use Rattle.step_pending.specs.NothingPending as pending;

use plan::level::Level;
use rules::names::*;
use rules::{Core, REGISTERS};

// Run request and ready request.
const REQUESTS: u32 = RUN_REQUEST + READY_REQUEST;

// Tests that no channel has a request: ORs the flags of the nine, then tests once.
fn no_request(regs: [u32; REGISTERS]) -> bool
    ensures { result ≡ pending.no_request 0 9 regs }
{
    let mut flags = 0;
    for c in 0..9 {
        flags |= regs[CHANNEL_REG + 3 * c];
    }
    flags & REQUESTS == 0
}

// Tests whether a timer is enabled and its time has come.
// Kept, point 2: as timers::timer_due, on registers by value, which the common step has; a reference would be made for it alone (d).
#[tactic(auto, using(plan::proofs::Decided::tests), unfolding(crate::specs::NothingPending::due))]
fn due(regs: [u32; REGISTERS], timer: Level) -> bool
    ensures { result ≡ pending.due (number timer) regs }
{
    regs[FLAGS_REG] & timer.timer_enabled() != 0
        && !words::later(regs[timer.next_time()], regs[timer.clock()])
}

// Tests that no channel has a request and neither timer is due, timer 1 at any priority: (a) and (b) do not apply (01, One step).
#[tactic(auto, unfolding(crate::specs::NothingPending::nothing_to_serve))]
fn nothing_to_serve(regs: [u32; REGISTERS]) -> bool
    ensures { result ≡ pending.nothing_to_serve regs }
{
    no_request(regs) && !due(regs, Level::High) && !due(regs, Level::Low)
}

// Tests that the step is an instruction alone (01, One step (c)): not halted, not idle; where Oreg is 0, nothing to serve; and GotoSNPBit is
// clear, so that the step acts on no bit of an earlier step (DECISIONS 17).
#[tactic(auto, using(plan::proofs::Decided::tests), unfolding(crate::specs::NothingPending::nothing_pending))]
pub fn nothing_pending(regs: [u32; REGISTERS]) -> bool
    ensures { result ≡ pending.nothing_pending regs }
{
    regs[FLAGS_REG] & HALTED_FLAG == 0
        && regs[FLAGS_REG] & IDLE_FLAG == 0
        && regs[STATUS_REG] & GOTO_SNP_BIT == 0
        && (regs[OREG] != 0 || nothing_to_serve(regs))
}

// Tests whether a slice ends at a jump: the process is low, the clocks run, and the slice is 1,024 or more.
#[tactic(auto, using(plan::proofs::Decided::tests), unfolding(crate::specs::NothingPending::slice_ends))]
pub fn slice_ends(regs: [u32; REGISTERS], s: Core) -> bool
    ensures { result ≡ pending.slice_ends s regs }
{
    s.wdesc & PRIORITY_MASK != 0
        && regs[FLAGS_REG] & CLOCKS_RUN != 0
        && SLICE_LENGTH <= regs[SLICE_REG]
}
