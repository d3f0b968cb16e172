// When a timer is ready (000 1.8), and the next time of its queue.
ghost use Rattle.std.specs.Prelude.{◌≡◌};
ghost use Rattle.rules.specs.Timers as timers;
ghost use Rattle.plan.specs.Level.{number};
ghost use Rattle.plan.specs.View.{work_of, view, Room, Grown};
ghost use Rattle.plan.specs.declared.Log.{Log};

use memory::store::r_index_word;
use plan::level::Level;
use plan::{Plan, raise};
use rules::REGISTERS;
use rules::names::*;
use words::{at_word, later, wrap_add};

// Returns the address of TPtrLoc[queue], the word that holds the front process (DECISIONS 40).
pub fn tptr_loc(queue: Level) -> u32
    ensures { result ≡ timers.tptr_loc (number queue) }
{
    at_word(TIMER_BASE, queue.number())
}

// Tests whether a timer is enabled and its next time is not after the clock (000 1.8).
#[tactic(auto, using(plan::proofs::Decided::tests), unfolding(rules::specs::Timers::timer_due))]
fn timer_due(regs: &[u32; REGISTERS], queue: Level) -> bool
    ensures { (log : Log) → result ≡ timers.timer_due (number queue) (view regs.now log) }
{
    regs[FLAGS_REG] & queue.timer_enabled() != 0
        && !later(regs[queue.next_time()], regs[queue.clock()])
}

// Tests whether a timer is ready; the low timer only while the machine is at low priority (DECISIONS 16).
// Kept, point 1: a test of bit 0 of a descriptor, as 000 makes it; a Level would be made and matched for the one test (d).
#[tactic(auto, using(plan::proofs::Decided::tests), unfolding(rules::specs::Timers::timer_ready))]
pub fn timer_ready(regs: &[u32; REGISTERS], queue: Level) -> bool
    ensures { (log : Log) → result ≡ timers.timer_ready (number queue) (view regs.now log) }
{
    match queue {
        Level::High => timer_due(regs, Level::High),
        Level::Low => regs[WDESC_REG] & PRIORITY_MASK != 0 && timer_due(regs, Level::Low),
    }
}

// Adds 1 to the time in A, wrapping: a process is ready when the clock is after its time (000 1.11, timer input and timer alt wait).
#[tactic(auto, unfolding(rules::specs::Timers::next_time, rules::specs::Work::put))]
pub fn next_time(regs: &mut [u32; REGISTERS])
    ensures { (log : Log) → view regs.new log ≡ timers.next_time (view regs.old log) }
{
    regs[AREG] = wrap_add(regs[AREG], 1);
}

// Loads the time of a process into TNextReg[queue] and enables the timer.
#[tactic(auto, unfolding(rules::specs::Timers::set_next))]
pub fn set_next(plan: &mut Plan, mem: &[u32], queue: Level, process: u32)
    requires { Room 0 plan.old.log }
    ensures { (work_of plan.new ≡ timers.set_next mem.now (number queue) process (work_of plan.old)) × Grown 0 plan.old.log plan.new.log }
{
    r_index_word(plan, mem, process, TIME_S, queue.next_time());
    raise(&mut plan.regs, FLAGS_REG, queue.timer_enabled());
}
