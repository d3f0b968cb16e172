// Timer input, timer alt start and timer alt wait (000 1.11).
ghost use Rattle.std.specs.Prelude.{◌≡◌};
ghost use Rattle.rules.specs.Registers as registers;
ghost use Rattle.rules.specs.Work.{reg, priority};
ghost use Rattle.rules.specs.Timers as timers;
ghost use Rattle.plan.specs.View.{work_of, view, Room, Grown};
ghost use Rattle.plan.specs.declared.Log.{Log};

use crate::insertion::insert_first_step;
use crate::timer_queue::next_time;
use memory::store::{r_index_word, w_index_word};
use plan::level::Level;
use plan::{Plan, refuse};
use rules::REGISTERS;
use rules::names::*;
use scheduling::stopping::wait;
use words::later;

// Reads the clock of the current priority.
fn clock(regs: &[u32; REGISTERS]) -> u32
    ensures { (log : Log) → result ≡ reg (registers.clock_reg (priority (view regs.now log))) (view regs.now log) }
{
    regs[Level::of(regs[WDESC_REG]).clock()]
}

// Waits in the timer queue until the clock is after A, if it is not yet (000 1.11, timer input).
#[tactic(auto, unfolding(rules::specs::Timers::tin))]
pub fn tin(plan: &mut Plan, mem: &[u32])
    requires { Room 5 plan.old.log }
    ensures { (work_of plan.new ≡ timers.tin mem.now (work_of plan.old)) × Grown 5 plan.old.log plan.new.log }
{
    if !later(clock(&plan.regs), plan.regs[AREG]) {
        next_time(&mut plan.regs);
        insert_first_step(plan, mem);
    }
}

// Sets TLink.s to TimeNotSet.p and State.s to Enabling.p (000 1.11, timer alt start).
#[tactic(auto, unfolding(rules::specs::Timers::talt))]
pub fn talt(plan: &mut Plan, mem: &[u32])
    requires { Room 2 plan.old.log }
    ensures { (work_of plan.new ≡ timers.talt mem.now (work_of plan.old)) × Grown 2 plan.old.log plan.new.log × (plan.new.regs ≡ plan.old.regs) }
{
    let wptr = plan.regs[WDESC_REG] & WPTR_MASK;
    w_index_word(&mut plan.log, mem, wptr, TLINK_S, TIME_NOT_SET);
    w_index_word(&mut plan.log, mem, wptr, STATE_S, ENABLING);
}

// Stores the clock at Time.s.
#[tactic(auto, unfolding(rules::specs::Timers::time_now))]
fn time_now(plan: &mut Plan, mem: &[u32])
    requires { Room 1 plan.old.log }
    ensures { (work_of plan.new ≡ timers.time_now mem.now (work_of plan.old)) × Grown 1 plan.old.log plan.new.log × (plan.new.regs ≡ plan.old.regs) }
{
    let wptr = plan.regs[WDESC_REG] & WPTR_MASK;
    w_index_word(&mut plan.log, mem, wptr, TIME_S, clock(&plan.regs));
}

// Makes the process ready where the clock is after the time A, else inserts the process into the queue.
#[tactic(auto, unfolding(rules::specs::Timers::taltwt_time))]
fn taltwt_time(plan: &mut Plan, mem: &[u32])
    requires { Room 5 plan.old.log }
    ensures { (work_of plan.new ≡ timers.taltwt_time mem.now (work_of plan.old)) × Grown 5 plan.old.log plan.new.log }
{
    if later(clock(&plan.regs), plan.regs[AREG]) {
        let wptr = plan.regs[WDESC_REG] & WPTR_MASK;
        w_index_word(&mut plan.log, mem, wptr, STATE_S, READY);
        time_now(plan, mem);
    } else {
        next_time(&mut plan.regs);
        insert_first_step(plan, mem);
    }
}

// Waits, with a time where a timer guard is enabled; refuses with STOP where TLink.s is neither mark (DECISIONS 26).
#[tactic(auto, using(plan::proofs::Decided::tests), unfolding(rules::specs::Timers::taltwt_link))]
fn taltwt_link(plan: &mut Plan, mem: &[u32])
    requires { Room 5 plan.old.log }
    ensures { (work_of plan.new ≡ timers.taltwt_link mem.now (work_of plan.old)) × Grown 5 plan.old.log plan.new.log }
{
    match plan.regs[BREG] {
        TIME_NOT_SET => wait(plan, mem),
        TIME_SET => {
            let wptr = plan.regs[WDESC_REG] & WPTR_MASK;
            r_index_word(plan, mem, wptr, TIME_S, AREG);
            taltwt_time(plan, mem);
        }
        _ => refuse(&mut plan.log, STOP),
    }
}

// Stores the clock where a guard is ready, else waits.
#[tactic(auto, using(plan::proofs::Decided::tests), unfolding(rules::specs::Timers::taltwt_state))]
fn taltwt_state(plan: &mut Plan, mem: &[u32])
    requires { Room 5 plan.old.log }
    ensures { (work_of plan.new ≡ timers.taltwt_state mem.now (work_of plan.old)) × Grown 5 plan.old.log plan.new.log }
{
    if plan.regs[CREG] == READY {
        time_now(plan, mem);
    } else {
        let wptr = plan.regs[WDESC_REG] & WPTR_MASK;
        r_index_word(plan, mem, wptr, TLINK_S, BREG);
        taltwt_link(plan, mem);
    }
}

// Waits for a guard (000 1.11, timer alt wait). C is left with the state, then B with TLink.s, then A with the time (DECISIONS 10).
#[tactic(auto, unfolding(rules::specs::Timers::taltwt))]
pub fn taltwt(plan: &mut Plan, mem: &[u32])
    requires { Room 6 plan.old.log }
    ensures { (work_of plan.new ≡ timers.taltwt mem.now (work_of plan.old)) × Grown 6 plan.old.log plan.new.log }
{
    let wptr = plan.regs[WDESC_REG] & WPTR_MASK;
    w_index_word(&mut plan.log, mem, wptr, 0, NONE_SELECTED);
    r_index_word(plan, mem, wptr, STATE_S, CREG);
    taltwt_state(plan, mem);
}
