// Deletion of the current process from a timer queue (000 1.10), in one step. B is left with the front of the queue, C with the process that
// followed (DECISIONS 15). The walk has a budget of turns that runs out exactly in a ring (DECISIONS 46).
ghost use Rattle.std.specs.Prelude.{◌≡◌};
ghost use Rattle.rules.specs.Timers as timers;
ghost use Rattle.plan.specs.View.{work_of, Room, Grown};

use crate::timer_queue::{set_next, tptr_loc};
use memory::loads::load_word;
use memory::store::{r_index_word, w_index_word};
use plan::level::Level;
use plan::{Plan, lower, refuse};
use rules::names::*;
use words::at_word;

// Sets the next time to that of the front process, if the queue is not empty (000 1.10, DeleteFinalStep).
// Kept, point 2: as timer_next of a request, but for where queue and process come from; each follows its own definition (d).
#[tactic(auto, using(plan::proofs::Decided::tests), unfolding(rules::specs::Timers::delete_next))]
fn delete_next(plan: &mut Plan, mem: &[u32])
    requires { Room 0 plan.old.log }
    ensures { (work_of plan.new ≡ timers.delete_next mem.now (work_of plan.old)) × Grown 0 plan.old.log plan.new.log }
{
    let front = plan.regs[BREG];
    if front != NOT_PROCESS {
        let queue = Level::of(plan.regs[WDESC_REG]);
        set_next(plan, mem, queue, front);
    }
}

// Unlinks the process: the word at previous gets the process that follows, TLink.s gets TimeNotSet.p.
#[tactic(auto, unfolding(rules::specs::Timers::delete_link))]
fn delete_link(plan: &mut Plan, mem: &[u32], previous: u32)
    requires { Room 2 plan.old.log }
    ensures { (work_of plan.new ≡ timers.delete_link mem.now previous (work_of plan.old)) × Grown 2 plan.old.log plan.new.log × (plan.new.regs ≡ plan.old.regs) }
{
    let wptr = plan.regs[WDESC_REG] & WPTR_MASK;
    w_index_word(&mut plan.log, mem, previous, 0, plan.regs[CREG]);
    w_index_word(&mut plan.log, mem, wptr, TLINK_S, TIME_NOT_SET);
}

// DeleteFinalStep (000 1.10): unlinks the process, and sets the next time of the queue. previous is the address of the word that points to the
// process.
#[tactic(auto, unfolding(rules::specs::Timers::delete_final_step))]
fn delete_final_step(plan: &mut Plan, mem: &[u32], previous: u32)
    requires { Room 2 plan.old.log }
    ensures { (work_of plan.new ≡ timers.delete_final_step mem.now previous (work_of plan.old)) × Grown 2 plan.old.log plan.new.log }
{
    let wptr = plan.regs[WDESC_REG] & WPTR_MASK;
    let priority = plan.regs[WDESC_REG] & PRIORITY_MASK;
    r_index_word(plan, mem, wptr, TLINK_S, CREG);
    delete_link(plan, mem, previous);
    r_index_word(plan, mem, TIMER_BASE, priority, BREG);
    delete_next(plan, mem);
}

// DeleteTest and DeleteMiddleStep (000 1.10): walks the queue until the process is found; refuses with STOP where the budget runs out.
fn delete_walk(plan: &mut Plan, mem: &[u32], turns: usize, previous: u32)
    requires { Room 2 plan.old.log }
    ensures { (work_of plan.new ≡ timers.delete_walk mem.now turns previous (work_of plan.old)) × Grown 2 plan.old.log plan.new.log }
{
    let mut place = previous;
    for _ in 0..turns {
        let wptr = plan.regs[WDESC_REG] & WPTR_MASK;
        let subsequent = load_word(&mut plan.log, mem, place);
        if subsequent == wptr {
            delete_final_step(plan, mem, place);
            return;
        }
        place = at_word(subsequent, TLINK_S);
    }
    refuse(&mut plan.log, STOP);
}

// DeleteFirstStep (000 1.10): disables the timer and walks its queue. The budget is that of an insertion.
#[tactic(auto, unfolding(rules::specs::Timers::delete_first_step))]
pub fn delete_first_step(plan: &mut Plan, mem: &[u32])
    requires { Room 2 plan.old.log }
    ensures { (work_of plan.new ≡ timers.delete_first_step mem.now (work_of plan.old)) × Grown 2 plan.old.log plan.new.log }
{
    let queue = Level::of(plan.regs[WDESC_REG]);
    lower(&mut plan.regs, FLAGS_REG, queue.timer_enabled());
    delete_walk(plan, mem, mem.len() + 2, tptr_loc(queue));
}
