// Insertion of the current process into a timer queue (000 1.10), in one step. A is the time; B is left with the front of the queue, C with the
// process that follows (DECISIONS 15). The walk has a budget of turns that runs out exactly in a ring (DECISIONS 46).
ghost use Rattle.std.specs.Prelude.{◌≡◌};
ghost use Rattle.rules.specs.Timers as timers;
ghost use Rattle.plan.specs.View.{work_of, Room, Grown};

use crate::timer_queue::{set_next, tptr_loc};
use memory::loads::load_word;
use memory::store::{r_index_word, w_index_word};
use plan::level::Level;
use plan::{Plan, goto_snp, refuse};
use rules::names::*;
use scheduling::stopping::save_iptr;
use words::{at_word, later};

// Sets the next time to that of the front process B, and sets GotoSNPBit (000 1.10, InsertFinalStep).
#[tactic(auto, unfolding(rules::specs::Timers::insert_next))]
fn insert_next(plan: &mut Plan, mem: &[u32])
    requires { Room 0 plan.old.log }
    ensures { (work_of plan.new ≡ timers.insert_next mem.now (work_of plan.old)) × Grown 0 plan.old.log plan.new.log }
{
    let queue = Level::of(plan.regs[WDESC_REG]);
    let front = plan.regs[BREG];
    set_next(plan, mem, queue, front);
    goto_snp(&mut plan.regs);
}

// Links the process: the word at previous gets its Wptr, TLink.s gets the process that follows. Saves Iptr.
#[tactic(auto, unfolding(rules::specs::Timers::insert_link))]
fn insert_link(plan: &mut Plan, mem: &[u32], previous: u32, subsequent: u32)
    requires { Room 3 plan.old.log }
    ensures { (work_of plan.new ≡ timers.insert_link mem.now previous subsequent (work_of plan.old)) × Grown 3 plan.old.log plan.new.log × (plan.new.regs ≡ plan.old.regs) }
{
    let wptr = plan.regs[WDESC_REG] & WPTR_MASK;
    w_index_word(&mut plan.log, mem, previous, 0, wptr);
    w_index_word(&mut plan.log, mem, wptr, TLINK_S, subsequent);
    save_iptr(plan, mem);
}

// InsertFinalStep (000 1.10): links the process before subsequent, and sets the next time of the queue. previous is the address of the word that
// points to subsequent.
#[tactic(auto, unfolding(rules::specs::Timers::insert_final_step, rules::specs::Work::put))]
fn insert_final_step(plan: &mut Plan, mem: &[u32], previous: u32, subsequent: u32)
    requires { Room 3 plan.old.log }
    ensures { (work_of plan.new ≡ timers.insert_final_step mem.now previous subsequent (work_of plan.old)) × Grown 3 plan.old.log plan.new.log }
{
    let priority = plan.regs[WDESC_REG] & PRIORITY_MASK;
    insert_link(plan, mem, previous, subsequent);
    plan.regs[CREG] = subsequent;
    r_index_word(plan, mem, TIMER_BASE, priority, BREG);
    insert_next(plan, mem);
}

// InsertTest and InsertMiddleStep (000 1.10): walks on while time is after that of the next process, then inserts; refuses with STOP where the
// budget runs out.
fn insert_walk(plan: &mut Plan, mem: &[u32], turns: usize, time: u32, previous: u32)
    requires { Room 3 plan.old.log }
    ensures { (work_of plan.new ≡ timers.insert_walk mem.now turns time previous (work_of plan.old)) × Grown 3 plan.old.log plan.new.log }
{
    let mut place = previous;
    for _ in 0..turns {
        let subsequent = load_word(&mut plan.log, mem, place);
        if subsequent == NOT_PROCESS {
            insert_final_step(plan, mem, place, subsequent);
            return;
        }
        let a = at_word(subsequent, TIME_S);
        let other = load_word(&mut plan.log, mem, a);
        if !later(time, other) {
            insert_final_step(plan, mem, place, subsequent);
            return;
        }
        place = at_word(subsequent, TLINK_S);
    }
    refuse(&mut plan.log, STOP);
}

// InsertFirstStep (000 1.10): marks the process as waiting, stores its time and walks the queue. The budget is two turns more than memory has
// words; a queue without a ring needs fewer (DECISIONS 27).
#[tactic(auto, unfolding(rules::specs::Timers::insert_first_step))]
pub fn insert_first_step(plan: &mut Plan, mem: &[u32])
    requires { Room 5 plan.old.log }
    ensures { (work_of plan.new ≡ timers.insert_first_step mem.now (work_of plan.old)) × Grown 5 plan.old.log plan.new.log }
{
    let wptr = plan.regs[WDESC_REG] & WPTR_MASK;
    let time = plan.regs[AREG];
    let first = tptr_loc(Level::of(plan.regs[WDESC_REG]));
    w_index_word(&mut plan.log, mem, wptr, STATE_S, WAITING);
    w_index_word(&mut plan.log, mem, wptr, TIME_S, time);
    insert_walk(plan, mem, mem.len() + 2, time, first);
}
