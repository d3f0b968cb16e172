// Timer guards: enable timer and disable timer (000 1.11).
ghost use Rattle.std.specs.Prelude.{◌≡◌};
ghost use Rattle.rules.specs.Timers as timers;
ghost use Rattle.plan.specs.View.{work_of, Room, Grown};

use crate::deletion::delete_first_step;
use memory::loads::load_word;
use memory::store::w_index_word;
use plan::{Plan, refuse};
use rules::names::*;
use scheduling::selected::{drop_b, is_this_selected_process};
use words::{at_word, later};

// Sets the time of the alternative to that of its first timer guard.
#[tactic(auto, unfolding(rules::specs::Timers::enbt_first))]
fn enbt_first(plan: &mut Plan, mem: &[u32])
    requires { Room 2 plan.old.log }
    ensures { (work_of plan.new ≡ timers.enbt_first mem.now (work_of plan.old)) × Grown 2 plan.old.log plan.new.log × (plan.new.regs ≡ plan.old.regs) }
{
    let wptr = plan.regs[WDESC_REG] & WPTR_MASK;
    w_index_word(&mut plan.log, mem, wptr, TLINK_S, TIME_SET);
    w_index_word(&mut plan.log, mem, wptr, TIME_S, plan.regs[BREG]);
}

// Stores the guard's time B where the time so far is later.
#[tactic(auto, unfolding(rules::specs::Timers::enbt_earlier))]
fn enbt_earlier(plan: &mut Plan, mem: &[u32], time: u32)
    requires { Room 1 plan.old.log }
    ensures { (work_of plan.new ≡ timers.enbt_earlier mem.now time (work_of plan.old)) × Grown 1 plan.old.log plan.new.log × (plan.new.regs ≡ plan.old.regs) }
{
    if later(time, plan.regs[BREG]) {
        let wptr = plan.regs[WDESC_REG] & WPTR_MASK;
        w_index_word(&mut plan.log, mem, wptr, TIME_S, plan.regs[BREG]);
    }
}

// Decides by TLink.s whether the guard is the first timer guard; refuses with STOP where TLink.s is neither mark (DECISIONS 26).
#[tactic(auto, using(plan::proofs::Decided::tests), unfolding(rules::specs::Timers::enbt_link))]
fn enbt_link(plan: &mut Plan, mem: &[u32], link: u32)
    requires { Room 2 plan.old.log }
    ensures { (work_of plan.new ≡ timers.enbt_link mem.now link (work_of plan.old)) × Grown 2 plan.old.log plan.new.log × (plan.new.regs ≡ plan.old.regs) }
{
    match link {
        TIME_NOT_SET => enbt_first(plan, mem),
        TIME_SET => {
            let a = at_word(plan.regs[WDESC_REG] & WPTR_MASK, TIME_S);
            let time = load_word(&mut plan.log, mem, a);
            enbt_earlier(plan, mem, time);
        }
        _ => refuse(&mut plan.log, STOP),
    }
}

// Enables the guard where its condition A is not false.
#[tactic(auto, using(plan::proofs::Decided::tests), unfolding(rules::specs::Timers::enbt_guard))]
fn enbt_guard(plan: &mut Plan, mem: &[u32])
    requires { Room 2 plan.old.log }
    ensures { (work_of plan.new ≡ timers.enbt_guard mem.now (work_of plan.old)) × Grown 2 plan.old.log plan.new.log × (plan.new.regs ≡ plan.old.regs) }
{
    if plan.regs[AREG] != MACHINE_FALSE {
        let a = at_word(plan.regs[WDESC_REG] & WPTR_MASK, TLINK_S);
        let link = load_word(&mut plan.log, mem, a);
        enbt_link(plan, mem, link);
    }
}

// Enables a timer guard with condition A and time B (000 1.11, enable timer).
#[tactic(auto, unfolding(rules::specs::Timers::enbt))]
pub fn enbt(plan: &mut Plan, mem: &[u32])
    requires { Room 2 plan.old.log }
    ensures { (work_of plan.new ≡ timers.enbt mem.now (work_of plan.old)) × Grown 2 plan.old.log plan.new.log }
{
    enbt_guard(plan, mem);
    drop_b(&mut plan.regs);
}

// Selects the guard where the time at which the process became ready is after the guard's time C, else answers false.
#[tactic(auto, unfolding(rules::specs::Timers::dist_ready, rules::specs::Work::put))]
fn dist_ready(plan: &mut Plan, mem: &[u32], time: u32)
    requires { Room 1 plan.old.log }
    ensures { (work_of plan.new ≡ timers.dist_ready mem.now time (work_of plan.old)) × Grown 1 plan.old.log plan.new.log }
{
    if later(time, plan.regs[CREG]) {
        is_this_selected_process(plan, mem);
    } else {
        plan.regs[AREG] = MACHINE_FALSE;
    }
}

// Decides whether the guard is ready where TLink.s is TimeSet.p; else the process is still in the queue, and is deleted.
#[tactic(auto, using(plan::proofs::Decided::tests), unfolding(rules::specs::Timers::dist_set, rules::specs::Work::put))]
fn dist_set(plan: &mut Plan, mem: &[u32], link: u32)
    requires { Room 2 plan.old.log }
    ensures { (work_of plan.new ≡ timers.dist_set mem.now link (work_of plan.old)) × Grown 2 plan.old.log plan.new.log }
{
    if link == TIME_SET {
        let a = at_word(plan.regs[WDESC_REG] & WPTR_MASK, TIME_S);
        let time = load_word(&mut plan.log, mem, a);
        dist_ready(plan, mem, time);
    } else {
        delete_first_step(plan, mem);
        plan.regs[AREG] = MACHINE_FALSE;
    }
}

// Answers false where TLink.s is TimeNotSet.p.
#[tactic(auto, using(plan::proofs::Decided::tests), unfolding(rules::specs::Timers::dist_link, rules::specs::Work::put))]
fn dist_link(plan: &mut Plan, mem: &[u32], link: u32)
    requires { Room 2 plan.old.log }
    ensures { (work_of plan.new ≡ timers.dist_link mem.now link (work_of plan.old)) × Grown 2 plan.old.log plan.new.log }
{
    if link == TIME_NOT_SET {
        plan.regs[AREG] = MACHINE_FALSE;
    } else {
        dist_set(plan, mem, link);
    }
}

// Disables a timer guard with offset A, condition B and time C (000 1.11, disable timer).
#[tactic(auto, using(plan::proofs::Decided::tests), unfolding(rules::specs::Timers::dist, rules::specs::Work::put))]
pub fn dist(plan: &mut Plan, mem: &[u32])
    requires { Room 2 plan.old.log }
    ensures { (work_of plan.new ≡ timers.dist mem.now (work_of plan.old)) × Grown 2 plan.old.log plan.new.log }
{
    if plan.regs[BREG] == MACHINE_FALSE {
        plan.regs[AREG] = MACHINE_FALSE;
    } else {
        let a = at_word(plan.regs[WDESC_REG] & WPTR_MASK, TLINK_S);
        let link = load_word(&mut plan.log, mem, a);
        dist_link(plan, mem, link);
    }
}
