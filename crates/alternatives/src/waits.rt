// Alt start, alt wait, enable skip and disable skip (000 1.11).
ghost use Rattle.std.specs.Prelude.{◌≡◌};
ghost use Rattle.rules.specs.Channels as channels;
ghost use Rattle.plan.specs.View.{work_of, Room, Grown};

use memory::store::{r_index_word, w_index_word};
use plan::Plan;
use rules::names::*;
use scheduling::selected::{drop_b, is_this_selected_process};
use scheduling::stopping::wait;

// Sets State.s to Enabling.p (000 1.11, alt start).
// Kept, point 2: one store of its own definition, as state_ready; a function over both would be that store itself (d).
#[tactic(auto, unfolding(rules::specs::Channels::alt))]
pub fn alt(plan: &mut Plan, mem: &[u32])
    requires { Room 1 plan.old.log }
    ensures { (work_of plan.new ≡ channels.alt mem.now (work_of plan.old)) × Grown 1 plan.old.log plan.new.log × (plan.new.regs ≡ plan.old.regs) }
{
    w_index_word(
        &mut plan.log,
        mem,
        plan.regs[WDESC_REG] & WPTR_MASK,
        STATE_S,
        ENABLING,
    );
}

// Goes on where a guard is ready, else waits.
// Kept, point 2: enbs goes on in another way; each is a test of its own definition (d).
#[tactic(auto, using(plan::proofs::Decided::tests), unfolding(rules::specs::Channels::altwt_state))]
fn altwt_state(plan: &mut Plan, mem: &[u32])
    requires { Room 2 plan.old.log }
    ensures { (work_of plan.new ≡ channels.altwt_state mem.now (work_of plan.old)) × Grown 2 plan.old.log plan.new.log }
{
    if plan.regs[AREG] != READY {
        wait(plan, mem);
    }
}

// Waits for a guard, with none selected yet (000 1.11, alt wait). A is left with State.s (DECISIONS 10).
// Kept, point 2: taltwt goes on in another way; each follows its own definition, cut at each IF (d).
#[tactic(auto, unfolding(rules::specs::Channels::altwt))]
pub fn altwt(plan: &mut Plan, mem: &[u32])
    requires { Room 3 plan.old.log }
    ensures { (work_of plan.new ≡ channels.altwt mem.now (work_of plan.old)) × Grown 3 plan.old.log plan.new.log }
{
    let wptr = plan.regs[WDESC_REG] & WPTR_MASK;
    w_index_word(&mut plan.log, mem, wptr, 0, NONE_SELECTED);
    r_index_word(plan, mem, wptr, STATE_S, AREG);
    altwt_state(plan, mem);
}

// Sets State.s to Ready.p.
#[tactic(auto, unfolding(rules::specs::Channels::state_ready))]
pub fn state_ready(plan: &mut Plan, mem: &[u32])
    requires { Room 1 plan.old.log }
    ensures { (work_of plan.new ≡ channels.state_ready mem.now (work_of plan.old)) × Grown 1 plan.old.log plan.new.log × (plan.new.regs ≡ plan.old.regs) }
{
    w_index_word(
        &mut plan.log,
        mem,
        plan.regs[WDESC_REG] & WPTR_MASK,
        STATE_S,
        READY,
    );
}

// Makes the alternative ready where condition A is not false (000 1.11, enable skip).
#[tactic(auto, using(plan::proofs::Decided::tests), unfolding(rules::specs::Channels::enbs))]
pub fn enbs(plan: &mut Plan, mem: &[u32])
    requires { Room 1 plan.old.log }
    ensures { (work_of plan.new ≡ channels.enbs mem.now (work_of plan.old)) × Grown 1 plan.old.log plan.new.log × (plan.new.regs ≡ plan.old.regs) }
{
    if plan.regs[AREG] != MACHINE_FALSE {
        state_ready(plan, mem);
    }
}

// Selects the guard where condition B is not false, else answers false.
#[tactic(auto, using(plan::proofs::Decided::tests), unfolding(rules::specs::Channels::diss_guard, rules::specs::Work::put))]
fn diss_guard(plan: &mut Plan, mem: &[u32])
    requires { Room 1 plan.old.log }
    ensures { (work_of plan.new ≡ channels.diss_guard mem.now (work_of plan.old)) × Grown 1 plan.old.log plan.new.log }
{
    if plan.regs[BREG] == MACHINE_FALSE {
        plan.regs[AREG] = MACHINE_FALSE;
    } else {
        is_this_selected_process(plan, mem);
    }
}

// Disables a skip guard with offset A and condition B (000 1.11, disable skip).
#[tactic(auto, unfolding(rules::specs::Channels::diss))]
pub fn diss(plan: &mut Plan, mem: &[u32])
    requires { Room 1 plan.old.log }
    ensures { (work_of plan.new ≡ channels.diss mem.now (work_of plan.old)) × Grown 1 plan.old.log plan.new.log }
{
    diss_guard(plan, mem);
    drop_b(&mut plan.regs);
}
