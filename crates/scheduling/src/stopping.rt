// Stops of the current process (000 1.10, 1.11): Iptr is saved in its workspace, and the step ends with StartNextProcess.
ghost use Rattle.std.specs.Prelude.{◌≡◌};
ghost use Rattle.plan.specs.View.{work_of, Room, Grown};
ghost use Rattle.rules.specs.Scheduling as scheduling;

use memory::store::w_index_word;
use plan::{Plan, goto_snp};
use rules::names::*;

// Saves Iptr in the workspace, at Iptr.s.
#[tactic(auto, unfolding(rules::specs::Scheduling::save_iptr))]
pub fn save_iptr(plan: &mut Plan, mem: &[u32])
    requires { Room 1 plan.old.log }
    ensures { (work_of plan.new ≡ scheduling.save_iptr mem.now (work_of plan.old)) × Grown 1 plan.old.log plan.new.log × (plan.new.regs ≡ plan.old.regs) }
{
    w_index_word(
        &mut plan.log,
        mem,
        plan.regs[WDESC_REG] & WPTR_MASK,
        IPTR_S,
        plan.regs[IPTR_REG],
    );
}

// Stops the process (000 1.11, stop process; 1.10, the end of Wait).
#[tactic(auto, unfolding(rules::specs::Scheduling::stopp))]
pub fn stopp(plan: &mut Plan, mem: &[u32])
    requires { Room 1 plan.old.log }
    ensures { (work_of plan.new ≡ scheduling.stopp mem.now (work_of plan.old)) × Grown 1 plan.old.log plan.new.log }
{
    save_iptr(plan, mem);
    goto_snp(&mut plan.regs);
}

// Wait (000 1.10): sets State.s to Waiting.p and stops the process.
#[tactic(auto, unfolding(rules::specs::Scheduling::wait))]
pub fn wait(plan: &mut Plan, mem: &[u32])
    requires { Room 2 plan.old.log }
    ensures { (work_of plan.new ≡ scheduling.wait mem.now (work_of plan.old)) × Grown 2 plan.old.log plan.new.log }
{
    w_index_word(
        &mut plan.log,
        mem,
        plan.regs[WDESC_REG] & WPTR_MASK,
        STATE_S,
        WAITING,
    );
    stopp(plan, mem);
}

// Stops the process where the error flag is set (000 1.11, stop on error).
#[tactic(auto, using(plan::proofs::Decided::tests), unfolding(rules::specs::Scheduling::stoperr))]
pub fn stoperr(plan: &mut Plan, mem: &[u32])
    requires { Room 1 plan.old.log }
    ensures { (work_of plan.new ≡ scheduling.stoperr mem.now (work_of plan.old)) × Grown 1 plan.old.log plan.new.log }
{
    if plan.regs[STATUS_REG] & ERROR_FLAG != 0 {
        stopp(plan, mem);
    }
}
