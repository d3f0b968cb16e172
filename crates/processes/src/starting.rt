// Start process and run process (000 1.11).
ghost use Rattle.std.specs.Prelude.{◌≡◌};
ghost use Rattle.plan.specs.View.{work_of, Room, Grown};
ghost use Rattle.rules.specs.Scheduling as scheduling;

use memory::store::w_index_word;
use plan::Plan;
use rules::names::*;
use scheduling::running::run;
use words::at_byte;

// Starts a process with workspace A at Iptr + B, at the current priority (000 1.11, start process).
#[tactic(auto, unfolding(rules::specs::Scheduling::startp))]
pub fn startp(plan: &mut Plan, mem: &[u32])
    requires { Room 8 plan.old.log }
    ensures { (work_of plan.new ≡ scheduling.startp mem.now (work_of plan.old)) × Grown 8 plan.old.log plan.new.log }
{
    let iptr = at_byte(plan.regs[IPTR_REG], plan.regs[BREG]);
    let descriptor = plan.regs[AREG] | (plan.regs[WDESC_REG] & PRIORITY_MASK);
    w_index_word(&mut plan.log, mem, plan.regs[AREG], IPTR_S, iptr);
    run(plan, mem, descriptor);
}

// Runs the process with descriptor A (000 1.11, run process).
#[tactic(auto, unfolding(rules::specs::Scheduling::runp))]
pub fn runp(plan: &mut Plan, mem: &[u32])
    requires { Room 7 plan.old.log }
    ensures { (work_of plan.new ≡ scheduling.runp mem.now (work_of plan.old)) × Grown 7 plan.old.log plan.new.log }
{
    let descriptor = plan.regs[AREG];
    run(plan, mem, descriptor);
}
