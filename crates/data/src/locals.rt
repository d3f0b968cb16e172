// Loads and stores of words at Wptr or A plus the operand Oreg, in words (000 1.11).
// Kept, point 2: each is an instruction with a definition of its own; what they share are r_index_word, w_index_word, pushed and popped.
ghost use Rattle.std.specs.Prelude.{◌≡◌};
ghost use Rattle.plan.specs.View.{work_of, Room, Grown};
ghost use Rattle.rules.specs.Data as dataRules;

use memory::store::{r_index_word, w_index_word};
use plan::Plan;
use plan::operands::{popped, pushed};
use rules::names::*;

// Pushes the stack and loads the local into A (000 1.11, load local).
#[tactic(auto, unfolding(rules::specs::Data::ldl))]
pub fn ldl(plan: &mut Plan, mem: &[u32])
    requires { Room 0 plan.old.log }
    ensures { (work_of plan.new ≡ dataRules.ldl mem.now (work_of plan.old)) × Grown 0 plan.old.log plan.new.log }
{
    let wptr = plan.regs[WDESC_REG] & WPTR_MASK;
    let operand = plan.regs[OREG];
    pushed(&mut plan.regs);
    r_index_word(plan, mem, wptr, operand, AREG);
}

// Stores A in the local and pops the stack (000 1.11, store local).
#[tactic(auto, unfolding(rules::specs::Data::stl))]
pub fn stl(plan: &mut Plan, mem: &[u32])
    requires { Room 1 plan.old.log }
    ensures { (work_of plan.new ≡ dataRules.stl mem.now (work_of plan.old)) × Grown 1 plan.old.log plan.new.log }
{
    let wptr = plan.regs[WDESC_REG] & WPTR_MASK;
    w_index_word(&mut plan.log, mem, wptr, plan.regs[OREG], plan.regs[AREG]);
    popped(&mut plan.regs);
}

// Loads the non-local into A (000 1.11, load non-local).
#[tactic(auto, unfolding(rules::specs::Data::ldnl))]
pub fn ldnl(plan: &mut Plan, mem: &[u32])
    requires { Room 0 plan.old.log }
    ensures { (work_of plan.new ≡ dataRules.ldnl mem.now (work_of plan.old)) × Grown 0 plan.old.log plan.new.log }
{
    let a = plan.regs[AREG];
    let operand = plan.regs[OREG];
    r_index_word(plan, mem, a, operand, AREG);
}

// Stores B in the non-local and copies C to A; B and C keep their values (000 1.11, store non-local; DECISIONS 8).
#[tactic(auto, unfolding(rules::specs::Data::stnl, rules::specs::Work::put))]
pub fn stnl(plan: &mut Plan, mem: &[u32])
    requires { Room 1 plan.old.log }
    ensures { (work_of plan.new ≡ dataRules.stnl mem.now (work_of plan.old)) × Grown 1 plan.old.log plan.new.log }
{
    let c = plan.regs[CREG];
    w_index_word(
        &mut plan.log,
        mem,
        plan.regs[AREG],
        plan.regs[OREG],
        plan.regs[BREG],
    );
    plan.regs[AREG] = c;
}
