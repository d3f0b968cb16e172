// Load byte and store byte (000 1.11).
ghost use Rattle.std.specs.Prelude.{◌≡◌};
ghost use Rattle.plan.specs.View.{work_of, Room, Grown};
ghost use Rattle.rules.specs.Data as dataRules;

use memory::store::{r_index_byte, store_byte};
use plan::Plan;
use rules::names::*;

// Loads the byte at A into A.
#[tactic(auto, unfolding(rules::specs::Data::lb))]
pub fn lb(plan: &mut Plan, mem: &[u32])
    requires { Room 0 plan.old.log }
    ensures { (work_of plan.new ≡ dataRules.lb mem.now (work_of plan.old)) × Grown 0 plan.old.log plan.new.log }
{
    let a = plan.regs[AREG];
    r_index_byte(plan, mem, a, AREG);
}

// Stores the low byte of B at A, and copies C to A; B and C keep their values (DECISIONS 8).
#[tactic(auto, unfolding(rules::specs::Data::sb, rules::specs::Work::put))]
pub fn sb(plan: &mut Plan, mem: &[u32])
    requires { Room 1 plan.old.log }
    ensures { (work_of plan.new ≡ dataRules.sb mem.now (work_of plan.old)) × Grown 1 plan.old.log plan.new.log }
{
    let c = plan.regs[CREG];
    store_byte(&mut plan.log, mem, plan.regs[AREG], plan.regs[BREG] % 256);
    plan.regs[AREG] = c;
}
