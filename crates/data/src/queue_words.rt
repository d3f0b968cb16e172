// Save high and low priority queue registers (000 1.11).
ghost use Rattle.std.specs.Prelude.{◌≡◌};
ghost use Rattle.plan.specs.Level.{number};
ghost use Rattle.plan.specs.View.{work_of, Room, Grown};
ghost use Rattle.rules.specs.Data as dataRules;

use memory::store::w_index_word;
use plan::Plan;
use plan::level::Level;
use plan::operands::popped;
use rules::names::*;

// Stores the front and back of a run queue in the two words at A, and pops the stack.
#[tactic(auto, unfolding(rules::specs::Data::save_queue))]
fn save_queue(plan: &mut Plan, mem: &[u32], level: Level)
    requires { Room 2 plan.old.log }
    ensures { (work_of plan.new ≡ dataRules.save_queue mem.now (number level) (work_of plan.old)) × Grown 2 plan.old.log plan.new.log }
{
    let front = plan.regs[level.front()];
    let back = plan.regs[level.back()];
    w_index_word(&mut plan.log, mem, plan.regs[AREG], 0, front);
    w_index_word(&mut plan.log, mem, plan.regs[AREG], 1, back);
    popped(&mut plan.regs);
}

// Saves the pointers of the high queue.
pub fn saveh(plan: &mut Plan, mem: &[u32])
    requires { Room 2 plan.old.log }
    ensures { (work_of plan.new ≡ dataRules.saveh mem.now (work_of plan.old)) × Grown 2 plan.old.log plan.new.log }
{
    save_queue(plan, mem, Level::High);
}

// Saves the pointers of the low queue.
pub fn savel(plan: &mut Plan, mem: &[u32])
    requires { Room 2 plan.old.log }
    ensures { (work_of plan.new ≡ dataRules.savel mem.now (work_of plan.old)) × Grown 2 plan.old.log plan.new.log }
{
    save_queue(plan, mem, Level::Low);
}
