// Move message (000 1.11): the block move in one step (01, One step).
ghost use Rattle.std.specs.Prelude.{◌≡◌};
ghost use Rattle.plan.specs.View.{work_of, Room, Ended, count_of};
ghost use Rattle.rules.specs.Data as dataRules;

use memory::block_move::transfer;
use plan::Plan;
use plan::operands::move_done;
use rules::names::*;

// Moves A bytes from C to B (000 1.11, move message).
#[tactic(auto, unfolding(rules::specs::Data::block_move))]
pub fn block_move(plan: &mut Plan, mem: &[u32])
    requires { Room 0 plan.old.log × (count_of plan.old.log ≡ 0) }
    ensures { (work_of plan.new ≡ dataRules.block_move mem.now (work_of plan.old)) × Ended 0 plan.old.log plan.new.log }
{
    let n = plan.regs[AREG];
    transfer(&mut plan.log, mem, plan.regs[CREG], plan.regs[BREG], n);
    move_done(&mut plan.regs, n);
}
