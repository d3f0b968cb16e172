// What input and output on soft channels share (000 1.10).
ghost use Rattle.std.specs.Prelude.{◌≡◌};
ghost use Rattle.rules.specs.Channels as channels;
ghost use Rattle.plan.specs.View.{work_of, Room, Grown, Ended, count_of};

use memory::block_move::transfer;
use memory::store::w_index_word;
use plan::operands::move_done;
use plan::{Plan, goto_snp};
use rules::names::*;
use scheduling::running::run;
use scheduling::stopping::save_iptr;

// SaveRegsPendingSoftIO (000 1.10): stores Wdesc in the channel word, saves Iptr, and stores the pointer C at Pointer.s.
#[tactic(auto, unfolding(rules::specs::Channels::save_regs_pending_soft_io))]
fn save_regs_pending_soft_io(plan: &mut Plan, mem: &[u32])
    requires { Room 3 plan.old.log }
    ensures { (work_of plan.new ≡ channels.save_regs_pending_soft_io mem.now (work_of plan.old)) × Grown 3 plan.old.log plan.new.log × (plan.new.regs ≡ plan.old.regs) }
{
    let wptr = plan.regs[WDESC_REG] & WPTR_MASK;
    w_index_word(&mut plan.log, mem, plan.regs[BREG], 0, plan.regs[WDESC_REG]);
    save_iptr(plan, mem);
    w_index_word(&mut plan.log, mem, wptr, POINTER_S, plan.regs[CREG]);
}

// Saves the registers for the partner and sets GotoSNPBit.
#[tactic(auto, unfolding(rules::specs::Channels::soft_wait))]
pub fn soft_wait(plan: &mut Plan, mem: &[u32])
    requires { Room 3 plan.old.log }
    ensures { (work_of plan.new ≡ channels.soft_wait mem.now (work_of plan.old)) × Grown 3 plan.old.log plan.new.log }
{
    save_regs_pending_soft_io(plan, mem);
    goto_snp(&mut plan.regs);
}

// Moves the message, then runs the partner (000 1.10, BlockMoveFinalStep).
// Kept, point 2: moves as block_move of data does, then runs the partner; what they share is transfer and move_done (d).
#[tactic(auto, unfolding(rules::specs::Channels::move_message))]
pub fn move_message(plan: &mut Plan, mem: &[u32], descriptor: u32)
    requires { Room 7 plan.old.log × (count_of plan.old.log ≡ 0) }
    ensures { (work_of plan.new ≡ channels.move_message mem.now descriptor (work_of plan.old)) × Ended 7 plan.old.log plan.new.log }
{
    let n = plan.regs[AREG];
    transfer(&mut plan.log, mem, plan.regs[CREG], plan.regs[BREG], n);
    move_done(&mut plan.regs, n);
    run(plan, mem, descriptor);
}
