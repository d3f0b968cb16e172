// Input (000 1.10): A is the count, B the channel, C the pointer.
ghost use Rattle.std.specs.Prelude.{◌≡◌};
ghost use Rattle.rules.specs.Channels as channels;
ghost use Rattle.plan.specs.View.{work_of, view, Room, Ended, count_of};
ghost use Rattle.plan.specs.declared.Log.{Log};

use crate::hard::hard_input;
use crate::soft::{move_message, soft_wait};
use memory::loads::load_word;
use memory::store::w_index_word;
use plan::Plan;
use plan::channel::Channel;
use rules::REGISTERS;
use rules::names::*;
use words::{at_word, index_of};

// Sets B to the destination and C to the source of the message (DECISIONS 14).
#[tactic(auto, unfolding(rules::specs::Channels::input_regs, rules::specs::Work::put))]
fn input_regs(regs: &mut [u32; REGISTERS], source: u32)
    ensures { (log : Log) → view regs.new log ≡ channels.input_regs source (view regs.old log) }
{
    regs[BREG] = regs[CREG];
    regs[CREG] = source;
}

// Loads the partner's pointer, at Pointer.s, and moves the message.
#[tactic(auto, unfolding(rules::specs::Channels::input_ready))]
fn input_ready(plan: &mut Plan, mem: &[u32], descriptor: u32)
    requires { Room 7 plan.old.log × (count_of plan.old.log ≡ 0) }
    ensures { (work_of plan.new ≡ channels.input_ready mem.now descriptor (work_of plan.old)) × Ended 7 plan.old.log plan.new.log }
{
    let a = at_word(descriptor & WPTR_MASK, POINTER_S);
    let source = load_word(&mut plan.log, mem, a);
    input_regs(&mut plan.regs, source);
    move_message(plan, mem, descriptor);
}

// Waits where the channel word is NotProcess.p, else resets the channel (DECISIONS 51) and moves the message.
#[tactic(auto, using(plan::proofs::Decided::tests), unfolding(rules::specs::Channels::soft_input))]
fn soft_input(plan: &mut Plan, mem: &[u32], descriptor: u32)
    requires { Room 8 plan.old.log × (count_of plan.old.log ≡ 0) }
    ensures { (work_of plan.new ≡ channels.soft_input mem.now descriptor (work_of plan.old)) × Ended 8 plan.old.log plan.new.log }
{
    if descriptor == NOT_PROCESS {
        soft_wait(plan, mem);
    } else {
        w_index_word(&mut plan.log, mem, plan.regs[BREG], 0, NOT_PROCESS);
        input_ready(plan, mem, descriptor);
    }
}

// Input (000 1.10), which is also input message (000 1.11).
// Kept, point 2: output goes to other procedures; each follows its own definition, cut at each IF (d).
#[tactic(auto, using(plan::proofs::Decided::tests), unfolding(rules::specs::Channels::input))]
pub fn input(plan: &mut Plan, mem: &[u32])
    requires { Room 8 plan.old.log × (count_of plan.old.log ≡ 0) }
    ensures { (work_of plan.new ≡ channels.input mem.now (work_of plan.old)) × Ended 8 plan.old.log plan.new.log }
{
    match Channel::new(index_of(plan.regs[BREG])) {
        Some(c) => hard_input(plan, mem, c),
        None => {
            let a = at_word(plan.regs[BREG], 0);
            let descriptor = load_word(&mut plan.log, mem, a);
            soft_input(plan, mem, descriptor);
        }
    }
}
