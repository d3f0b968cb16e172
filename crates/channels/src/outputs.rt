// Output (000 1.10): A is the count, B the channel, C the pointer; and output word and output byte (000 1.11).
ghost use Rattle.std.specs.Prelude.{◌≡◌};
ghost use Rattle.rules.specs.Channels as channels;
ghost use Rattle.plan.specs.View.{work_of, Room, Grown, Ended, count_of};

use crate::hard::hard_output;
use crate::soft::{move_message, soft_wait};
use memory::loads::load_word;
use memory::store::w_index_word;
use plan::Plan;
use plan::channel::Channel;
use rules::names::*;
use scheduling::running::run;
use words::{at_word, index_of};

// Resets the channel and moves the message to the partner's pointer (DECISIONS 14).
#[tactic(auto, unfolding(rules::specs::Channels::output_message, rules::specs::Work::put))]
fn output_message(plan: &mut Plan, mem: &[u32], descriptor: u32, target: u32)
    requires { Room 8 plan.old.log × (count_of plan.old.log ≡ 0) }
    ensures { (work_of plan.new ≡ channels.output_message mem.now descriptor target (work_of plan.old)) × Ended 8 plan.old.log plan.new.log }
{
    w_index_word(&mut plan.log, mem, plan.regs[BREG], 0, NOT_PROCESS);
    plan.regs[BREG] = target;
    move_message(plan, mem, descriptor);
}

// Makes the partner's alternative ready and waits: the scheduler interlock for ALT.
#[tactic(auto, unfolding(rules::specs::Channels::output_enabling))]
fn output_enabling(plan: &mut Plan, mem: &[u32], descriptor: u32)
    requires { Room 4 plan.old.log }
    ensures { (work_of plan.new ≡ channels.output_enabling mem.now descriptor (work_of plan.old)) × Grown 4 plan.old.log plan.new.log }
{
    w_index_word(&mut plan.log, mem, descriptor & WPTR_MASK, POINTER_S, READY);
    soft_wait(plan, mem);
}

// Makes the partner's alternative ready, waits, and runs the partner.
#[tactic(auto, unfolding(rules::specs::Channels::output_waiting))]
fn output_waiting(plan: &mut Plan, mem: &[u32], descriptor: u32)
    requires { Room 11 plan.old.log }
    ensures { (work_of plan.new ≡ channels.output_waiting mem.now descriptor (work_of plan.old)) × Grown 11 plan.old.log plan.new.log }
{
    output_enabling(plan, mem, descriptor);
    run(plan, mem, descriptor);
}

// Decides by the partner's Pointer.s: the state of an alternative, or the pointer of an input.
#[tactic(auto, using(plan::proofs::Decided::tests), unfolding(rules::specs::Channels::output_to))]
fn output_to(plan: &mut Plan, mem: &[u32], descriptor: u32, target: u32)
    requires { Room 11 plan.old.log × (count_of plan.old.log ≡ 0) }
    ensures { (work_of plan.new ≡ channels.output_to mem.now descriptor target (work_of plan.old)) × Ended 11 plan.old.log plan.new.log }
{
    match target {
        ENABLING => output_enabling(plan, mem, descriptor),
        WAITING => output_waiting(plan, mem, descriptor),
        READY => soft_wait(plan, mem),
        _ => output_message(plan, mem, descriptor, target),
    }
}

// Loads the partner's Pointer.s.
// Kept, point 2: ready_content serves a request in another way; each follows its own definition, cut at each IF (d).
#[tactic(auto, unfolding(rules::specs::Channels::output_ready))]
fn output_ready(plan: &mut Plan, mem: &[u32], descriptor: u32)
    requires { Room 11 plan.old.log × (count_of plan.old.log ≡ 0) }
    ensures { (work_of plan.new ≡ channels.output_ready mem.now descriptor (work_of plan.old)) × Ended 11 plan.old.log plan.new.log }
{
    let a = at_word(descriptor & WPTR_MASK, POINTER_S);
    let target = load_word(&mut plan.log, mem, a);
    output_to(plan, mem, descriptor, target);
}

// Waits where the channel word is NotProcess.p, else outputs to the partner.
#[tactic(auto, using(plan::proofs::Decided::tests), unfolding(rules::specs::Channels::soft_output))]
fn soft_output(plan: &mut Plan, mem: &[u32], descriptor: u32)
    requires { Room 11 plan.old.log × (count_of plan.old.log ≡ 0) }
    ensures { (work_of plan.new ≡ channels.soft_output mem.now descriptor (work_of plan.old)) × Ended 11 plan.old.log plan.new.log }
{
    if descriptor == NOT_PROCESS {
        soft_wait(plan, mem);
    } else {
        output_ready(plan, mem, descriptor);
    }
}

// Output (000 1.10), which is also output message (000 1.11).
#[tactic(auto, using(plan::proofs::Decided::tests), unfolding(rules::specs::Channels::output))]
pub fn output(plan: &mut Plan, mem: &[u32])
    requires { Room 11 plan.old.log × (count_of plan.old.log ≡ 0) }
    ensures { (work_of plan.new ≡ channels.output mem.now (work_of plan.old)) × Ended 11 plan.old.log plan.new.log }
{
    match Channel::new(index_of(plan.regs[BREG])) {
        Some(c) => hard_output(plan, mem, c),
        None => {
            let a = at_word(plan.regs[BREG], 0);
            let descriptor = load_word(&mut plan.log, mem, a);
            soft_output(plan, mem, descriptor);
        }
    }
}

// Stores A in local 0 and outputs count bytes from there (DECISIONS 42).
#[tactic(auto, unfolding(rules::specs::Channels::output_local, rules::specs::Work::put))]
fn output_local(plan: &mut Plan, mem: &[u32], count: u32)
    requires { Room 12 plan.old.log × (count_of plan.old.log ≡ 0) }
    ensures { (work_of plan.new ≡ channels.output_local mem.now count (work_of plan.old)) × Ended 12 plan.old.log plan.new.log }
{
    let wptr = plan.regs[WDESC_REG] & WPTR_MASK;
    w_index_word(&mut plan.log, mem, wptr, 0, plan.regs[AREG]);
    plan.regs[AREG] = count;
    plan.regs[CREG] = wptr;
    output(plan, mem);
}

pub fn outword(plan: &mut Plan, mem: &[u32])
    requires { Room 12 plan.old.log × (count_of plan.old.log ≡ 0) }
    ensures { (work_of plan.new ≡ channels.outword mem.now (work_of plan.old)) × Ended 12 plan.old.log plan.new.log }
{
    output_local(plan, mem, 4);
}

pub fn outbyte(plan: &mut Plan, mem: &[u32])
    requires { Room 12 plan.old.log × (count_of plan.old.log ≡ 0) }
    ensures { (work_of plan.new ≡ channels.outbyte mem.now (work_of plan.old)) × Ended 12 plan.old.log plan.new.log }
{
    output_local(plan, mem, 1);
}
