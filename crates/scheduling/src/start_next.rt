// StartNextProcess (000 1.10).
ghost use Rattle.std.specs.Prelude.{◌≡◌};
ghost use Rattle.plan.specs.Level.{number};
ghost use Rattle.plan.specs.View.{work_of, Room, Grown};
ghost use Rattle.rules.specs.Scheduling as scheduling;

use crate::flags::set_idle;
use crate::queues::{activate_process, dequeue};
use crate::save_area::restore_registers;
use plan::level::Level;
use plan::{Plan, lower};
use rules::names::*;

// Dequeues and activates the front process of a queue.
#[tactic(auto, unfolding(rules::specs::Scheduling::start_queued))]
fn start_queued(plan: &mut Plan, mem: &[u32], level: Level)
    requires { Room 0 plan.old.log }
    ensures { (work_of plan.new ≡ scheduling.start_queued mem.now (number level) (work_of plan.old)) × Grown 0 plan.old.log plan.new.log }
{
    dequeue(plan, mem, level);
    activate_process(plan, mem);
}

// Starts the front of the low queue, else sets idle.
// Kept, point 2: next_low tests and goes on in another way; each follows its own definition, cut at each IF (d).
#[tactic(auto, using(plan::proofs::Decided::tests), unfolding(rules::specs::Scheduling::start_low))]
fn start_low(plan: &mut Plan, mem: &[u32])
    requires { Room 0 plan.old.log }
    ensures { (work_of plan.new ≡ scheduling.start_low mem.now (work_of plan.old)) × Grown 0 plan.old.log plan.new.log }
{
    if plan.regs[FPTR_REG_LOW] == NOT_PROCESS {
        set_idle(&mut plan.regs);
    } else {
        start_queued(plan, mem, Level::Low);
    }
}

// Resumes the process that RestoreRegisters brought back, or starts a low process where none was interrupted.
#[tactic(auto, using(plan::proofs::Decided::tests), unfolding(rules::specs::Scheduling::resume_or_start))]
fn resume_or_start(plan: &mut Plan, mem: &[u32])
    requires { Room 0 plan.old.log }
    ensures { (work_of plan.new ≡ scheduling.resume_or_start mem.now (work_of plan.old)) × Grown 0 plan.old.log plan.new.log }
{
    if plan.regs[WDESC_REG] & WPTR_MASK == NOT_PROCESS {
        start_low(plan, mem);
    }
}

// Starts the front of the high queue, else resumes the interrupted process or starts a low one.
#[tactic(auto, using(plan::proofs::Decided::tests), unfolding(rules::specs::Scheduling::next_high))]
fn next_high(plan: &mut Plan, mem: &[u32])
    requires { Room 0 plan.old.log }
    ensures { (work_of plan.new ≡ scheduling.next_high mem.now (work_of plan.old)) × Grown 0 plan.old.log plan.new.log }
{
    if plan.regs[FPTR_REG_HIGH] == NOT_PROCESS {
        restore_registers(plan, mem);
        resume_or_start(plan, mem);
    } else {
        start_queued(plan, mem, Level::High);
    }
}

// Starts the front of the low queue, else leaves no process in Wdesc and sets idle.
#[tactic(auto, using(plan::proofs::Decided::tests), unfolding(rules::specs::Scheduling::next_low, rules::specs::Work::put))]
fn next_low(plan: &mut Plan, mem: &[u32])
    requires { Room 0 plan.old.log }
    ensures { (work_of plan.new ≡ scheduling.next_low mem.now (work_of plan.old)) × Grown 0 plan.old.log plan.new.log }
{
    if plan.regs[FPTR_REG_LOW] == NOT_PROCESS {
        plan.regs[WDESC_REG] = NO_LOW_PROCESS;
        set_idle(&mut plan.regs);
    } else {
        start_queued(plan, mem, Level::Low);
    }
}

// Starts the next process by the priority of the machine.
// Kept, point 1: a test of bit 0 of a descriptor, as 000 makes it; a Level would be made and matched for the one test (d).
#[tactic(auto, using(plan::proofs::Decided::tests), unfolding(rules::specs::Scheduling::next_process))]
fn next_process(plan: &mut Plan, mem: &[u32])
    requires { Room 0 plan.old.log }
    ensures { (work_of plan.new ≡ scheduling.next_process mem.now (work_of plan.old)) × Grown 0 plan.old.log plan.new.log }
{
    if plan.regs[WDESC_REG] & PRIORITY_MASK == 0 {
        next_high(plan, mem);
    } else {
        next_low(plan, mem);
    }
}

// StartNextProcess (000 1.10): clears GotoSNPBit and starts the next process.
#[tactic(auto, unfolding(rules::specs::Scheduling::start_next_process))]
pub fn start_next_process(plan: &mut Plan, mem: &[u32])
    requires { Room 0 plan.old.log }
    ensures { (work_of plan.new ≡ scheduling.start_next_process mem.now (work_of plan.old)) × Grown 0 plan.old.log plan.new.log }
{
    lower(&mut plan.regs, STATUS_REG, GOTO_SNP_BIT);
    next_process(plan, mem);
}

// Acts on a set GotoSNPBit, once in a step (01, One step).
// Kept, point 2: stoperr tests another bit and goes on in another way; each is a test of its own definition (d).
#[tactic(auto, using(plan::proofs::Decided::tests), unfolding(rules::specs::Scheduling::act_on_snp))]
pub fn act_on_snp(plan: &mut Plan, mem: &[u32])
    requires { Room 0 plan.old.log }
    ensures { (work_of plan.new ≡ scheduling.act_on_snp mem.now (work_of plan.old)) × Grown 0 plan.old.log plan.new.log }
{
    if plan.regs[STATUS_REG] & GOTO_SNP_BIT != 0 {
        start_next_process(plan, mem);
    }
}
