// Run queues (000 1.10). fptr and bptr are the registers that hold the front and the back of a queue.
ghost use Rattle.std.specs.Prelude.{◌≡◌, ◌<◌};
ghost use Rattle.plan.specs.Level.{number};
ghost use Rattle.plan.specs.View.{work_of, Room, Grown};
ghost use Rattle.rules.specs.Scheduling as scheduling;
ghost use Rattle.rules.specs.Registers as registers;

use crate::flags::{clear_idle, start_slice};
use memory::store::{r_index_word, w_index_word};
use plan::Plan;
use plan::level::Level;
use rules::names::*;

// Makes the process the front of an empty queue, else links the process behind the back.
#[tactic(auto, using(plan::proofs::Decided::tests), unfolding(rules::specs::Scheduling::link_behind, rules::specs::Work::put))]
fn link_behind(plan: &mut Plan, mem: &[u32], process: u32, fptr: usize, bptr: usize)
    requires { (fptr < registers.registers) × (bptr < registers.registers) × Room 1 plan.old.log }
    ensures { (work_of plan.new ≡ scheduling.link_behind mem.now process fptr bptr (work_of plan.old)) × Grown 1 plan.old.log plan.new.log }
{
    if plan.regs[fptr] == NOT_PROCESS {
        plan.regs[fptr] = process;
    } else {
        w_index_word(&mut plan.log, mem, plan.regs[bptr], LINK_S, process);
    }
}

// Enqueue (000 1.10): adds the process at the back of a queue.
// Kept, point 5: front and back are two registers by number; docs/INDEX.md names this function, and it holds for any two (a).
#[tactic(auto, unfolding(rules::specs::Scheduling::enqueue, rules::specs::Work::put))]
pub fn enqueue(plan: &mut Plan, mem: &[u32], process: u32, fptr: usize, bptr: usize)
    requires { (fptr < registers.registers) × (bptr < registers.registers) × Room 1 plan.old.log }
    ensures { (work_of plan.new ≡ scheduling.enqueue mem.now process fptr bptr (work_of plan.old)) × Grown 1 plan.old.log plan.new.log }
{
    link_behind(plan, mem, process, fptr, bptr);
    plan.regs[bptr] = process;
}

// Advances the front to the next process, or empties the queue where front and back are one process.
#[tactic(auto, using(plan::proofs::Decided::tests), unfolding(rules::specs::Scheduling::unlink_front, rules::specs::Work::put))]
fn unlink_front(plan: &mut Plan, mem: &[u32], level: Level)
    requires { Room 0 plan.old.log }
    ensures { (work_of plan.new ≡ scheduling.unlink_front mem.now (number level) (work_of plan.old)) × Grown 0 plan.old.log plan.new.log }
{
    let front = plan.regs[level.front()];
    if front == plan.regs[level.back()] {
        plan.regs[level.front()] = NOT_PROCESS;
    } else {
        r_index_word(plan, mem, front, LINK_S, level.front());
    }
}

// Dequeue (000 1.10): takes the front process of a queue into Wdesc. A process of the low queue starts its slice (DECISIONS 24).
#[tactic(auto, unfolding(rules::specs::Scheduling::dequeue, rules::specs::Work::put))]
pub fn dequeue(plan: &mut Plan, mem: &[u32], level: Level)
    requires { Room 0 plan.old.log }
    ensures { (work_of plan.new ≡ scheduling.dequeue mem.now (number level) (work_of plan.old)) × Grown 0 plan.old.log plan.new.log }
{
    let wdesc = plan.regs[level.front()] | level.number();
    plan.regs[WDESC_REG] = wdesc;
    start_slice(&mut plan.regs, level.number() as usize);
    unlink_front(plan, mem, level);
}

// ActivateProcess (000 1.10): clears idle (DECISIONS 19) and Oreg, and loads Iptr from the workspace.
#[tactic(auto, unfolding(rules::specs::Scheduling::activate_process, rules::specs::Work::put))]
pub fn activate_process(plan: &mut Plan, mem: &[u32])
    requires { Room 0 plan.old.log }
    ensures { (work_of plan.new ≡ scheduling.activate_process mem.now (work_of plan.old)) × Grown 0 plan.old.log plan.new.log }
{
    let wptr = plan.regs[WDESC_REG] & WPTR_MASK;
    clear_idle(&mut plan.regs);
    plan.regs[OREG] = 0;
    r_index_word(plan, mem, wptr, IPTR_S, IPTR_REG);
}
