// Run (000 1.10).
ghost use Rattle.std.specs.Prelude.{◌≡◌};
ghost use Rattle.plan.specs.View.{work_of, Room, Grown};
ghost use Rattle.rules.specs.Scheduling as scheduling;

use crate::flags::mask_status;
use crate::queues::{activate_process, enqueue};
use crate::save_area::save_registers;
use plan::Plan;
use plan::level::Level;
use rules::names::*;

// Interrupts the low process: saves its registers and starts the high process.
#[tactic(auto, unfolding(rules::specs::Scheduling::interrupt, rules::specs::Work::put))]
fn interrupt(plan: &mut Plan, mem: &[u32], descriptor: u32)
    requires { Room 7 plan.old.log }
    ensures { (work_of plan.new ≡ scheduling.interrupt mem.now descriptor (work_of plan.old)) × Grown 7 plan.old.log plan.new.log }
{
    let status = plan.regs[STATUS_REG];
    save_registers(plan, mem, status);
    plan.regs[WDESC_REG] = descriptor;
    mask_status(&mut plan.regs);
    activate_process(plan, mem);
}

// Starts the low process where no process runs, else enqueues the process.
#[tactic(auto, using(plan::proofs::Decided::tests), unfolding(rules::specs::Scheduling::run_low, rules::specs::Work::put))]
fn run_low(plan: &mut Plan, mem: &[u32], descriptor: u32)
    requires { Room 1 plan.old.log }
    ensures { (work_of plan.new ≡ scheduling.run_low mem.now descriptor (work_of plan.old)) × Grown 1 plan.old.log plan.new.log }
{
    if plan.regs[WDESC_REG] & WPTR_MASK == NOT_PROCESS {
        plan.regs[WDESC_REG] = descriptor;
        activate_process(plan, mem);
    } else {
        enqueue(
            plan,
            mem,
            descriptor & WPTR_MASK,
            FPTR_REG_LOW,
            BPTR_REG_LOW,
        );
    }
}

// Runs a process while the machine is at low priority: a high process interrupts.
// Kept, point 1: a test of bit 0 of a descriptor, as 000 makes it; a Level would be made and matched for the one test (d).
#[tactic(auto, using(plan::proofs::Decided::tests), unfolding(rules::specs::Scheduling::run_over_low))]
fn run_over_low(plan: &mut Plan, mem: &[u32], descriptor: u32)
    requires { Room 7 plan.old.log }
    ensures { (work_of plan.new ≡ scheduling.run_over_low mem.now descriptor (work_of plan.old)) × Grown 7 plan.old.log plan.new.log }
{
    if descriptor & PRIORITY_MASK == 0 {
        interrupt(plan, mem, descriptor);
    } else {
        run_low(plan, mem, descriptor);
    }
}

// Run (000 1.10): enqueues the process while the machine is at high priority, else starts or enqueues the process by its own priority.
// Kept, point 1: a test of bit 0 of a descriptor, as 000 makes it; a Level would be made and matched for the one test (d).
#[tactic(auto, using(plan::proofs::Decided::tests), unfolding(rules::specs::Scheduling::run))]
pub fn run(plan: &mut Plan, mem: &[u32], descriptor: u32)
    requires { Room 7 plan.old.log }
    ensures { (work_of plan.new ≡ scheduling.run mem.now descriptor (work_of plan.old)) × Grown 7 plan.old.log plan.new.log }
{
    if plan.regs[WDESC_REG] & PRIORITY_MASK == 0 {
        let level = Level::of(descriptor);
        enqueue(
            plan,
            mem,
            descriptor & WPTR_MASK,
            level.front(),
            level.back(),
        );
    } else {
        run_over_low(plan, mem, descriptor);
    }
}
