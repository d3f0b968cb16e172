// The save area (000 1.8): an interrupt saves the registers of the low process, StartNextProcess restores them.
ghost use Rattle.std.specs.Prelude.{◌≡◌, List, ℕ, ◌<◌};
ghost use Rattle.plan.specs.View.{work_of, view, Room, Grown};
ghost use Rattle.rules.specs.Scheduling as scheduling;
ghost use Rattle.rules.specs.Registers as registers;

use crate::flags::resumed;
use memory::store::{r_index_word, w_index_word};
use plan::{Log, Plan};
use rules::names::*;

// Stores register k in a word of the save area.
#[tactic(auto, unfolding(rules::specs::Scheduling::save))]
fn save(plan: &mut Plan, mem: &[u32], place: u32, k: usize)
    requires { (k < registers.registers) × Room 1 plan.old.log }
    ensures { (work_of plan.new ≡ scheduling.save mem.now place k (work_of plan.old)) × Grown 1 plan.old.log plan.new.log × (plan.new.regs ≡ plan.old.regs) }
{
    w_index_word(&mut plan.log, mem, SAVE_BASE, place, plan.regs[k]);
}

// Saves Iptr, A, B, C and Status, if there is a low process.
// Kept, point 2: 000 1.8 lists the same five in two procedures; a loop over pairs says no less, and its proof unrolls the five again.
#[tactic(auto, using(plan::proofs::Decided::tests), unfolding(rules::specs::Scheduling::save_rest))]
fn save_rest(plan: &mut Plan, mem: &[u32])
    requires { Room 5 plan.old.log }
    ensures { (work_of plan.new ≡ scheduling.save_rest mem.now (work_of plan.old)) × Grown 5 plan.old.log plan.new.log × (plan.new.regs ≡ plan.old.regs) }
{
    if plan.regs[WDESC_REG] != NO_LOW_PROCESS {
        save(plan, mem, IPTR_INT_SAVE, IPTR_REG);
        save(plan, mem, AREG_INT_SAVE, AREG);
        save(plan, mem, BREG_INT_SAVE, BREG);
        save(plan, mem, CREG_INT_SAVE, CREG);
        save(plan, mem, STATUS_INT_SAVE, STATUS_REG);
    }
}

// Stores 0 for E, which is no register here, where MoveBit is set (DECISIONS 21).
#[tactic(auto, using(plan::proofs::Decided::tests), unfolding(rules::specs::Scheduling::save_ereg))]
fn save_ereg(log: &mut Log, mem: &[u32], status: u32)
    requires { Room 1 log.old }
    ensures { ((regs : List ℕ) → view regs log.new ≡ scheduling.save_ereg mem.now status (view regs log.old)) × Grown 1 log.old log.new }
{
    if status & MOVE_BIT != 0 {
        w_index_word(log, mem, SAVE_BASE, EREG_INT_SAVE, 0);
    }
}

// SaveRegisters (000 1.8): saves the registers; MoveBit of status decides whether E is saved.
#[tactic(auto, unfolding(rules::specs::Scheduling::save_registers))]
pub fn save_registers(plan: &mut Plan, mem: &[u32], status: u32)
    requires { Room 7 plan.old.log }
    ensures { (work_of plan.new ≡ scheduling.save_registers mem.now status (work_of plan.old)) × Grown 7 plan.old.log plan.new.log × (plan.new.regs ≡ plan.old.regs) }
{
    save(plan, mem, WDESC_INT_SAVE, WDESC_REG);
    save_rest(plan, mem);
    save_ereg(&mut plan.log, mem, status);
}

// Loads register k from a word of the save area.
#[tactic(auto, unfolding(rules::specs::Scheduling::restore))]
fn restore(plan: &mut Plan, mem: &[u32], place: u32, k: usize)
    requires { (k < registers.registers) × Room 0 plan.old.log }
    ensures { (work_of plan.new ≡ scheduling.restore mem.now place k (work_of plan.old)) × Grown 0 plan.old.log plan.new.log }
{
    r_index_word(plan, mem, SAVE_BASE, place, k);
}

// Restores Iptr, A, B, C and Status, if a low process was saved (DECISIONS 22).
#[tactic(auto, using(plan::proofs::Decided::tests), unfolding(rules::specs::Scheduling::restore_rest))]
fn restore_rest(plan: &mut Plan, mem: &[u32])
    requires { Room 0 plan.old.log }
    ensures { (work_of plan.new ≡ scheduling.restore_rest mem.now (work_of plan.old)) × Grown 0 plan.old.log plan.new.log }
{
    if plan.regs[WDESC_REG] != NO_LOW_PROCESS {
        restore(plan, mem, IPTR_INT_SAVE, IPTR_REG);
        restore(plan, mem, AREG_INT_SAVE, AREG);
        restore(plan, mem, BREG_INT_SAVE, BREG);
        restore(plan, mem, CREG_INT_SAVE, CREG);
        restore(plan, mem, STATUS_INT_SAVE, STATUS_REG);
    }
}

// RestoreRegisters (000 1.8): restores the registers, and clears idle where a process resumes. E is not read.
#[tactic(auto, unfolding(rules::specs::Scheduling::restore_registers))]
pub fn restore_registers(plan: &mut Plan, mem: &[u32])
    requires { Room 0 plan.old.log }
    ensures { (work_of plan.new ≡ scheduling.restore_registers mem.now (work_of plan.old)) × Grown 0 plan.old.log plan.new.log }
{
    restore(plan, mem, WDESC_INT_SAVE, WDESC_REG);
    restore_rest(plan, mem);
    resumed(&mut plan.regs);
}
