// Scheduling in registers alone: the idle flag, the slice, Status, Creg.
ghost use Rattle.std.specs.Prelude.{◌≡◌};
ghost use Rattle.plan.specs.View.{view};
ghost use Rattle.plan.specs.declared.Log.{Log};
ghost use Rattle.rules.specs.Scheduling as scheduling;

use plan::{lower, raise};
use rules::REGISTERS;
use rules::names::*;
use words::wrap_add;

// Sets idle where 000 finds no process to start or resume (01, One step; DECISIONS 19).
#[tactic(auto, unfolding(rules::specs::Scheduling::set_idle))]
pub fn set_idle(regs: &mut [u32; REGISTERS])
    ensures { (log : Log) → view regs.new log ≡ scheduling.set_idle (view regs.old log) }
{
    raise(regs, FLAGS_REG, IDLE_FLAG);
}

// Clears idle where a process starts or resumes (01, One step).
#[tactic(auto, unfolding(rules::specs::Scheduling::clear_idle))]
pub fn clear_idle(regs: &mut [u32; REGISTERS])
    ensures { (log : Log) → view regs.new log ≡ scheduling.clear_idle (view regs.old log) }
{
    lower(regs, FLAGS_REG, IDLE_FLAG);
}

// Starts a slice for a process taken from the low queue (01, Links, clocks, slice). It holds for any number, and so takes one.
#[tactic(auto, using(plan::proofs::Decided::tests), unfolding(rules::specs::Scheduling::start_slice, rules::specs::Work::put))]
pub fn start_slice(regs: &mut [u32; REGISTERS], level: usize)
    ensures { (log : Log) → view regs.new log ≡ scheduling.start_slice level (view regs.old log) }
{
    if level != 0 {
        regs[SLICE_REG] = 0;
    }
}

// Clears idle after RestoreRegisters, unless no process was restored (DECISIONS 19).
#[tactic(auto, using(plan::proofs::Decided::tests), unfolding(rules::specs::Scheduling::resumed))]
pub fn resumed(regs: &mut [u32; REGISTERS])
    ensures { (log : Log) → view regs.new log ≡ scheduling.resumed (view regs.old log) }
{
    if regs[WDESC_REG] & WPTR_MASK != NOT_PROCESS {
        clear_idle(regs);
    }
}

// Keeps only the bits of Status that an interrupt keeps (000 1.10, Run; DECISIONS 20).
#[tactic(auto, unfolding(rules::specs::Scheduling::mask_status, rules::specs::Work::put))]
pub fn mask_status(regs: &mut [u32; REGISTERS])
    ensures { (log : Log) → view regs.new log ≡ scheduling.mask_status (view regs.old log) }
{
    regs[STATUS_REG] = regs[STATUS_REG] & KEPT_STATUS;
}

// Adds n to C, wrapping (000 1.11, loop end).
#[tactic(auto, unfolding(rules::specs::Scheduling::add_to_c, rules::specs::Work::put))]
pub fn add_to_c(regs: &mut [u32; REGISTERS], n: u32)
    ensures { (log : Log) → view regs.new log ≡ scheduling.add_to_c n (view regs.old log) }
{
    let c = wrap_add(regs[CREG], n);
    regs[CREG] = c;
}
