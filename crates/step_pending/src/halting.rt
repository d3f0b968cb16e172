// When a step halts the machine (01, One step; DECISIONS 18).
ghost use Rattle.std.specs.Prelude.{◌≡◌};
ghost use Rattle.rules.specs.Step as step;
ghost use Rattle.plan.specs.View.{view};
ghost use Rattle.plan.specs.declared.Log.{Log};

use rules::REGISTERS;
use rules::names::*;

// Halts the machine where HaltOnError is set.
#[tactic(auto, using(plan::proofs::Decided::tests), unfolding(rules::specs::Step::halt_if_asked))]
fn halt_if_asked(regs: &mut [u32; REGISTERS])
    ensures { (log : Log) → view regs.new log ≡ step.halt_if_asked (view regs.old log) }
{
    if regs[STATUS_REG] & HALT_ON_ERROR_BIT != 0 {
        plan::raise(regs, FLAGS_REG, HALTED_FLAG);
    }
}

// Halts the machine where the step has set the error flag and HaltOnError is set. before is Status before the step.
#[tactic(auto, using(plan::proofs::Decided::tests), unfolding(rules::specs::Step::halt_on_error))]
pub fn halt_on_error(regs: &mut [u32; REGISTERS], before: u32)
    ensures { (log : Log) → view regs.new log ≡ step.halt_on_error before (view regs.old log) }
{
    if before & ERROR_FLAG == 0 && regs[STATUS_REG] & ERROR_FLAG != 0 {
        halt_if_asked(regs);
    }
}
