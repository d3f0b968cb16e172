// Evaluation stack, Wptr and Iptr of a plan, as the operations that load and store change them (000 1.11; rules/specs/Data.antt).
ghost use Rattle.std.specs.Prelude.{◌≡◌, List, ℕ};
ghost use Rattle.plan.specs.View.{view};
ghost use Rattle.plan.specs.declared.Log.{Log};
ghost use Rattle.rules.specs.Data as dataRules;

use rules::REGISTERS;
use rules::names::*;
use words::{at_byte, at_word};

// Pushes the stack: B to C, A to B. The caller writes A.
// Kept, point 2: popped moves the other way, by other registers; each follows its own definition (d).
pub fn pushed(regs: &mut [u32; REGISTERS])
    ensures { (log : Log) → view regs.new log ≡ dataRules.pushed (view regs.old log) }
{
    let a = regs[AREG];
    regs[CREG] = regs[BREG];
    regs[BREG] = a;
}

// Pops the stack: B to A, C to B.
pub fn popped(regs: &mut [u32; REGISTERS])
    ensures { (log : Log) → view regs.new log ≡ dataRules.popped (view regs.old log) }
{
    let c = regs[CREG];
    regs[AREG] = regs[BREG];
    regs[BREG] = c;
}

// Moves Wptr by n words and ORs the priority in (DECISIONS 12).
pub fn adjusted(regs: &mut [u32; REGISTERS], n: u32)
    ensures { (log : Log) → view regs.new log ≡ dataRules.adjusted n (view regs.old log) }
{
    let wptr = at_word(regs[WDESC_REG] & WPTR_MASK, n);
    regs[WDESC_REG] = wptr | (regs[WDESC_REG] & PRIORITY_MASK);
}

// Leaves A, B and C as a move of n bytes does: A is 0, B and C are n bytes further (DECISIONS 14).
pub fn move_done(regs: &mut [u32; REGISTERS], n: u32)
    ensures { (log : Log) → view regs.new log ≡ dataRules.move_done n (view regs.old log) }
{
    let destination = at_byte(regs[BREG], n);
    let source = at_byte(regs[CREG], n);
    regs[CREG] = source;
    regs[BREG] = destination;
    regs[AREG] = 0;
}

// Moves Iptr by n bytes.
pub fn jump_by(regs: &mut [u32; REGISTERS], n: u32)
    ensures { (log : Log) → view regs.new log ≡ dataRules.jump_by n (view regs.old log) }
{
    regs[IPTR_REG] = at_byte(regs[IPTR_REG], n);
}
