// Call, return and alt end (000 1.11).
ghost use Rattle.std.specs.Prelude.{◌≡◌};
ghost use Rattle.plan.specs.View.{work_of, view, Room, Grown};
ghost use Rattle.plan.specs.declared.Log.{Log};
ghost use Rattle.rules.specs.Data as dataRules;

use memory::loads::load_word;
use memory::store::{r_index_word, w_index_word};
use plan::Plan;
use plan::operands::{adjusted, jump_by};
use rules::REGISTERS;
use rules::names::*;
use words::at_word;

// The words of a call frame, counted from the caller's Wptr.
const IPTR_PLACE: u32 = 0xFFFF_FFFC;

const AREG_PLACE: u32 = 0xFFFF_FFFD;

const BREG_PLACE: u32 = 0xFFFF_FFFE;

const CREG_PLACE: u32 = 0xFFFF_FFFF;

// The length of a call frame in words, and its negative.
const FRAME_WORDS: u32 = 4;

const MINUS_FRAME: u32 = 0xFFFF_FFFC;

// Stores the call frame: C, B, A, then Iptr.
#[tactic(auto, unfolding(rules::specs::Data::call_frame))]
fn call_frame(plan: &mut Plan, mem: &[u32])
    requires { Room 4 plan.old.log }
    ensures { (work_of plan.new ≡ dataRules.call_frame mem.now (work_of plan.old)) × Grown 4 plan.old.log plan.new.log × (plan.new.regs ≡ plan.old.regs) }
{
    let wptr = plan.regs[WDESC_REG] & WPTR_MASK;
    w_index_word(&mut plan.log, mem, wptr, CREG_PLACE, plan.regs[CREG]);
    w_index_word(&mut plan.log, mem, wptr, BREG_PLACE, plan.regs[BREG]);
    w_index_word(&mut plan.log, mem, wptr, AREG_PLACE, plan.regs[AREG]);
    w_index_word(&mut plan.log, mem, wptr, IPTR_PLACE, plan.regs[IPTR_REG]);
}

// Copies the return address to A, moves Wptr below the frame and jumps by Oreg.
#[tactic(auto, unfolding(rules::specs::Data::entered, rules::specs::Work::put))]
fn entered(regs: &mut [u32; REGISTERS])
    ensures { (log : Log) → view regs.new log ≡ dataRules.entered (view regs.old log) }
{
    let n = regs[OREG];
    regs[AREG] = regs[IPTR_REG];
    adjusted(regs, MINUS_FRAME);
    jump_by(regs, n);
}

// Stores the call frame and enters the procedure (000 1.11, call).
#[tactic(auto, unfolding(rules::specs::Data::call))]
pub fn call(plan: &mut Plan, mem: &[u32])
    requires { Room 4 plan.old.log }
    ensures { (work_of plan.new ≡ dataRules.call mem.now (work_of plan.old)) × Grown 4 plan.old.log plan.new.log }
{
    call_frame(plan, mem);
    entered(&mut plan.regs);
}

// Loads Iptr from the frame and moves Wptr above the frame (000 1.11, return).
#[tactic(auto, unfolding(rules::specs::Data::ret))]
pub fn ret(plan: &mut Plan, mem: &[u32])
    requires { Room 0 plan.old.log }
    ensures { (work_of plan.new ≡ dataRules.ret mem.now (work_of plan.old)) × Grown 0 plan.old.log plan.new.log }
{
    let wptr = plan.regs[WDESC_REG] & WPTR_MASK;
    r_index_word(plan, mem, wptr, 0, IPTR_REG);
    adjusted(&mut plan.regs, FRAME_WORDS);
}

// Jumps by the offset in local 0, which is that of the selected guard (000 1.11, alt end).
#[tactic(auto, unfolding(rules::specs::Data::altend))]
pub fn altend(plan: &mut Plan, mem: &[u32])
    requires { Room 0 plan.old.log }
    ensures { (work_of plan.new ≡ dataRules.altend mem.now (work_of plan.old)) × Grown 0 plan.old.log plan.new.log }
{
    let a = at_word(plan.regs[WDESC_REG] & WPTR_MASK, 0);
    let n = load_word(&mut plan.log, mem, a);
    jump_by(&mut plan.regs, n);
}
