// TimeSlice (000 1.9; 01, Links, clocks, slice; DECISIONS 24), and jump, which ends with TimeSlice.
ghost use Rattle.std.specs.Prelude.{◌≡◌};
ghost use Rattle.plan.specs.View.{work_of, Room, Grown};
ghost use Rattle.rules.specs.Scheduling as scheduling;

use plan::{Plan, goto_snp};
use rules::names::*;
use scheduling::running::run;
use scheduling::stopping::save_iptr;
use words::at_byte;

// Ends the slice (000 1.9): saves Iptr, calls Run on the process and sets GotoSNPBit.
#[tactic(auto, unfolding(rules::specs::Scheduling::slice_out))]
fn slice_out(plan: &mut Plan, mem: &[u32])
    requires { Room 8 plan.old.log }
    ensures { (work_of plan.new ≡ scheduling.slice_out mem.now (work_of plan.old)) × Grown 8 plan.old.log plan.new.log }
{
    let wdesc = plan.regs[WDESC_REG];
    save_iptr(plan, mem);
    run(plan, mem, wdesc);
    goto_snp(&mut plan.regs);
}

// Ends a slice of 1,024 ticks or more.
#[tactic(auto, using(plan::proofs::Decided::tests), unfolding(rules::specs::Scheduling::slice_if_long))]
fn slice_if_long(plan: &mut Plan, mem: &[u32])
    requires { Room 8 plan.old.log }
    ensures { (work_of plan.new ≡ scheduling.slice_if_long mem.now (work_of plan.old)) × Grown 8 plan.old.log plan.new.log }
{
    if SLICE_LENGTH <= plan.regs[SLICE_REG] {
        slice_out(plan, mem);
    }
}

// Ends a slice only while the clocks run.
// Kept, point 2: time_slice is the IF around this one; each is a test of its own definition (d).
#[tactic(auto, using(plan::proofs::Decided::tests), unfolding(rules::specs::Scheduling::slice_if_running))]
fn slice_if_running(plan: &mut Plan, mem: &[u32])
    requires { Room 8 plan.old.log }
    ensures { (work_of plan.new ≡ scheduling.slice_if_running mem.now (work_of plan.old)) × Grown 8 plan.old.log plan.new.log }
{
    if plan.regs[FLAGS_REG] & CLOCKS_RUN != 0 {
        slice_if_long(plan, mem);
    }
}

// TimeSlice (000 1.9): ends the slice of a low process that has run for long enough.
#[tactic(auto, using(plan::proofs::Decided::tests), unfolding(rules::specs::Scheduling::time_slice))]
pub fn time_slice(plan: &mut Plan, mem: &[u32])
    requires { Room 8 plan.old.log }
    ensures { (work_of plan.new ≡ scheduling.time_slice mem.now (work_of plan.old)) × Grown 8 plan.old.log plan.new.log }
{
    if plan.regs[WDESC_REG] & PRIORITY_MASK != 0 {
        slice_if_running(plan, mem);
    }
}

// Jumps by Oreg, then TimeSlice (000 1.11, jump).
#[tactic(auto, unfolding(rules::specs::Scheduling::j, rules::specs::Work::put))]
pub fn j(plan: &mut Plan, mem: &[u32])
    requires { Room 8 plan.old.log }
    ensures { (work_of plan.new ≡ scheduling.j mem.now (work_of plan.old)) × Grown 8 plan.old.log plan.new.log }
{
    let iptr = at_byte(plan.regs[IPTR_REG], plan.regs[OREG]);
    plan.regs[IPTR_REG] = iptr;
    time_slice(plan, mem);
}
