// Loop end (000 1.11). B points at two words, index and count; A is the length of the loop in bytes. Sums wrap before the test, and TimeSlice
// stands after both branches (01, One step; DECISIONS 41).
ghost use Rattle.std.specs.Prelude.{◌≡◌, ◌-◌};
ghost use Rattle.rules.specs.Words.{range, at_byte};
ghost use Rattle.plan.specs.View.{work_of, Room, Grown};
ghost use Rattle.rules.specs.Scheduling as scheduling;

use crate::slices::time_slice;
use memory::store::{r_index_word, w_index_word};
use plan::Plan;
use rules::names::*;
use scheduling::flags::add_to_c;
use words::positive;

// Subtracts n bytes from an address, wrapping.
fn back_by(base: u32, n: u32) -> u32
    ensures { result ≡ at_byte base (range - n) }
{
    base.wrapping_sub(n)
}

// Stores the index and moves Iptr back by A bytes.
#[tactic(auto, unfolding(rules::specs::Scheduling::loop_back, rules::specs::Work::put))]
fn loop_back(plan: &mut Plan, mem: &[u32])
    requires { Room 1 plan.old.log }
    ensures { (work_of plan.new ≡ scheduling.loop_back mem.now (work_of plan.old)) × Grown 1 plan.old.log plan.new.log }
{
    let iptr = back_by(plan.regs[IPTR_REG], plan.regs[AREG]);
    w_index_word(&mut plan.log, mem, plan.regs[BREG], 0, plan.regs[CREG]);
    plan.regs[IPTR_REG] = iptr;
}

// Loads the index into C and adds 1.
// Kept, point 2: count_down counts the other way; each follows its own definition (d).
#[tactic(auto, unfolding(rules::specs::Scheduling::count_up))]
fn count_up(plan: &mut Plan, mem: &[u32])
    requires { Room 0 plan.old.log }
    ensures { (work_of plan.new ≡ scheduling.count_up mem.now (work_of plan.old)) × Grown 0 plan.old.log plan.new.log }
{
    let b = plan.regs[BREG];
    r_index_word(plan, mem, b, 0, CREG);
    add_to_c(&mut plan.regs, 1);
}

// Repeats the loop where the count in C is above 0.
#[tactic(auto, unfolding(rules::specs::Scheduling::loop_on))]
fn loop_on(plan: &mut Plan, mem: &[u32])
    requires { Room 1 plan.old.log }
    ensures { (work_of plan.new ≡ scheduling.loop_on mem.now (work_of plan.old)) × Grown 1 plan.old.log plan.new.log }
{
    if positive(plan.regs[CREG]) {
        count_up(plan, mem);
        loop_back(plan, mem);
    }
}

// Loads the count into C and subtracts 1.
#[tactic(auto, unfolding(rules::specs::Scheduling::count_down))]
fn count_down(plan: &mut Plan, mem: &[u32])
    requires { Room 0 plan.old.log }
    ensures { (work_of plan.new ≡ scheduling.count_down mem.now (work_of plan.old)) × Grown 0 plan.old.log plan.new.log }
{
    let b = plan.regs[BREG];
    r_index_word(plan, mem, b, 1, CREG);
    add_to_c(&mut plan.regs, MINUS_ONE);
}

#[tactic(auto, unfolding(rules::specs::Scheduling::store_count))]
fn store_count(plan: &mut Plan, mem: &[u32])
    requires { Room 1 plan.old.log }
    ensures { (work_of plan.new ≡ scheduling.store_count mem.now (work_of plan.old)) × Grown 1 plan.old.log plan.new.log × (plan.new.regs ≡ plan.old.regs) }
{
    w_index_word(&mut plan.log, mem, plan.regs[BREG], 1, plan.regs[CREG]);
}

// Counts a loop down and repeats it, then TimeSlice (000 1.11, loop end).
#[tactic(auto, unfolding(rules::specs::Scheduling::lend))]
pub fn lend(plan: &mut Plan, mem: &[u32])
    requires { Room 10 plan.old.log }
    ensures { (work_of plan.new ≡ scheduling.lend mem.now (work_of plan.old)) × Grown 10 plan.old.log plan.new.log }
{
    count_down(plan, mem);
    store_count(plan, mem);
    loop_on(plan, mem);
    time_slice(plan, mem);
}
