// End process (000 1.11). A points at two words: the Iptr with which the last process goes on, and the count of processes that have not ended.
ghost use Rattle.std.specs.Prelude.{◌≡◌};
ghost use Rattle.plan.specs.View.{work_of, Room, Grown};
ghost use Rattle.rules.specs.Scheduling as scheduling;

use memory::loads::load_word;
use memory::store::{r_index_word, w_index_word};
use plan::{Plan, goto_snp};
use rules::names::*;
use words::{at_word, wrap_add};

// Goes on after the last process: loads Iptr, and makes A the workspace at the same priority.
#[tactic(auto, unfolding(rules::specs::Scheduling::end_last, rules::specs::Work::put))]
fn end_last(plan: &mut Plan, mem: &[u32])
    requires { Room 0 plan.old.log }
    ensures { (work_of plan.new ≡ scheduling.end_last mem.now (work_of plan.old)) × Grown 0 plan.old.log plan.new.log }
{
    let wdesc = plan.regs[AREG] | (plan.regs[WDESC_REG] & PRIORITY_MASK);
    let a = plan.regs[AREG];
    r_index_word(plan, mem, a, 0, IPTR_REG);
    plan.regs[WDESC_REG] = wdesc;
}

// Stores the count less 1, wrapping (DECISIONS 7), and sets GotoSNPBit.
#[tactic(auto, unfolding(rules::specs::Scheduling::end_one))]
fn end_one(plan: &mut Plan, mem: &[u32], count: u32)
    requires { Room 1 plan.old.log }
    ensures { (work_of plan.new ≡ scheduling.end_one mem.now count (work_of plan.old)) × Grown 1 plan.old.log plan.new.log }
{
    let left = wrap_add(count, MINUS_ONE);
    w_index_word(&mut plan.log, mem, plan.regs[AREG], 1, left);
    goto_snp(&mut plan.regs);
}

// Decides by the count whether the process is the last.
#[tactic(auto, using(plan::proofs::Decided::tests), unfolding(rules::specs::Scheduling::end_counted))]
fn end_counted(plan: &mut Plan, mem: &[u32], count: u32)
    requires { Room 1 plan.old.log }
    ensures { (work_of plan.new ≡ scheduling.end_counted mem.now count (work_of plan.old)) × Grown 1 plan.old.log plan.new.log }
{
    if count == 1 {
        end_last(plan, mem);
    } else {
        end_one(plan, mem, count);
    }
}

// Ends the process (000 1.11, end process).
#[tactic(auto, unfolding(rules::specs::Scheduling::endp))]
pub fn endp(plan: &mut Plan, mem: &[u32])
    requires { Room 1 plan.old.log }
    ensures { (work_of plan.new ≡ scheduling.endp mem.now (work_of plan.old)) × Grown 1 plan.old.log plan.new.log }
{
    let a = at_word(plan.regs[AREG], 1);
    let count = load_word(&mut plan.log, mem, a);
    end_counted(plan, mem, count);
}
