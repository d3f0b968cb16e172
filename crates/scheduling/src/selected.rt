// IsThisSelectedProcess (000 1.10), which all disable operations use (rules/specs/Timers.antt).
ghost use Rattle.std.specs.Prelude.{◌≡◌};
ghost use Rattle.rules.specs.Timers as timers;
ghost use Rattle.plan.specs.View.{work_of, view, Room, Grown};
ghost use Rattle.plan.specs.declared.Log.{Log};

use memory::loads::load_word;
use memory::store::w_index_word;
use plan::Plan;
use rules::REGISTERS;
use rules::names::*;
use words::at_word;

// Copies C to B (000 1.11, disable skip, enable channel, enable timer).
#[tactic(auto, unfolding(rules::specs::Timers::drop_b, rules::specs::Work::put))]
pub fn drop_b(regs: &mut [u32; REGISTERS])
    ensures { (log : Log) → view regs.new log ≡ timers.drop_b (view regs.old log) }
{
    regs[BREG] = regs[CREG];
}

// Selects the guard if none is selected yet: stores its offset A in local 0 and answers true in A, else answers false (DECISIONS 11).
#[tactic(auto, using(plan::proofs::Decided::tests), unfolding(rules::specs::Timers::select_first, rules::specs::Work::put))]
fn select_first(plan: &mut Plan, mem: &[u32], status: u32)
    requires { Room 1 plan.old.log }
    ensures { (work_of plan.new ≡ timers.select_first mem.now status (work_of plan.old)) × Grown 1 plan.old.log plan.new.log }
{
    if status == NONE_SELECTED {
        let wptr = plan.regs[WDESC_REG] & WPTR_MASK;
        w_index_word(&mut plan.log, mem, wptr, 0, plan.regs[AREG]);
        plan.regs[AREG] = MACHINE_TRUE;
    } else {
        plan.regs[AREG] = MACHINE_FALSE;
    }
}

// IsThisSelectedProcess (000 1.10): loads local 0, the offset selected so far, and selects the guard if there is none.
#[tactic(auto, unfolding(rules::specs::Timers::is_this_selected_process))]
pub fn is_this_selected_process(plan: &mut Plan, mem: &[u32])
    requires { Room 1 plan.old.log }
    ensures { (work_of plan.new ≡ timers.is_this_selected_process mem.now (work_of plan.old)) × Grown 1 plan.old.log plan.new.log }
{
    let a = at_word(plan.regs[WDESC_REG] & WPTR_MASK, 0);
    let status = load_word(&mut plan.log, mem, a);
    select_first(plan, mem, status);
}
