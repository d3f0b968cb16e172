// Dispatch: the function of a byte, the operation of Oreg (000 1.11; rules/specs/Operations.antt). Operations on registers alone are in
// core_table. Here are those that can Stop, use queue pointers or clocks, access memory or schedule.
#![tactic(auto)]

ghost use Rattle.std.specs.Prelude.{◌≡◌, Option};
ghost use Rattle.rules.specs.Registers as registers;
ghost use Rattle.rules.specs.Work as work;
ghost use Rattle.rules.specs.declared.Core.{Core};
ghost use Rattle.rules.specs.declared.Both.{Both};
ghost use Rattle.rules.specs.Operations as operations;
ghost use Rattle.plan.specs.View.{work_of, count_of, Room, Grown, Ended};
ghost use Rattle.step_dispatch.specs.Others.{other_operation};

use core_table::register_operation;
use plan::Plan;
use rules::names::*;
use rules::{Both, Core, System};

// Does an operation on registers 0 to 6.
pub fn on_core<F: FnOnce(Core) -> Core>(plan: &mut Plan, operation: F)
    requires { F.IsAlwaysCallable operation }
    ensures { (t : Core) × F.post operation (registers.core_of plan.old.regs) t × (work_of plan.new ≡ work.put_core t (work_of plan.old)) × (plan.new.log ≡ plan.old.log) }
{
    let t = operation(plan::core_of(&plan.regs));
    plan::put_core(&mut plan.regs, t);
}

// Does an operation on registers 0 to 6 that can Stop.
fn on_attempt<F: FnOnce(Core) -> Option<Core>>(plan: &mut Plan, operation: F)
    requires { F.IsAlwaysCallable operation }
    ensures { (t : Option Core) × F.post operation (registers.core_of plan.old.regs) t × (work_of plan.new ≡ work.attempted t (work_of plan.old)) × Grown 0 plan.old.log plan.new.log }
{
    let t = operation(plan::core_of(&plan.regs));
    plan::attempted(plan, t);
}

// Does an operation on the registers of Core and of System.
fn on_both<F: FnOnce(Core, System) -> Both>(plan: &mut Plan, operation: F)
    requires { F.IsAlwaysCallable operation }
    ensures { (t : Both) × F.post operation (registers.core_of plan.old.regs) (registers.system_of plan.old.regs) t × (work_of plan.new ≡ work.put_both t (work_of plan.old)) × (plan.new.log ≡ plan.old.log) }
{
    let t = operation(plan::core_of(&plan.regs), plan::system_of(&plan.regs));
    plan::put_both(&mut plan.regs, t);
}

// Does the operation of a code that is not in core_table; refuses a code without a row.
#[tactic(auto, unfolding(crate::specs::Others::other_operation, rules::specs::Operations::other_operations))]
fn other_operation(plan: &mut Plan, mem: &[u32], code: u32)
    requires { Room 12 plan.old.log × (count_of plan.old.log ≡ 0) }
    ensures { (work_of plan.new ≡ other_operation code mem.now (work_of plan.old)) × Ended 12 plan.old.log plan.new.log }
{
    // Kept, point 7: the match is the table of the definitions, a line a code; a table of pointers adds wrappers where arguments differ.
    match code {
        0x01 => data::bytes::lb(plan, mem),
        0x03 => processes::ending::endp(plan, mem),
        0x07 => channels::inputs::input(plan, mem),
        0x0B => channels::outputs::output(plan, mem),
        0x0D => processes::starting::startp(plan, mem),
        0x0E => channels::outputs::outbyte(plan, mem),
        0x0F => channels::outputs::outword(plan, mem),
        0x12 => channels::hard::resetch(plan, mem),
        0x15 => scheduling::stopping::stopp(plan, mem),
        0x17 => on_both(plan, core_ops::clocks::stlb),
        0x18 => on_both(plan, core_ops::clocks::sthf),
        0x1C => on_both(plan, core_ops::clocks::stlf),
        0x20 => data::calls::ret(plan, mem),
        0x21 => processes::loops::lend(plan, mem),
        0x22 => {
            let t = core_ops::clocks::ldtimer(
                plan::core_of(&plan.regs),
                plan::system_of(&plan.regs),
            );
            plan::put_core(&mut plan.regs, t)
        },
        0x2B => timers::waits::tin(plan, mem),
        0x2E => timers::guards::dist(plan, mem),
        0x2F => alternatives::guards::disc(plan, mem),
        0x30 => alternatives::waits::diss(plan, mem),
        0x35 => on_attempt(plan, core_arith::long::lshr),
        0x36 => on_attempt(plan, core_arith::long::lshl),
        0x39 => processes::starting::runp(plan, mem),
        0x3B => data::bytes::sb(plan, mem),
        0x3D => data::queue_words::savel(plan, mem),
        0x3E => data::queue_words::saveh(plan, mem),
        0x40 => on_attempt(plan, core_ops::logic::shr),
        0x41 => on_attempt(plan, core_ops::logic::shl),
        0x43 => alternatives::waits::alt(plan, mem),
        0x44 => alternatives::waits::altwt(plan, mem),
        0x45 => data::calls::altend(plan, mem),
        0x47 => timers::guards::enbt(plan, mem),
        0x48 => alternatives::guards::enbc(plan, mem),
        0x49 => alternatives::waits::enbs(plan, mem),
        0x4A => data::blocks::block_move(plan, mem),
        0x4E => timers::waits::talt(plan, mem),
        0x50 => on_both(plan, core_ops::clocks::sthb),
        0x51 => timers::waits::taltwt(plan, mem),
        0x54 => on_both(plan, core_ops::clocks::sttimer),
        0x55 => scheduling::stopping::stoperr(plan, mem),
        _ => plan::refuse(&mut plan.log, UNLISTED),
    }
}

// Does the operation of a code.
fn operate(plan: &mut Plan, mem: &[u32], code: u32)
    requires { Room 12 plan.old.log × (count_of plan.old.log ≡ 0) }
    ensures { (work_of plan.new ≡ operations.operate code mem.now (work_of plan.old)) × Ended 12 plan.old.log plan.new.log }
{
    match register_operation(code, plan::core_of(&plan.regs)) {
        Some(t) => plan::put_core(&mut plan.regs, t),
        None => other_operation(plan, mem, code),
    }
}

// Does the function of a code; step_engine does the prefixes.
#[tactic(auto, unfolding(rules::specs::Operations::function, rules::specs::Operations::functions))]
pub fn function(plan: &mut Plan, mem: &[u32], code: u32)
    requires { Room 12 plan.old.log × (count_of plan.old.log ≡ 0) }
    ensures { (work_of plan.new ≡ operations.function code mem.now (work_of plan.old)) × Ended 12 plan.old.log plan.new.log }
{
    // Kept, point 7: as in other_operation, the match is the table of the definitions.
    match code {
        0x0 => processes::slices::j(plan, mem),
        0x1 => on_core(plan, core_ops::stack::ldlp),
        0x3 => data::locals::ldnl(plan, mem),
        0x4 => on_core(plan, core_ops::stack::ldc),
        0x5 => on_core(plan, core_ops::stack::ldnlp),
        0x7 => data::locals::ldl(plan, mem),
        0x8 => on_core(plan, core_arith::word::adc),
        0x9 => data::calls::call(plan, mem),
        0xA => on_core(plan, core_ops::stack::cj),
        0xB => on_core(plan, core_ops::stack::ajw),
        0xC => on_core(plan, core_ops::stack::eqc),
        0xD => data::locals::stl(plan, mem),
        0xE => data::locals::stnl(plan, mem),
        0xF => {
            let operand = plan.regs[OREG];
            operate(plan, mem, operand)
        }
        _ => plan::refuse(&mut plan.log, UNLISTED),
    }
}
