// One step (01, One step; rules/specs/Step.antt): planned over registers and memory, with the refusals 6, 7 and 9 to 11, then committed
// or refused.
#![tactic(auto)]

ghost use Rattle.std.specs.Prelude.{◌≡◌, ◌+◌, ◌≤◌, length, IfOk};
ghost use Rattle.rules.specs.Work.{begin};
ghost use Rattle.rules.specs.Step as step;
ghost use Rattle.rules.specs.Journal.{record_length, record_of};
ghost use Rattle.journal.specs.Effect.{effect_of, committed};
ghost use Rattle.plan.specs.View.{work_of, view, count_of, Room, Ended};
ghost use Rattle.plan.specs.declared.Log.{Log};

use plan::{Plan, Refusal};
use rules::REGISTERS;
use rules::names::*;

// Advances Iptr and takes the nibble into Oreg.
#[tactic(auto, unfolding(rules::specs::Step::fetched, rules::specs::Work::put))]
fn fetched(regs: &mut [u32; REGISTERS], byte: u32)
    ensures { (log : Log) → view regs.new log ≡ step.fetched byte (view regs.old log) }
{
    let operand = words::with_nibble(byte, regs[OREG]);
    regs[IPTR_REG] = words::at_byte(regs[IPTR_REG], 1);
    regs[OREG] = operand;
}

// Does any function but a prefix, and acts on GotoSNP.
#[tactic(auto, unfolding(rules::specs::Step::execute, rules::specs::Work::put))]
fn execute(plan: &mut Plan, mem: &[u32], code: u32)
    requires { Room 12 plan.old.log × (count_of plan.old.log ≡ 0) }
    ensures { (work_of plan.new ≡ step.execute mem.now code (work_of plan.old)) × Ended 12 plan.old.log plan.new.log }
{
    step_dispatch::function(plan, mem, code);
    plan.regs[OREG] = 0;
    scheduling::start_next::act_on_snp(plan, mem);
}

#[tactic(auto, using(plan::proofs::Decided::tests), unfolding(rules::specs::Step::decode))]
fn decode(plan: &mut Plan, mem: &[u32], code: u32)
    requires { Room 12 plan.old.log × (count_of plan.old.log ≡ 0) }
    ensures { (work_of plan.new ≡ step.decode mem.now code (work_of plan.old)) × Ended 12 plan.old.log plan.new.log }
{
    match code {
        0x2 => step_dispatch::on_core(plan, core_ops::stack::pfix),
        0x6 => step_dispatch::on_core(plan, core_ops::stack::nfix),
        _ => execute(plan, mem, code),
    }
}

// (c) Fetches one instruction byte and does it.
#[tactic(auto, unfolding(rules::specs::Step::instruction))]
fn instruction(plan: &mut Plan, mem: &[u32])
    requires { Room 12 plan.old.log × (count_of plan.old.log ≡ 0) }
    ensures { (work_of plan.new ≡ step.instruction mem.now (work_of plan.old)) × Ended 12 plan.old.log plan.new.log }
{
    let byte = memory::loads::fetch_byte(&mut plan.log, mem, plan.regs[IPTR_REG]);
    fetched(&mut plan.regs, byte);
    decode(plan, mem, byte >> 4);
}

#[tactic(auto, using(plan::proofs::Decided::tests), unfolding(rules::specs::Step::instruction_unless_idle))]
fn instruction_unless_idle(plan: &mut Plan, mem: &[u32])
    requires { Room 12 plan.old.log × (count_of plan.old.log ≡ 0) }
    ensures { (work_of plan.new ≡ step.instruction_unless_idle mem.now (work_of plan.old)) × Ended 12 plan.old.log plan.new.log }
{
    if plan.regs[FLAGS_REG] & IDLE_FLAG == 0 {
        instruction(plan, mem);
        return;
    }
    plan::refuse(&mut plan.log, IDLE);
}

// (b) Serves a timer that is ready.
fn timers_first(plan: &mut Plan, mem: &[u32])
    requires { Room 12 plan.old.log × (count_of plan.old.log ≡ 0) }
    ensures { (work_of plan.new ≡ step.timers_first mem.now (work_of plan.old)) × Ended 12 plan.old.log plan.new.log }
{
    match step_pending::service::ready_timer(&plan.regs) {
        Some(timer) => {
            timers::requests::handle_timer_request(plan, mem, timer);
            scheduling::start_next::act_on_snp(plan, mem);
        }
        None => instruction_unless_idle(plan, mem),
    }
}

// (a) Serves the lowest channel with a request.
#[tactic(auto, using(plan::proofs::Decided::tests), unfolding(rules::specs::Step::channels_first))]
fn channels_first(plan: &mut Plan, mem: &[u32])
    requires { Room 12 plan.old.log × (count_of plan.old.log ≡ 0) }
    ensures { (work_of plan.new ≡ step.channels_first mem.now (work_of plan.old)) × Ended 12 plan.old.log plan.new.log }
{
    match step_pending::service::requested(&plan.regs) {
        Some(c) => {
            channels::requests::handle_channel_request(plan, mem, c);
            scheduling::start_next::act_on_snp(plan, mem);
        }
        None => timers_first(plan, mem),
    }
}

fn choose(plan: &mut Plan, mem: &[u32])
    requires { Room 12 plan.old.log × (count_of plan.old.log ≡ 0) }
    ensures { (work_of plan.new ≡ step.choose mem.now (work_of plan.old)) × Ended 12 plan.old.log plan.new.log }
{
    if step_pending::service::between_instructions(&plan.regs) {
        channels_first(plan, mem);
    } else {
        instruction_unless_idle(plan, mem);
    }
}

// Plans a step, or refuses by the first condition or access that fails.
#[tactic(auto, using(plan::proofs::Decided::tests), unfolding(rules::specs::Step::step))]
pub fn step(plan: &mut Plan, mem: &[u32])
    requires { Room 12 plan.old.log × (count_of plan.old.log ≡ 0) }
    ensures { (work_of plan.new ≡ step.step mem.now (work_of plan.old)) × Ended 12 plan.old.log plan.new.log }
{
    if plan.regs[FLAGS_REG] & HALTED_FLAG == 0 {
        let status = plan.regs[STATUS_REG];
        choose(plan, mem);
        step_pending::halting::halt_on_error(&mut plan.regs, status);
        return;
    }
    plan::refuse(&mut plan.log, HALTED);
}

// Plans the step of a call after its checks, then commits it or refuses. The registers of the plan and old are those before the step; those of
// the plan become those after it. The caller makes the reply: a reply made here would be copied.
pub fn plan_and_commit(
    plan: &mut Plan,
    old: [u32; REGISTERS],
    used: usize,
    mem: &mut [u32],
    journal: &mut [u32],
) -> Result<usize, Refusal>
    requires { (plan.old.regs ≡ old) × (length mem.old ≤ 16384) × (length journal.old ≤ 65536) × (used ≤ length journal.old) }
    ensures effect { effect_of result mem.new journal.new ≡ committed (record_of mem.old old) used mem.old journal.old (step.step mem.old (begin old)).answer (step.step mem.old (begin old)).kind (step.step mem.old (begin old)).address (step.step mem.old (begin old)).stored }
    ensures registers { plan.new.regs ≡ (step.step mem.old (begin old)).regs }
    ensures fits { IfOk result (λ n. used + record_length n ≤ length journal.old) }
{
    plan::begin(&mut plan.log);
    step(plan, mem);
    let count = journal::commit::commit(&plan.log, used, mem, journal)?;
    journal_record::record::put_tail(journal, old, count as u32, used + 2 * count);
    Ok(count)
}
