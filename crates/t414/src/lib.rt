// The eight public calls of the T414 stepper (01, The part of the T414 that we build; rules/specs/Calls.antt): from any machine,
// memory, journal and arguments to a reply. Each call makes its checks (sizes, channel, bounds of the journal), then works, then
// commits. A refused call changes nothing. The contracts are in history/specs/CallContracts.antt.
#![tactic(auto)]

ghost use Rattle.history.specs.CallContracts.{FreshContract, StepContract, TickContract, TakeContract, GiveContract, EventContract, UndoContract, ClearContract};

use journal::checks::{first_bad, not_input, not_output, refuse, refuse_at, size_bad};
use journal_record::bounds::EMPTY_RECORD;
use plan::Plan;
use plan::channel::Channel;
use rules::{Answer, Machine, Reply};

// Makes a machine with the code loaded: fills memory, does not write the journal.
pub fn fresh(mem: &mut [u32], journal: &mut [u32], code: &[u8]) -> Reply
    ensures { FreshContract code.now mem.old journal.old result mem.new journal.new }
{
    if size_bad(mem.len(), journal.len()) {
        return refuse(loading::no_machine(), Answer::Size);
    }
    if loading::code_bad(mem.len(), code.len()) {
        return refuse(loading::no_machine(), Answer::CodeSize);
    }
    loading::fill(mem, code);
    Reply {
        machine: loading::fresh_machine(code.len()),
        answer: Answer::Done,
        byte: 0,
    }
}

// Makes one step. Nearly every step is a common one, which needs no plan (step_fast); step_engine makes the others, and those for whose record
// the journal may have no room. step_engine is lent a plan and answers how many pairs it wrote, or the refusal, since a machine or a reply that is
// handed on would be copied.
// Kept, point 2: the six calls open with one check and four with one plan; a function over them would take the work, and hide what a call does (d).
pub fn step(m: Machine, mem: &mut [u32], journal: &mut [u32]) -> Reply
    ensures { StepContract m mem.old journal.old result mem.new journal.new }
{
    if let Some(refusal) = first_bad(false, mem.len(), journal.len(), m.depth, m.used) {
        return refuse(m, refusal);
    }
    let regs = m.regs;
    if journal_small::has_room(journal.len(), m.used) {
        if step_pending::pending::nothing_pending(regs) {
            if let Some(t) = step_fast::common_step(mem, regs) {
                return journal_small::commit_common(m, t, mem, journal);
            }
        }
    }
    let mut plan = Plan {
        regs,
        log: plan::empty_log(),
    };
    let used = m.used;
    match step_engine::plan_and_commit(&mut plan, regs, used, mem, journal) {
        Err(refusal) => refuse_at(m, refusal),
        Ok(count) => {
            let machine = Machine {
                regs: plan.regs,
                depth: m.depth + 1,
                used: used + 2 * count + EMPTY_RECORD,
            };
            Reply {
                machine,
                answer: Answer::Done,
                byte: 0,
            }
        }
    }
}

// Advances the clocks by one tick.
pub fn tick(m: Machine, mem: &mut [u32], journal: &mut [u32]) -> Reply
    ensures { TickContract m mem.old journal.old result mem.new journal.new }
{
    if let Some(refusal) = first_bad(false, mem.len(), journal.len(), m.depth, m.used) {
        return refuse(m, refusal);
    }
    let regs = m.regs;
    if journal_small::is_full_for_registers(journal.len(), m.used) {
        return refuse(m, Answer::JournalFull);
    }
    let ticked = links::clock::tick(regs);
    journal_small::commit_regs(m, ticked, mem, journal)
}

// Takes a byte from an output link.
pub fn take(m: Machine, mem: &mut [u32], journal: &mut [u32], channel: u32) -> Reply
    ensures { TakeContract channel m mem.old journal.old result mem.new journal.new }
{
    let wrong = not_output(channel);
    if let Some(refusal) = first_bad(wrong, mem.len(), journal.len(), m.depth, m.used) {
        return refuse(m, refusal);
    }
    let c = Channel::new(channel).unwrap();
    let regs = m.regs;
    let mut plan = Plan {
        regs,
        log: plan::empty_log(),
    };
    let byte = links::link_calls::taken(&plan, mem, c);
    links::link_calls::take(&mut plan, mem, c);
    journal::outcome::commit_or_refuse(m, &plan, byte as u8, mem, journal)
}

// Gives a byte to an input link.
pub fn give(m: Machine, mem: &mut [u32], journal: &mut [u32], channel: u32, byte: u8) -> Reply
    ensures { GiveContract channel byte m mem.old journal.old result mem.new journal.new }
{
    let wrong = not_input(channel);
    if let Some(refusal) = first_bad(wrong, mem.len(), journal.len(), m.depth, m.used) {
        return refuse(m, refusal);
    }
    let c = Channel::new(channel).unwrap();
    let regs = m.regs;
    let mut plan = Plan {
        regs,
        log: plan::empty_log(),
    };
    links::link_calls::give(&mut plan, mem, c, byte as u32);
    journal::outcome::commit_or_refuse(m, &plan, 0, mem, journal)
}

// Raises the event pin.
pub fn event(m: Machine, mem: &mut [u32], journal: &mut [u32]) -> Reply
    ensures { EventContract m mem.old journal.old result mem.new journal.new }
{
    if let Some(refusal) = first_bad(false, mem.len(), journal.len(), m.depth, m.used) {
        return refuse(m, refusal);
    }
    let regs = m.regs;
    let mut plan = Plan {
        regs,
        log: plan::empty_log(),
    };
    links::link_calls::event(&mut plan);
    journal::outcome::commit_or_refuse(m, &plan, 0, mem, journal)
}

// Undoes the last accepted call.
pub fn undo(m: Machine, mem: &mut [u32], journal: &mut [u32]) -> Reply
    ensures { UndoContract m mem.old journal.old result mem.new journal.new }
{
    if let Some(refusal) = first_bad(false, mem.len(), journal.len(), m.depth, m.used) {
        return refuse(m, refusal);
    }
    if m.depth == 0 {
        return refuse(m, Answer::NothingToUndo);
    }
    if journal::undo::record_bad(journal, m.used, mem.len()) {
        return refuse(m, Answer::JournalBad);
    }
    journal::undo::undo_last(m, mem, journal)
}

// Empties the journal; changes nothing else.
pub fn clear(m: Machine, mem: &mut [u32], journal: &mut [u32]) -> Reply
    ensures { ClearContract m mem.old journal.old result mem.new journal.new }
{
    if size_bad(mem.len(), journal.len()) {
        return refuse(m, Answer::Size);
    }
    Reply {
        machine: Machine {
            depth: 0,
            used: 0,
            ..m
        },
        answer: Answer::Done,
        byte: 0,
    }
}
