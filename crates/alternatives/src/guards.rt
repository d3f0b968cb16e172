// Channel guards: enable channel and disable channel (000 1.11).
ghost use Rattle.std.specs.Prelude.{◌≡◌};
ghost use Rattle.rules.specs.Channels as channels;
ghost use Rattle.plan.specs.View.{work_of, Room, Grown};

use crate::waits::state_ready;
use memory::loads::load_word;
use memory::store::{r_index_word, w_index_word};
use plan::channel::Channel;
use plan::{Plan, lower, raise};
use rules::names::*;
use scheduling::selected::{drop_b, is_this_selected_process};
use words::{at_word, index_of};

// Stores Wdesc in the channel word.
// Kept, point 2: one store of its own definition, as store_count of processes; a function over both would be that store itself (d).
#[tactic(auto, unfolding(rules::specs::Channels::claim_channel))]
fn claim_channel(plan: &mut Plan, mem: &[u32])
    requires { Room 1 plan.old.log }
    ensures { (work_of plan.new ≡ channels.claim_channel mem.now (work_of plan.old)) × Grown 1 plan.old.log plan.new.log × (plan.new.regs ≡ plan.old.regs) }
{
    w_index_word(&mut plan.log, mem, plan.regs[BREG], 0, plan.regs[WDESC_REG]);
}

// Claims a free channel; a partner in the channel word makes the alternative ready.
#[tactic(auto, using(plan::proofs::Decided::tests), unfolding(rules::specs::Channels::enbc_soft))]
fn enbc_soft(plan: &mut Plan, mem: &[u32], content: u32)
    requires { Room 1 plan.old.log }
    ensures { (work_of plan.new ≡ channels.enbc_soft mem.now content (work_of plan.old)) × Grown 1 plan.old.log plan.new.log × (plan.new.regs ≡ plan.old.regs) }
{
    if content == NOT_PROCESS {
        claim_channel(plan, mem);
    } else if content != plan.regs[WDESC_REG] {
        state_ready(plan, mem);
    }
}

// Makes the alternative ready where a byte is held, else sets enabled and claims the channel (DECISIONS 30).
#[tactic(auto, using(plan::proofs::Decided::tests), unfolding(rules::specs::Channels::enbc_hard))]
fn enbc_hard(plan: &mut Plan, mem: &[u32], c: Channel)
    requires { Room 1 plan.old.log }
    ensures { (work_of plan.new ≡ channels.enbc_hard mem.now c (work_of plan.old)) × Grown 1 plan.old.log plan.new.log }
{
    if plan.regs[c.flags()] & HELD_BIT == 0 {
        raise(&mut plan.regs, c.flags(), ENABLED_BIT);
        claim_channel(plan, mem);
    } else {
        state_ready(plan, mem);
    }
}

// Decides by the channel number between a hard and a soft channel.
#[tactic(auto, using(plan::proofs::Decided::tests), unfolding(rules::specs::Channels::enbc_channel))]
fn enbc_channel(plan: &mut Plan, mem: &[u32])
    requires { Room 1 plan.old.log }
    ensures { (work_of plan.new ≡ channels.enbc_channel mem.now (work_of plan.old)) × Grown 1 plan.old.log plan.new.log }
{
    match Channel::new(index_of(plan.regs[BREG])) {
        Some(c) => enbc_hard(plan, mem, c),
        None => {
            let a = at_word(plan.regs[BREG], 0);
            let content = load_word(&mut plan.log, mem, a);
            enbc_soft(plan, mem, content);
        }
    }
}

// Enables the channel where condition A is not false (DECISIONS 13).
#[tactic(auto, using(plan::proofs::Decided::tests), unfolding(rules::specs::Channels::enbc_guard))]
fn enbc_guard(plan: &mut Plan, mem: &[u32])
    requires { Room 1 plan.old.log }
    ensures { (work_of plan.new ≡ channels.enbc_guard mem.now (work_of plan.old)) × Grown 1 plan.old.log plan.new.log }
{
    if plan.regs[AREG] != MACHINE_FALSE {
        enbc_channel(plan, mem);
    }
}

// Enables a guard with condition A on channel B (000 1.11, enable channel).
#[tactic(auto, unfolding(rules::specs::Channels::enbc))]
pub fn enbc(plan: &mut Plan, mem: &[u32])
    requires { Room 1 plan.old.log }
    ensures { (work_of plan.new ≡ channels.enbc mem.now (work_of plan.old)) × Grown 1 plan.old.log plan.new.log }
{
    enbc_guard(plan, mem);
    drop_b(&mut plan.regs);
}

// Frees the channel that this process claimed, and answers false.
#[tactic(auto, unfolding(rules::specs::Channels::disclaim, rules::specs::Work::put))]
fn disclaim(plan: &mut Plan, mem: &[u32])
    requires { Room 1 plan.old.log }
    ensures { (work_of plan.new ≡ channels.disclaim mem.now (work_of plan.old)) × Grown 1 plan.old.log plan.new.log }
{
    w_index_word(&mut plan.log, mem, plan.regs[CREG], 0, NOT_PROCESS);
    plan.regs[AREG] = MACHINE_FALSE;
}

// Answers false on a free channel, frees one that this process claimed, and selects the guard where a partner waits.
#[tactic(auto, using(plan::proofs::Decided::tests), unfolding(rules::specs::Channels::disc_soft, rules::specs::Work::put))]
fn disc_soft(plan: &mut Plan, mem: &[u32])
    requires { Room 1 plan.old.log }
    ensures { (work_of plan.new ≡ channels.disc_soft mem.now (work_of plan.old)) × Grown 1 plan.old.log plan.new.log }
{
    if plan.regs[BREG] == NOT_PROCESS {
        plan.regs[AREG] = MACHINE_FALSE;
    } else if plan.regs[BREG] == plan.regs[WDESC_REG] {
        disclaim(plan, mem);
    } else {
        is_this_selected_process(plan, mem);
    }
}

// Selects the guard exactly where a byte is held, else answers false (DECISIONS 30).
#[tactic(auto, using(plan::proofs::Decided::tests), unfolding(rules::specs::Channels::disc_answer, rules::specs::Work::put))]
fn disc_answer(plan: &mut Plan, mem: &[u32], c: Channel)
    requires { Room 1 plan.old.log }
    ensures { (work_of plan.new ≡ channels.disc_answer mem.now c (work_of plan.old)) × Grown 1 plan.old.log plan.new.log }
{
    if plan.regs[c.flags()] & HELD_BIT == 0 {
        plan.regs[AREG] = MACHINE_FALSE;
    } else {
        is_this_selected_process(plan, mem);
    }
}

// Frees the channel, and clears enabled and the ready request (DECISIONS 30).
#[tactic(auto, unfolding(rules::specs::Channels::disc_hard))]
fn disc_hard(plan: &mut Plan, mem: &[u32], c: Channel)
    requires { Room 2 plan.old.log }
    ensures { (work_of plan.new ≡ channels.disc_hard mem.now c (work_of plan.old)) × Grown 2 plan.old.log plan.new.log }
{
    w_index_word(&mut plan.log, mem, plan.regs[CREG], 0, NOT_PROCESS);
    lower(&mut plan.regs, c.flags(), ENABLED_BIT + READY_REQUEST);
    disc_answer(plan, mem, c);
}

// Decides by the channel number between a hard and a soft channel; on a soft one B is left with the channel word (DECISIONS 11).
#[tactic(auto, using(plan::proofs::Decided::tests), unfolding(rules::specs::Channels::disc_channel))]
fn disc_channel(plan: &mut Plan, mem: &[u32])
    requires { Room 2 plan.old.log }
    ensures { (work_of plan.new ≡ channels.disc_channel mem.now (work_of plan.old)) × Grown 2 plan.old.log plan.new.log }
{
    let channel = plan.regs[CREG];
    match Channel::new(index_of(channel)) {
        Some(c) => disc_hard(plan, mem, c),
        None => {
            r_index_word(plan, mem, channel, 0, BREG);
            disc_soft(plan, mem);
        }
    }
}

// Disables a guard with offset A and condition B on channel C (000 1.11, disable channel).
// Kept, point 2: diss_guard goes on in another way; each is a test of its own definition (d).
#[tactic(auto, using(plan::proofs::Decided::tests), unfolding(rules::specs::Channels::disc, rules::specs::Work::put))]
pub fn disc(plan: &mut Plan, mem: &[u32])
    requires { Room 2 plan.old.log }
    ensures { (work_of plan.new ≡ channels.disc mem.now (work_of plan.old)) × Grown 2 plan.old.log plan.new.log }
{
    if plan.regs[BREG] == MACHINE_FALSE {
        plan.regs[AREG] = MACHINE_FALSE;
    } else {
        disc_channel(plan, mem);
    }
}
