// Hard channels (000 1.10, 1.11; 01, Links, clocks, slice): the start of a transfer, and reset channel.
ghost use Rattle.std.specs.Prelude.{◌≡◌, ◌<◌};
ghost use Rattle.rules.specs.Channels as channels;
ghost use Rattle.plan.specs.View.{work_of, view, Room, Grown};
ghost use Rattle.plan.specs.declared.Log.{Log};

use links::link_calls::{event_meets, receive};
use memory::loads::load_word;
use memory::store::w_index_word;
use plan::channel::Channel;
use plan::{Plan, goto_snp, lower, raise};
use rules::REGISTERS;
use rules::names::*;
use scheduling::stopping::save_iptr;
use words::{at_word, held_byte, index_of};

// Sets pointer, count and active; the other bits stay (DECISIONS 31).
#[tactic(auto, unfolding(rules::specs::Channels::start_transfer, rules::specs::Work::put))]
fn start_transfer(regs: &mut [u32; REGISTERS], c: Channel)
    ensures { (log : Log) → view regs.new log ≡ channels.start_transfer c (view regs.old log) }
{
    regs[c.pointer()] = regs[CREG];
    regs[c.count()] = regs[AREG];
    raise(regs, c.flags(), ACTIVE_BIT);
}

// HardChannelInputOutputAction (000 1.10): stores Wdesc in the channel word, saves Iptr, and starts the transfer.
#[tactic(auto, unfolding(rules::specs::Channels::hard_start))]
fn hard_start(plan: &mut Plan, mem: &[u32], c: Channel)
    requires { Room 2 plan.old.log }
    ensures { (work_of plan.new ≡ channels.hard_start mem.now c (work_of plan.old)) × Grown 2 plan.old.log plan.new.log }
{
    w_index_word(&mut plan.log, mem, plan.regs[BREG], 0, plan.regs[WDESC_REG]);
    save_iptr(plan, mem);
    start_transfer(&mut plan.regs, c);
}

// Starts an output and sets GotoSNPBit. A count of 0 touches neither link nor channel word, and the process goes on (DECISIONS 28).
#[tactic(auto, using(plan::proofs::Decided::tests), unfolding(rules::specs::Channels::hard_output))]
pub fn hard_output(plan: &mut Plan, mem: &[u32], c: Channel)
    requires { Room 2 plan.old.log }
    ensures { (work_of plan.new ≡ channels.hard_output mem.now c (work_of plan.old)) × Grown 2 plan.old.log plan.new.log }
{
    if plan.regs[AREG] != 0 {
        hard_start(plan, mem, c);
        goto_snp(&mut plan.regs);
    }
}

// Does with what is held what a give or an event would do (DECISIONS 29).
#[tactic(auto, using(plan::proofs::Decided::tests), unfolding(rules::specs::Channels::meet_held))]
fn meet_held(plan: &mut Plan, mem: &[u32], c: Channel)
    requires { Room 1 plan.old.log }
    ensures { (work_of plan.new ≡ channels.meet_held mem.now c (work_of plan.old)) × Grown 1 plan.old.log plan.new.log }
{
    if c == Channel::event() {
        event_meets(&mut plan.regs);
    } else {
        let byte = held_byte(plan.regs[c.flags()]);
        receive(plan, mem, c, byte);
    }
}

// Starts a transfer, clears held and uses what was held (DECISIONS 29).
#[tactic(auto, unfolding(rules::specs::Channels::hard_input_held))]
fn hard_input_held(plan: &mut Plan, mem: &[u32], c: Channel)
    requires { Room 3 plan.old.log }
    ensures { (work_of plan.new ≡ channels.hard_input_held mem.now c (work_of plan.old)) × Grown 3 plan.old.log plan.new.log }
{
    hard_start(plan, mem, c);
    lower(&mut plan.regs, c.flags(), HELD_BIT);
    meet_held(plan, mem, c);
    goto_snp(&mut plan.regs);
}

// Starts a transfer; only an `in` on channels 4 to 8 uses what is held (DECISIONS 29).
#[tactic(auto, using(plan::proofs::Decided::tests), unfolding(rules::specs::Channels::hard_input_start))]
fn hard_input_start(plan: &mut Plan, mem: &[u32], c: Channel)
    requires { Room 3 plan.old.log }
    ensures { (work_of plan.new ≡ channels.hard_input_start mem.now c (work_of plan.old)) × Grown 3 plan.old.log plan.new.log }
{
    if c.is_output() || plan.regs[c.flags()] & HELD_BIT == 0 {
        hard_start(plan, mem, c);
        goto_snp(&mut plan.regs);
    } else {
        hard_input_held(plan, mem, c);
    }
}

// Starts an input and sets GotoSNPBit; a count of 0 does nothing (DECISIONS 28).
#[tactic(auto, using(plan::proofs::Decided::tests), unfolding(rules::specs::Channels::hard_input))]
pub fn hard_input(plan: &mut Plan, mem: &[u32], c: Channel)
    requires { Room 3 plan.old.log }
    ensures { (work_of plan.new ≡ channels.hard_input mem.now c (work_of plan.old)) × Grown 3 plan.old.log plan.new.log }
{
    if plan.regs[AREG] != 0 {
        hard_input_start(plan, mem, c);
    }
}

// Clears bits 0 to 4 of a hard channel's flags; a soft channel has no flags.
#[tactic(auto, using(plan::proofs::Decided::tests), unfolding(rules::specs::Channels::reset_hard))]
fn reset_hard(regs: &mut [u32; REGISTERS], mem: &[u32], number: u32)
    ensures { (log : Log) → view regs.new log ≡ channels.reset_hard mem.now number (view regs.old log) }
{
    if let Some(c) = Channel::new(number) {
        lower(regs, c.flags(), 0x1F);
    }
}

// Resets channel A, and leaves the old channel word in A (000 1.11, reset channel).
#[tactic(auto, unfolding(rules::specs::Channels::resetch, rules::specs::Work::put))]
pub fn resetch(plan: &mut Plan, mem: &[u32])
    requires { Room 1 plan.old.log }
    ensures { (work_of plan.new ≡ channels.resetch mem.now (work_of plan.old)) × Grown 1 plan.old.log plan.new.log }
{
    let channel = plan.regs[AREG];
    let a = at_word(channel, 0);
    let content = load_word(&mut plan.log, mem, a);
    w_index_word(&mut plan.log, mem, channel, 0, NOT_PROCESS);
    reset_hard(&mut plan.regs, mem, index_of(channel));
    plan.regs[AREG] = content;
}
