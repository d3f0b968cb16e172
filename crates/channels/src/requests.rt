// HandleChannelRequest (000 1.8) for hard channel hc. step_pending::service finds the channel.
ghost use Rattle.std.specs.Prelude.{◌≡◌};
ghost use Rattle.rules.specs.Channels as channels;
ghost use Rattle.plan.specs.View.{work_of, Room, Grown};

use memory::loads::load_word;
use memory::store::w_index_word;
use plan::channel::Channel;
use plan::{Plan, lower, refuse};
use rules::names::*;
use scheduling::running::run;
use words::at_word;

// Runs the process of the channel word and resets the word; after a reset there is no process (DECISIONS 34).
#[tactic(auto, using(plan::proofs::Decided::tests), unfolding(rules::specs::Channels::run_content))]
fn run_content(plan: &mut Plan, mem: &[u32], hc: Channel, content: u32)
    requires { Room 8 plan.old.log }
    ensures { (work_of plan.new ≡ channels.run_content mem.now hc content (work_of plan.old)) × Grown 8 plan.old.log plan.new.log }
{
    if content != NOT_PROCESS {
        w_index_word(&mut plan.log, mem, PORT_BASE, hc.number(), NOT_PROCESS);
        run(plan, mem, content);
    }
}

// Serves a run request: loads the channel word and runs its process.
// Kept, point 2: handle_ready_request clears another bit and goes on in another way; each follows its own definition (d).
#[tactic(auto, unfolding(rules::specs::Channels::handle_run_request))]
fn handle_run_request(plan: &mut Plan, mem: &[u32], hc: Channel)
    requires { Room 8 plan.old.log }
    ensures { (work_of plan.new ≡ channels.handle_run_request mem.now hc (work_of plan.old)) × Grown 8 plan.old.log plan.new.log }
{
    let a = at_word(PORT_BASE, hc.number());
    let content = load_word(&mut plan.log, mem, a);
    run_content(plan, mem, hc, content);
}

// Makes the waiting process ready and runs it.
#[tactic(auto, unfolding(rules::specs::Channels::ready_waiting))]
fn ready_waiting(plan: &mut Plan, mem: &[u32], content: u32)
    requires { Room 8 plan.old.log }
    ensures { (work_of plan.new ≡ channels.ready_waiting mem.now content (work_of plan.old)) × Grown 8 plan.old.log plan.new.log }
{
    w_index_word(&mut plan.log, mem, content & WPTR_MASK, POINTER_S, READY);
    run(plan, mem, content);
}

// Makes the alternative ready, and runs a waiting process; refuses with STOP on any status but the three (DECISIONS 26).
#[tactic(auto, using(plan::proofs::Decided::tests), unfolding(rules::specs::Channels::ready_status))]
fn ready_status(plan: &mut Plan, mem: &[u32], content: u32, status: u32)
    requires { Room 8 plan.old.log }
    ensures { (work_of plan.new ≡ channels.ready_status mem.now content status (work_of plan.old)) × Grown 8 plan.old.log plan.new.log }
{
    match status {
        ENABLING => w_index_word(&mut plan.log, mem, content & WPTR_MASK, POINTER_S, READY),
        READY => {}
        WAITING => ready_waiting(plan, mem, content),
        _ => refuse(&mut plan.log, STOP),
    }
}

// Loads the status of the process, at Pointer.s.
#[tactic(auto, unfolding(rules::specs::Channels::ready_content))]
fn ready_content(plan: &mut Plan, mem: &[u32], content: u32)
    requires { Room 8 plan.old.log }
    ensures { (work_of plan.new ≡ channels.ready_content mem.now content (work_of plan.old)) × Grown 8 plan.old.log plan.new.log }
{
    let a = at_word(content & WPTR_MASK, POINTER_S);
    let status = load_word(&mut plan.log, mem, a);
    ready_status(plan, mem, content, status);
}

// Serves a ready request: loads the channel word and makes its process ready.
#[tactic(auto, unfolding(rules::specs::Channels::handle_ready_request))]
fn handle_ready_request(plan: &mut Plan, mem: &[u32], hc: Channel)
    requires { Room 8 plan.old.log }
    ensures { (work_of plan.new ≡ channels.handle_ready_request mem.now hc (work_of plan.old)) × Grown 8 plan.old.log plan.new.log }
{
    let a = at_word(PORT_BASE, hc.number());
    let content = load_word(&mut plan.log, mem, a);
    ready_content(plan, mem, content);
}

// HandleChannelRequest (000 1.8): clears the request and serves it, the run request before the ready request (01, One step (a)).
#[tactic(auto, using(plan::proofs::Decided::tests), unfolding(rules::specs::Channels::handle_channel_request))]
pub fn handle_channel_request(plan: &mut Plan, mem: &[u32], hc: Channel)
    requires { Room 8 plan.old.log }
    ensures { (work_of plan.new ≡ channels.handle_channel_request mem.now hc (work_of plan.old)) × Grown 8 plan.old.log plan.new.log }
{
    if plan.regs[hc.flags()] & RUN_REQUEST == 0 {
        lower(&mut plan.regs, hc.flags(), READY_REQUEST);
        handle_ready_request(plan, mem, hc);
    } else {
        lower(&mut plan.regs, hc.flags(), RUN_REQUEST);
        handle_run_request(plan, mem, hc);
    }
}
