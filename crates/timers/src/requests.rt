// HandleTimerRequest (000 1.8): the front process leaves the queue, and runs if it was waiting.
ghost use Rattle.std.specs.Prelude.{◌≡◌};
ghost use Rattle.rules.specs.Timers as timers;
ghost use Rattle.plan.specs.Level.{number};
ghost use Rattle.plan.specs.View.{work_of, Room, Grown};

use crate::timer_queue::{set_next, tptr_loc};
use memory::loads::load_word;
use memory::store::w_index_word;
use plan::level::Level;
use plan::{Plan, lower, refuse};
use rules::names::*;
use scheduling::running::run;
use words::at_word;

// Makes the process ready and runs it.
#[tactic(auto, unfolding(rules::specs::Timers::timed_out))]
fn timed_out(plan: &mut Plan, mem: &[u32], queue: Level, front: u32)
    requires { Room 8 plan.old.log }
    ensures { (work_of plan.new ≡ timers.timed_out mem.now (number queue) front (work_of plan.old)) × Grown 8 plan.old.log plan.new.log }
{
    let descriptor = front | queue.number();
    w_index_word(&mut plan.log, mem, front, POINTER_S, READY);
    run(plan, mem, descriptor);
}

// Runs a waiting process, leaves a ready one; refuses with STOP on any other status (DECISIONS 26).
#[tactic(auto, using(plan::proofs::Decided::tests), unfolding(rules::specs::Timers::timer_status))]
fn timer_status(plan: &mut Plan, mem: &[u32], queue: Level, front: u32, status: u32)
    requires { Room 8 plan.old.log }
    ensures { (work_of plan.new ≡ timers.timer_status mem.now (number queue) front status (work_of plan.old)) × Grown 8 plan.old.log plan.new.log }
{
    match status {
        READY => {}
        WAITING => timed_out(plan, mem, queue, front),
        _ => refuse(&mut plan.log, STOP),
    }
}

// Loads the status of the front process, at Pointer.s.
#[tactic(auto, unfolding(rules::specs::Timers::timer_wake))]
fn timer_wake(plan: &mut Plan, mem: &[u32], queue: Level, front: u32)
    requires { Room 8 plan.old.log }
    ensures { (work_of plan.new ≡ timers.timer_wake mem.now (number queue) front (work_of plan.old)) × Grown 8 plan.old.log plan.new.log }
{
    let a = at_word(front, POINTER_S);
    let status = load_word(&mut plan.log, mem, a);
    timer_status(plan, mem, queue, front, status);
}

// Sets the next time to that of the second process, if there is one.
#[tactic(auto, using(plan::proofs::Decided::tests), unfolding(rules::specs::Timers::timer_next))]
fn timer_next(plan: &mut Plan, mem: &[u32], queue: Level, second: u32)
    requires { Room 0 plan.old.log }
    ensures { (work_of plan.new ≡ timers.timer_next mem.now (number queue) second (work_of plan.old)) × Grown 0 plan.old.log plan.new.log }
{
    if second != NOT_PROCESS {
        set_next(plan, mem, queue, second);
    }
}

// Unlinks the front process: TLink.s gets TimeSet.p, and the second process becomes the front.
#[tactic(auto, unfolding(rules::specs::Timers::timer_unlink))]
fn timer_unlink(plan: &mut Plan, mem: &[u32], queue: Level, front: u32, second: u32)
    requires { Room 2 plan.old.log }
    ensures { (work_of plan.new ≡ timers.timer_unlink mem.now (number queue) front second (work_of plan.old)) × Grown 2 plan.old.log plan.new.log }
{
    w_index_word(&mut plan.log, mem, front, TLINK_S, TIME_SET);
    w_index_word(&mut plan.log, mem, TIMER_BASE, queue.number(), second);
    timer_next(plan, mem, queue, second);
}

// Serves the queue, then its front process (DECISIONS 41).
#[tactic(auto, unfolding(rules::specs::Timers::timer_front))]
fn timer_front(plan: &mut Plan, mem: &[u32], queue: Level, front: u32)
    requires { Room 10 plan.old.log }
    ensures { (work_of plan.new ≡ timers.timer_front mem.now (number queue) front (work_of plan.old)) × Grown 10 plan.old.log plan.new.log }
{
    let a = at_word(front, TLINK_S);
    let second = load_word(&mut plan.log, mem, a);
    timer_unlink(plan, mem, queue, front, second);
    timer_wake(plan, mem, queue, front);
}

// Loads the front process, at TPtrLoc.
#[tactic(auto, unfolding(rules::specs::Timers::timer_serve))]
fn timer_serve(plan: &mut Plan, mem: &[u32], queue: Level)
    requires { Room 10 plan.old.log }
    ensures { (work_of plan.new ≡ timers.timer_serve mem.now (number queue) (work_of plan.old)) × Grown 10 plan.old.log plan.new.log }
{
    let a = tptr_loc(queue);
    let front = load_word(&mut plan.log, mem, a);
    timer_front(plan, mem, queue, front);
}

// HandleTimerRequest (000 1.8): disables the timer, and serves its queue.
#[tactic(auto, unfolding(rules::specs::Timers::handle_timer_request))]
pub fn handle_timer_request(plan: &mut Plan, mem: &[u32], queue: Level)
    requires { Room 10 plan.old.log }
    ensures { (work_of plan.new ≡ timers.handle_timer_request mem.now (number queue) (work_of plan.old)) × Grown 10 plan.old.log plan.new.log }
{
    lower(&mut plan.regs, FLAGS_REG, queue.timer_enabled());
    timer_serve(plan, mem, queue);
}
