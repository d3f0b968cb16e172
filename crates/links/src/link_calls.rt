// Take, give and event, on a plan (01, Links, clocks, slice). An `in` that finds something held uses receive and event_meets.
ghost use Rattle.std.specs.Prelude.{◌≡◌, List, ℕ, ◌<◌};
ghost use Rattle.rules.specs.Links as links;
ghost use Rattle.plan.specs.View.{work_of, view, Room, Grown};
ghost use Rattle.plan.specs.declared.Log.{Log};

use crate::transfers::{advance, hold, moving, notice_held, transfer_ends};
use memory::loads::{byte_at, load_byte};
use memory::store::store_byte;
use plan::channel::Channel;
use plan::{Plan, raise, refuse};
use rules::REGISTERS;
use rules::names::*;

// Ends the moving transfer of the event channel: sets its count to 0 and leaves its pointer.
#[tactic(auto, unfolding(rules::specs::Links::event_meets, rules::specs::Work::put))]
pub fn event_meets(regs: &mut [u32; REGISTERS])
    ensures { (log : Log) → view regs.new log ≡ links.event_meets (view regs.old log) }
{
    let c = Channel::event();
    regs[c.count()] = 0;
    transfer_ends(regs, c);
}

// Holds the event: sets held and leaves the byte bits.
#[tactic(auto, unfolding(rules::specs::Links::event_holds))]
pub fn event_holds(regs: &mut [u32; REGISTERS])
    ensures { (log : Log) → view regs.new log ≡ links.event_holds (view regs.old log) }
{
    let c = Channel::event();
    raise(regs, c.flags(), HELD_BIT);
    notice_held(regs, c);
}

// Ends a moving transfer, else holds the event; refuses with NOT_READY where one is held.
pub fn event(plan: &mut Plan)
    ensures { (work_of plan.new ≡ links.event (work_of plan.old)) × Grown 0 plan.old.log plan.new.log }
{
    let c = Channel::event();
    if moving(&plan.regs, c) {
        event_meets(&mut plan.regs);
    } else if plan.regs[c.flags()] & HELD_BIT == 0 {
        event_holds(&mut plan.regs);
    } else {
        refuse(&mut plan.log, NOT_READY);
    }
}

// Reads the byte at the pointer, which take hands over.
#[tactic(auto, unfolding(rules::specs::Links::taken))]
pub fn taken(plan: &Plan, mem: &[u32], c: Channel) -> u32
    requires { Room 0 plan.now.log }
    ensures { (result ≡ links.taken mem.now c (work_of plan.now)) × (result < 256) }
{
    byte_at(&plan.log, mem, plan.regs[c.pointer()])
}

// Loads the byte at the pointer and advances the transfer.
#[tactic(auto, unfolding(rules::specs::Links::take_byte))]
pub fn take_byte(plan: &mut Plan, mem: &[u32], c: Channel)
    requires { Room 0 plan.old.log }
    ensures { (work_of plan.new ≡ links.take_byte mem.now c (work_of plan.old)) × Grown 0 plan.old.log plan.new.log }
{
    load_byte(&mut plan.log, mem, plan.regs[c.pointer()]);
    advance(&mut plan.regs, c);
}

// Takes a byte from a moving link; refuses with NOT_READY where the link is not moving.
pub fn take(plan: &mut Plan, mem: &[u32], c: Channel)
    requires { Room 0 plan.old.log }
    ensures { (work_of plan.new ≡ links.take mem.now c (work_of plan.old)) × Grown 0 plan.old.log plan.new.log }
{
    if moving(&plan.regs, c) {
        take_byte(plan, mem, c);
    } else {
        refuse(&mut plan.log, NOT_READY);
    }
}

// Stores the byte at the pointer and advances the transfer.
#[tactic(auto, unfolding(rules::specs::Links::receive))]
pub fn receive(plan: &mut Plan, mem: &[u32], c: Channel, byte: u32)
    requires { (byte < 256) × Room 1 plan.old.log }
    ensures { (work_of plan.new ≡ links.receive mem.now c byte (work_of plan.old)) × Grown 1 plan.old.log plan.new.log }
{
    store_byte(&mut plan.log, mem, plan.regs[c.pointer()], byte);
    advance(&mut plan.regs, c);
}

// Gives a byte to a moving link, else holds the byte; refuses with NOT_READY where one is held.
pub fn give(plan: &mut Plan, mem: &[u32], c: Channel, byte: u32)
    requires { (byte < 256) × Room 1 plan.old.log }
    ensures { (work_of plan.new ≡ links.give mem.now c byte (work_of plan.old)) × Grown 1 plan.old.log plan.new.log }
{
    if moving(&plan.regs, c) {
        receive(plan, mem, c, byte);
    } else if plan.regs[c.flags()] & HELD_BIT == 0 {
        hold(&mut plan.regs, c, byte);
    } else {
        refuse(&mut plan.log, NOT_READY);
    }
}
