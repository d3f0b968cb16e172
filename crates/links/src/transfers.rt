// What take, give and event share, in registers alone (01, Links, clocks, slice).
ghost use Rattle.std.specs.Prelude.{◌≡◌, true, false, ◌<◌};
ghost use Rattle.rules.specs.Links as links;
ghost use Rattle.plan.specs.View.{view};
ghost use Rattle.plan.specs.declared.Log.{Log};

use plan::channel::Channel;
use plan::{lower, raise};
use rules::REGISTERS;
use rules::names::*;
use words::{at_byte, with_held_byte, wrap_add};

// Tests whether a link is moving: active, and its count is not 0.
#[tactic(auto, using(plan::proofs::Decided::tests))]
pub fn moving(regs: &[u32; REGISTERS], c: Channel) -> bool
    ensures { (log : Log) → result ≡ links.if_moving c (view regs.now log) true false }
{
    regs[c.flags()] & ACTIVE_BIT != 0 && regs[c.count()] != 0
}

// Ends the transfer: clears active and sets the run request.
#[tactic(auto, unfolding(rules::specs::Links::transfer_ends))]
pub fn transfer_ends(regs: &mut [u32; REGISTERS], c: Channel)
    ensures { (log : Log) → view regs.new log ≡ links.transfer_ends c (view regs.old log) }
{
    lower(regs, c.flags(), ACTIVE_BIT);
    raise(regs, c.flags(), RUN_REQUEST);
}

// Ends the transfer where its count is 0.
#[tactic(auto, using(plan::proofs::Decided::tests), unfolding(rules::specs::Links::end_at_zero))]
pub fn end_at_zero(regs: &mut [u32; REGISTERS], c: Channel)
    ensures { (log : Log) → view regs.new log ≡ links.end_at_zero c (view regs.old log) }
{
    if regs[c.count()] == 0 {
        transfer_ends(regs, c);
    }
}

// Adds 1 to the pointer, subtracts 1 from the count, and ends the transfer at 0.
#[tactic(auto, unfolding(rules::specs::Links::advance, rules::specs::Work::put))]
pub fn advance(regs: &mut [u32; REGISTERS], c: Channel)
    ensures { (log : Log) → view regs.new log ≡ links.advance c (view regs.old log) }
{
    let pointer = at_byte(regs[c.pointer()], 1);
    let count = wrap_add(regs[c.count()], MINUS_ONE);
    regs[c.pointer()] = pointer;
    regs[c.count()] = count;
    end_at_zero(regs, c);
}

// Clears enabled and sets the ready request, where enabled is set.
#[tactic(auto, using(plan::proofs::Decided::tests), unfolding(rules::specs::Links::notice_held))]
pub fn notice_held(regs: &mut [u32; REGISTERS], c: Channel)
    ensures { (log : Log) → view regs.new log ≡ links.notice_held c (view regs.old log) }
{
    if regs[c.flags()] & ENABLED_BIT != 0 {
        lower(regs, c.flags(), ENABLED_BIT);
        raise(regs, c.flags(), READY_REQUEST);
    }
}

// Holds a byte on a link that is not moving.
// Kept, point 5: a byte that is put into a word at once; as a u8 each body would widen it (d).
#[tactic(auto, unfolding(rules::specs::Links::hold, rules::specs::Work::put))]
pub fn hold(regs: &mut [u32; REGISTERS], c: Channel, byte: u32)
    requires { byte < 256 }
    ensures { (log : Log) → view regs.new log ≡ links.hold c byte (view regs.old log) }
{
    let flags = with_held_byte(byte, regs[c.flags()]) | HELD_BIT;
    regs[c.flags()] = flags;
    notice_held(regs, c);
}
