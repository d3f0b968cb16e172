// Subscripts, counts, bits and shifts (000 1.11).
ghost use Rattle.std.specs.Prelude.{◌≡◌};
ghost use Rattle.std.specs.Int.Signed.{shr_z};
ghost use Rattle.rules.specs.Stack as stack;
ghost use Rattle.rules.specs.Tests.{if_lt};
ghost use Rattle.rules.specs.Words.{sign, restore_to_range};

use crate::stack::{result, with_a};
use rules::Core;

pub fn bsub(s: Core) -> Core
    ensures { result ≡ stack.bsub s }
{
    result(words::at_byte(s.a, s.b), s)
}

pub fn wsub(s: Core) -> Core
    ensures { result ≡ stack.wsub s }
{
    result(words::at_word(s.a, s.b), s)
}

pub fn bcnt(s: Core) -> Core
    ensures { result ≡ stack.bcnt s }
{
    with_a(s.a << 2, s)
}

// Divides a signed word by 4, rounding down: shifts right by two bits and copies the sign.
#[tactic(auto, unfolding(rules::specs::Words::sign, rules::specs::Words::restore_to_range, rules::specs::Tests::if_lt))]
pub fn quarter(x: u32) -> u32
    ensures { result ≡ restore_to_range (shr_z (sign x) 4) }
{
    if x < 0x8000_0000 { x >> 2 } else { !(!x >> 2) }
}

// Word count: A becomes the count, by a shift that copies the sign, and B the byte selector.
pub fn wcnt(s: Core) -> Core
    ensures { result ≡ stack.wcnt s }
{
    Core {
        a: quarter(s.a),
        b: s.a & 3,
        c: s.b,
        ..s
    }
}

pub fn and(s: Core) -> Core
    ensures { result ≡ stack.and s }
{
    result(s.a & s.b, s)
}

pub fn or(s: Core) -> Core
    ensures { result ≡ stack.or s }
{
    result(s.b | s.a, s)
}

pub fn xor(s: Core) -> Core
    ensures { result ≡ stack.xor s }
{
    result(s.b ^ s.a, s)
}

pub fn bitnot(s: Core) -> Core
    ensures { result ≡ stack.bitnot s }
{
    with_a(!s.a, s)
}

// Wraps the registers of an operation that completes.
pub fn completed(s: Core) -> Option<Core>
    ensures { result ≡ stack.completed s }
{
    Some(s)
}

// Wraps the registers of an operation that Stops: an IF of 000 with no true branch.
pub fn stopped(_s: Core) -> Option<Core>
    ensures { result ≡ stack.stopped _s }
{
    None
}

// Completes with the registers t of an operation, or Stops where the count A of the registers s before it is above limit.
#[tactic(auto, unfolding(rules::specs::Tests::if_lt))]
pub fn counted(limit: u32, s: Core, t: Core) -> Option<Core>
    ensures { result ≡ if_lt limit s.a (stack.stopped s) (stack.completed t) }
{
    if limit < s.a {
        stopped(s)
    } else {
        completed(t)
    }
}

// Shift left: Stops where the count is above 32; by 32 every bit is lost.
// Kept, point 2: shr shifts the other way, each one line over counted and a method of std (d).
#[tactic(auto, unfolding(rules::specs::Stack::shl, rules::specs::Tests::if_lt))]
pub fn shl(s: Core) -> Option<Core>
    ensures { result ≡ stack.shl s }
{
    counted(32, s, result(s.b.checked_shl(s.a).unwrap_or(0), s))
}

#[tactic(auto, unfolding(rules::specs::Stack::shr, rules::specs::Tests::if_lt))]
pub fn shr(s: Core) -> Option<Core>
    ensures { result ≡ stack.shr s }
{
    counted(32, s, result(s.b.checked_shr(s.a).unwrap_or(0), s))
}
