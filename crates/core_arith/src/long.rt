// Products, quotients, shifts and checks of two words (000 1.11, long arithmetic). Sums and differences are in long_sums.
ghost use Rattle.std.specs.Prelude.{◌≡◌, ◌/◌, ◌^◌};
ghost use Rattle.rules.specs.Stack as stack;

use crate::long_sums::{low_word, split};
use crate::signed::signed;
use core_ops::errors::{error_if, set_error_flag};
use core_ops::logic::counted;
use rules::Core;
use rules::names::*;

// Joins two words to one number of 64 bits.
// Kept, point 4: joins two words by a sum, as its definition does; std joins bytes, not words (d).
pub fn double(high: u32, low: u32) -> u64
    ensures { result ≡ stack.double high low }
{
    u64::from(high) * 0x1_0000_0000 + u64::from(low)
}

pub fn high_word(v: u64) -> u32
    ensures { result ≡ v / 2 ^ 32 }
{
    (v / 0x1_0000_0000) as u32
}

#[tactic(auto, unfolding(rules::specs::Stack::xdbl))]
pub fn xdbl(s: Core) -> Core
    ensures { result ≡ stack.xdbl s }
{
    let high = if signed(s.a) < 0 { MINUS_ONE } else { 0 };
    Core {
        b: high,
        c: s.b,
        ..s
    }
}

// Check single: sets the error flag unless every bit of the upper word is the lower word's sign.
#[tactic(auto, unfolding(rules::specs::Stack::csngl))]
pub fn csngl(s: Core) -> Core
    ensures { result ≡ stack.csngl s }
{
    let high = if signed(s.a) < 0 { MINUS_ONE } else { 0 };
    error_if(s.b != high, Core { b: s.c, ..s })
}

#[tactic(auto, using(crate::proofs::LongNaturals::product_fits))]
pub fn lmul(s: Core) -> Core
    ensures { result ≡ stack.lmul s }
{
    let v = u64::from(s.b) * u64::from(s.a) + u64::from(s.c);
    split(low_word(v), high_word(v), s)
}

#[tactic(auto, using(crate::proofs::LongNaturals::quotient_fits), unfolding(rules::specs::Stack::ldiv, rules::specs::Tests::if_le))]
pub fn ldiv(s: Core) -> Core
    ensures { result ≡ stack.ldiv s }
{
    if s.a <= s.c {
        return set_error_flag(s);
    }
    let v = double(s.c, s.b);
    let a = u64::from(s.a);
    split((v / a) as u32, (v % a) as u32, s)
}

// Normalise: shifts left by one bit a turn until the top bit is 1.
pub fn norm(s: Core) -> Core
    ensures { result ≡ stack.norm s }
{
    let mut v = double(s.b, s.a);
    if v == 0 {
        return Core { c: 64, ..s };
    }
    let mut n: u32 = 0;
    // Kept, point 3: leading zeros in place of this loop are document 02's No. 5, which lands by itself with this contract as it is (a).
    while v < 0x8000_0000_0000_0000 {
        v = v * 2;
        n += 1;
    }
    split(low_word(v), high_word(v), Core { c: n, ..s })
}

// Long shift left: A becomes the low word (DECISIONS 5). By 64 every bit is lost.
#[tactic(auto, unfolding(rules::specs::Stack::lshl, rules::specs::Tests::if_lt))]
pub fn lshl(s: Core) -> Option<Core>
    ensures { result ≡ stack.lshl s }
{
    let v = double(s.c, s.b).checked_shl(s.a).unwrap_or(0);
    counted(64, s, split(low_word(v), high_word(v), s))
}

// Long shift right: A becomes the high word (DECISIONS 5).
#[tactic(auto, unfolding(rules::specs::Stack::lshr, rules::specs::Tests::if_lt))]
pub fn lshr(s: Core) -> Option<Core>
    ensures { result ≡ stack.lshr s }
{
    let v = double(s.c, s.b).checked_shr(s.a).unwrap_or(0);
    counted(64, s, split(high_word(v), low_word(v), s))
}
