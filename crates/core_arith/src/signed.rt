// Signed numbers and OverflowCheck (000 1.1, 1.2). A whole number is an i64, which holds each sum, difference and product of two words.
ghost use Rattle.std.specs.Prelude.{◌≡◌, ◌<◌, ◌≤ℤ◌, ◌<ℤ◌, pos, neg_ℤ, int_div, int_rem};
ghost use Rattle.rules.specs.Stack as stack;
ghost use Rattle.rules.specs.Core as core;
ghost use Rattle.rules.specs.Words.{sign, restore_to_range};

use core_ops::errors::error_if;
use core_ops::stack::with_a;
use rules::Core;

// Sign: reads a word as a signed number.
#[tactic(auto, unfolding(rules::specs::Words::sign, rules::specs::Tests::if_lt))]
pub fn signed(x: u32) -> i64
    ensures value { result ≡ sign x }
    ensures above { neg_ℤ (pos 2147483648) ≤ℤ result }
    ensures below { result <ℤ pos 2147483648 }
{
    i64::from(x.cast_signed())
}

// RestoreToRange: returns the word of a whole number.
#[tactic(auto, unfolding(rules::specs::Words::restore_to_range))]
pub fn word_of(z: i128) -> u32
    ensures { result ≡ restore_to_range z }
{
    (z.cast_unsigned() % 0x1_0000_0000) as u32
}

// Assigns A := z; OverflowCheck (A).
#[tactic(auto, unfolding(rules::specs::Core::overflow_check, rules::specs::Words::overflows))]
pub fn overflow_check(z: i64, s: Core) -> Core
    ensures { result ≡ core.overflow_check z s }
{
    error_if(
        z < -0x8000_0000 || z > 0x7FFF_FFFF,
        with_a(word_of(i128::from(z)), s),
    )
}

// Assigns A := z; OverflowCheck (A); B := C.
pub fn checked(z: i64, s: Core) -> Core
    ensures { result ≡ stack.checked z s }
{
    overflow_check(z, Core { b: s.c, ..s })
}

// Divides signed words, rounding towards 0.
#[tactic(auto, unfolding(rules::specs::Words::sign, rules::specs::Tests::if_lt))]
pub fn quotient(b: u32, a: u32) -> u32
    requires { 0 < a }
    ensures { result ≡ restore_to_range (int_div (sign b) (sign a)) }
{
    word_of(i128::from(signed(b) / signed(a)))
}

// Returns the remainder of signed words, with the sign of b.
#[tactic(auto, unfolding(rules::specs::Words::sign, rules::specs::Tests::if_lt))]
pub fn remainder(b: u32, a: u32) -> u32
    requires { 0 < a }
    ensures { result ≡ restore_to_range (int_rem (sign b) (sign a)) }
{
    word_of(i128::from(signed(b) % signed(a)))
}
