// Sums and differences of two words with carry (000 1.11, long arithmetic).
ghost use Rattle.std.specs.Prelude.{◌≡◌, ◌%◌, ◌^◌};
ghost use Rattle.rules.specs.Stack as stack;
ghost use Rattle.rules.specs.Core as core;

use crate::signed::{overflow_check, signed, word_of};
use rules::Core;

// Assigns the two words of a result: A := low; B := high.
pub fn split(low: u32, high: u32, s: Core) -> Core
    ensures { result ≡ core.with_a low (core.with_b high s) }
{
    Core {
        a: low,
        b: high,
        ..s
    }
}

pub fn low_word(v: u64) -> u32
    ensures { result ≡ v % 2 ^ 32 }
{
    (v % 0x1_0000_0000) as u32
}

// Returns the carry: bit 0 of C.
pub fn carry_in(s: Core) -> u32
    ensures { result ≡ stack.carry_in s }
{
    s.c & 1
}

// Kept, point 2: lsub takes away where this adds, each one expression of its own definition; a function over both would be as long as the two (d).
pub fn ladd(s: Core) -> Core
    ensures { result ≡ stack.ladd s }
{
    overflow_check(signed(s.b) + signed(s.a) + i64::from(carry_in(s)), s)
}

pub fn lsub(s: Core) -> Core
    ensures { result ≡ stack.lsub s }
{
    overflow_check(signed(s.b) - signed(s.a) - i64::from(carry_in(s)), s)
}

// Long sum: sets the carry only where the sum is above 2^32, by the letter of 000 (DECISIONS 4).
// Kept, point 2: ldiff takes away where this adds, and borrows by another test; each follows its own definition (d).
#[tactic(auto, unfolding(rules::specs::Stack::lsum, rules::specs::Tests::if_lt))]
pub fn lsum(s: Core) -> Core
    ensures { result ≡ stack.lsum s }
{
    let v = u64::from(s.b) + u64::from(s.a) + u64::from(carry_in(s));
    split(low_word(v), u32::from(v > 0x1_0000_0000), s)
}

#[tactic(auto, unfolding(rules::specs::Stack::ldiff, rules::specs::Tests::if_lt))]
pub fn ldiff(s: Core) -> Core
    ensures { result ≡ stack.ldiff s }
{
    let z = i64::from(s.b) - i64::from(s.a) - i64::from(carry_in(s));
    split(word_of(i128::from(z)), u32::from(z < 0), s)
}
