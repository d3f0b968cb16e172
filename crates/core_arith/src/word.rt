// Arithmetic of one word (000 1.11).
ghost use Rattle.std.specs.Prelude.{◌≡◌};
ghost use Rattle.rules.specs.Stack as stack;
ghost use Rattle.rules.specs.Core as core;

use crate::signed::{checked, overflow_check, quotient, remainder, signed};
use core_ops::errors::set_error_flag;
use core_ops::stack::result;
use rules::Core;
use rules::names::*;

pub fn adc(s: Core) -> Core
    ensures { result ≡ stack.adc s }
{
    overflow_check(signed(s.a) + signed(s.oreg), s)
}

pub fn add(s: Core) -> Core
    ensures { result ≡ stack.add s }
{
    checked(signed(s.b) + signed(s.a), s)
}

pub fn sub(s: Core) -> Core
    ensures { result ≡ stack.sub s }
{
    checked(signed(s.b) - signed(s.a), s)
}

pub fn mul(s: Core) -> Core
    ensures { result ≡ stack.mul s }
{
    checked(signed(s.b) * signed(s.a), s)
}

// Tests for a division with no result: by 0, or MinInt by -1.
#[tactic(auto, unfolding(rules::specs::Stack::undivided))]
pub fn undivided(s: Core) -> bool
    ensures { result ≡ stack.undivided s }
{
    (s.b == MIN_INT && s.a == MINUS_ONE) || s.a == 0
}

// Sets the error flag and B := C: div and rem where the division has no result.
pub fn division_error(s: Core) -> Core
    ensures { result ≡ core.set_error_flag (core.with_b s.c s) }
{
    set_error_flag(Core { b: s.c, ..s })
}

// Kept, point 2: rem is its twin but for quotient; a function over both would take one of two closures, and be as long as the two (d).
#[tactic(auto, unfolding(rules::specs::Stack::div, rules::specs::Stack::undivided))]
pub fn div(s: Core) -> Core
    ensures { result ≡ stack.div s }
{
    if undivided(s) {
        division_error(s)
    } else {
        result(quotient(s.b, s.a), s)
    }
}

#[tactic(auto, unfolding(rules::specs::Stack::rem, rules::specs::Stack::undivided))]
pub fn rem(s: Core) -> Core
    ensures { result ≡ stack.rem s }
{
    if undivided(s) {
        division_error(s)
    } else {
        result(remainder(s.b, s.a), s)
    }
}

pub fn gt(s: Core) -> Core
    ensures { result ≡ stack.gt s }
{
    result(u32::from(signed(s.a) < signed(s.b)), s)
}

#[tactic(auto, unfolding(rules::specs::Words::sign, rules::specs::Words::restore_to_range, rules::specs::Tests::if_lt))]
pub fn diff(s: Core) -> Core
    ensures { result ≡ stack.diff s }
{
    result(s.b.wrapping_sub(s.a), s)
}

#[tactic(auto, unfolding(rules::specs::Words::sign, rules::specs::Words::restore_to_range, rules::specs::Tests::if_lt))]
pub fn sum(s: Core) -> Core
    ensures { result ≡ stack.sum s }
{
    result(s.b.wrapping_add(s.a), s)
}

pub fn prod(s: Core) -> Core
    ensures { result ≡ stack.prod s }
{
    result(s.b.wrapping_mul(s.a), s)
}
