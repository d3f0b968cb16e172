// Error flag and halt-on-error, and the checks that set the error flag (000 1.2, 1.11).
ghost use Rattle.std.specs.Prelude.{◌≡◌};
ghost use Rattle.rules.specs.Stack as stack;
ghost use Rattle.rules.specs.Core as core;

use crate::stack::{pop, push};
use rules::Core;
use rules::names::*;

// Kept, point 2: sethalterr sets another bit, each one expression of its own definition; a function over both would be as long as the two (d).
pub fn set_error_flag(s: Core) -> Core
    ensures { result ≡ core.set_error_flag s }
{
    Core {
        status: words::set_bits(ERROR_FLAG, s.status),
        ..s
    }
}

// Kept, point 2: clrhalterr clears another bit, each one expression of its own definition; a function over both would be as long as the two (d).
pub fn clear_error_flag(s: Core) -> Core
    ensures { result ≡ core.clear_error_flag s }
{
    Core {
        status: words::clear_bits(ERROR_FLAG, s.status),
        ..s
    }
}

pub fn error_if(test: bool, s: Core) -> Core
    ensures { result ≡ core.error_if test s }
{
    if test { set_error_flag(s) } else { s }
}

// Check subscript from 0, unsigned.
#[tactic(auto, unfolding(rules::specs::Stack::csub0))]
pub fn csub0(s: Core) -> Core
    ensures { result ≡ stack.csub0 s }
{
    error_if(s.a <= s.b, pop(s))
}

// Check count from 1, unsigned: a count of 0 is an error too.
#[tactic(auto, unfolding(rules::specs::Stack::ccnt1))]
pub fn ccnt1(s: Core) -> Core
    ensures { result ≡ stack.ccnt1 s }
{
    error_if(s.b == 0 || s.a < s.b, pop(s))
}

#[tactic(auto, unfolding(rules::specs::Stack::testerr, rules::specs::Tests::if_eq))]
pub fn testerr(s: Core) -> Core
    ensures { result ≡ stack.testerr s }
{
    clear_error_flag(push(u32::from(s.status & ERROR_FLAG == 0), s))
}

pub fn seterr(s: Core) -> Core
    ensures { result ≡ stack.seterr s }
{
    set_error_flag(s)
}

pub fn clrhalterr(s: Core) -> Core
    ensures { result ≡ stack.clrhalterr s }
{
    Core {
        status: words::clear_bits(HALT_ON_ERROR_BIT, s.status),
        ..s
    }
}

pub fn sethalterr(s: Core) -> Core
    ensures { result ≡ stack.sethalterr s }
{
    Core {
        status: words::set_bits(HALT_ON_ERROR_BIT, s.status),
        ..s
    }
}

#[tactic(auto, unfolding(rules::specs::Stack::testhalterr, rules::specs::Tests::if_eq))]
pub fn testhalterr(s: Core) -> Core
    ensures { result ≡ stack.testhalterr s }
{
    push(u32::from(s.status & HALT_ON_ERROR_BIT != 0), s)
}
