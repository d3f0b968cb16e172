// Queue pointers and clocks (000 1.11), on rules::Core and rules::System.
ghost use Rattle.std.specs.Prelude.{◌≡◌};
ghost use Rattle.rules.specs.Stack as stack;
ghost use Rattle.rules.specs.Core as core;

use crate::stack::{pop, push};
use rules::names::*;
use rules::{Both, Core, System};

// Kept, point 1: a test of bit 0 of a descriptor, as 000 makes it; a Level would be made and matched for the one test (d).
#[tactic(auto, unfolding(rules::specs::Stack::ldtimer, rules::specs::Tests::if_eq))]
pub fn ldtimer(s: Core, y: System) -> Core
    ensures { result ≡ stack.ldtimer s y }
{
    if words::priority_of(s.wdesc) == 0 {
        push(y.clock0, s)
    } else {
        push(y.clock1, s)
    }
}

// Pops A, which went into the system's registers.
fn popped(s: Core, system: System) -> Both
    ensures { result ≡ record { core = core.pop s; system = system } }
{
    Both {
        core: pop(s),
        system,
    }
}

pub fn sthf(s: Core, y: System) -> Both
    ensures { result ≡ stack.sthf s y }
{
    popped(s, System { front0: s.a, ..y })
}

pub fn sthb(s: Core, y: System) -> Both
    ensures { result ≡ stack.sthb s y }
{
    popped(s, System { back0: s.a, ..y })
}

pub fn stlf(s: Core, y: System) -> Both
    ensures { result ≡ stack.stlf s y }
{
    popped(s, System { front1: s.a, ..y })
}

pub fn stlb(s: Core, y: System) -> Both
    ensures { result ≡ stack.stlb s y }
{
    popped(s, System { back1: s.a, ..y })
}

pub fn sttimer(s: Core, y: System) -> Both
    ensures { result ≡ stack.sttimer s y }
{
    popped(
        s,
        System {
            clock0: s.a,
            clock1: s.a,
            prescaler: 0,
            flags: words::set_bits(CLOCKS_RUN, y.flags),
            ..y
        },
    )
}
