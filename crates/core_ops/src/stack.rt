// Evaluation stack, operand, workspace and instruction pointer (000 1.2, 1.3, 1.11).
ghost use Rattle.std.specs.Prelude.{◌≡◌};
ghost use Rattle.rules.specs.Stack as stack;
ghost use Rattle.rules.specs.Core as core;

use rules::Core;
use rules::names::*;

// Pushes x: C := B; B := A; A := x.
pub fn push(x: u32, s: Core) -> Core
    ensures { result ≡ core.push x s }
{
    Core {
        a: x,
        b: s.a,
        c: s.b,
        ..s
    }
}

// Pops A: A := B; B := C; C keeps its value.
// Kept, point 2: rev and gcall set other registers, each one expression of its own definition; a function over both would be as long as the two (d).
pub fn pop(s: Core) -> Core
    ensures { result ≡ core.pop s }
{
    Core {
        a: s.b,
        b: s.c,
        ..s
    }
}

// Replaces the operands A and B by the result x: A := x; B := C.
pub fn result(x: u32, s: Core) -> Core
    ensures { result ≡ core.result x s }
{
    Core { a: x, b: s.c, ..s }
}

// Assigns A := x.
pub fn with_a(x: u32, s: Core) -> Core
    ensures { result ≡ core.with_a x s }
{
    Core { a: x, ..s }
}

// Moves Wdesc to a new workspace; ORs the old priority in (DECISIONS 12).
pub fn move_workspace(wptr: u32, s: Core) -> Core
    ensures { result ≡ core.move_workspace wptr s }
{
    Core {
        wdesc: wptr | words::priority_of(s.wdesc),
        ..s
    }
}

// Kept, point 2: ajw moves the workspace to the address that this pushes; each is one expression of its own definition (d).
pub fn ldlp(s: Core) -> Core
    ensures { result ≡ stack.ldlp s }
{
    push(words::at_word(words::wptr_of(s.wdesc), s.oreg), s)
}

pub fn ldnlp(s: Core) -> Core
    ensures { result ≡ stack.ldnlp s }
{
    with_a(words::at_word(s.a, s.oreg), s)
}

pub fn ldc(s: Core) -> Core
    ensures { result ≡ stack.ldc s }
{
    push(s.oreg, s)
}

#[tactic(auto, unfolding(rules::specs::Stack::eqc, rules::specs::Tests::if_eq))]
pub fn eqc(s: Core) -> Core
    ensures { result ≡ stack.eqc s }
{
    with_a(u32::from(s.a == s.oreg), s)
}

// Conditional jump: keeps the stack where the jump is taken, else pops A (DECISIONS 8).
#[tactic(auto, unfolding(rules::specs::Stack::cj, rules::specs::Tests::if_eq))]
pub fn cj(s: Core) -> Core
    ensures { result ≡ stack.cj s }
{
    if s.a == 0 {
        Core {
            iptr: words::at_byte(s.iptr, s.oreg),
            ..s
        }
    } else {
        pop(s)
    }
}

pub fn ajw(s: Core) -> Core
    ensures { result ≡ stack.ajw s }
{
    move_workspace(words::at_word(words::wptr_of(s.wdesc), s.oreg), s)
}

// Kept, point 2: nfix prefixes the complement, each one expression of its own definition; a function over both would be as long as the two (d).
pub fn pfix(s: Core) -> Core
    ensures { result ≡ stack.pfix s }
{
    Core {
        oreg: words::prefixed(s.oreg),
        ..s
    }
}

pub fn nfix(s: Core) -> Core
    ensures { result ≡ stack.nfix s }
{
    Core {
        oreg: words::negative_prefixed(s.oreg),
        ..s
    }
}

pub fn rev(s: Core) -> Core
    ensures { result ≡ stack.rev s }
{
    Core {
        a: s.b,
        b: s.a,
        ..s
    }
}

pub fn ldpi(s: Core) -> Core
    ensures { result ≡ stack.ldpi s }
{
    with_a(words::at_byte(s.iptr, s.a), s)
}

// General adjust workspace: masks nothing, so an odd A at high priority makes the priority low (DECISIONS 12).
pub fn gajw(s: Core) -> Core
    ensures { result ≡ stack.gajw s }
{
    with_a(words::wptr_of(s.wdesc), move_workspace(s.a, s))
}

pub fn gcall(s: Core) -> Core
    ensures { result ≡ stack.gcall s }
{
    Core {
        a: s.iptr,
        iptr: s.a,
        ..s
    }
}

pub fn mint(s: Core) -> Core
    ensures { result ≡ stack.mint s }
{
    push(MIN_INT, s)
}

pub fn ldpri(s: Core) -> Core
    ensures { result ≡ stack.ldpri s }
{
    push(words::priority_of(s.wdesc), s)
}

pub fn testpranal(s: Core) -> Core
    ensures { result ≡ stack.testpranal s }
{
    push(0, s)
}
