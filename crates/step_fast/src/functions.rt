// The functions of common steps, on the seven registers after the fetch (000 1.11).
ghost use Rattle.std.specs.Prelude.{◌≡◌};
ghost use Rattle.step_fast.specs.Fast as fast;

use crate::{FastStep, Stored};
use core_arith::word;
use core_ops::stack;
use rules::names::*;
use rules::{Core, REGISTERS};
use step_pending::pending;

// The length of a call frame in words, and its negative.
const FRAME_WORDS: u32 = 4;

const MINUS_FRAME: u32 = 0xFFFF_FFFC;

// Finishes a step: Oreg becomes 0.
fn finish(s: Core, stored: Stored) -> FastStep
    ensures { result ≡ fast.finished s stored }
{
    FastStep {
        core: Core { oreg: 0, ..s },
        stored,
    }
}

// Finishes a prefix: Oreg keeps its value.
fn prefix(s: Core) -> Option<FastStep>
    ensures { result ≡ fast.prefix s }
{
    Some(FastStep {
        core: s,
        stored: Stored::Nothing,
    })
}

// Finishes a step on registers alone if Status did not change, else declines: t is the registers after it, status the one before.
#[tactic(auto, unfolding(crate::specs::Fast::if_same_status, rules::specs::Tests::if_eq))]
fn finish_if_same_status(status: u32, t: Core) -> Option<FastStep>
    ensures { result ≡ fast.if_same_status status t }
{
    if t.status == status {
        return Some(finish(t, Stored::Nothing));
    }
    None
}

// Kept, point 2: ldnl reads at A and keeps the stack; the address and the registers after it are all that either says (d).
#[tactic(auto, unfolding(crate::specs::Fast::ldl, rules::specs::Tests::if_lt))]
fn ldl(mem: &[u32], s: Core) -> Option<FastStep>
    ensures { result ≡ fast.ldl mem.now s }
{
    let i = words::index_of(words::at_word(words::wptr_of(s.wdesc), s.oreg));
    let at = i as usize;
    if at < mem.len() {
        return Some(finish(stack::push(mem[at], s), Stored::Nothing));
    }
    None
}

#[tactic(auto, unfolding(crate::specs::Fast::ldnl, rules::specs::Tests::if_lt))]
fn ldnl(mem: &[u32], s: Core) -> Option<FastStep>
    ensures { result ≡ fast.ldnl mem.now s }
{
    let i = words::index_of(words::at_word(s.a, s.oreg));
    let at = i as usize;
    if at < mem.len() {
        return Some(finish(stack::with_a(mem[at], s), Stored::Nothing));
    }
    None
}

// Kept, point 2: stnl stores B at A; the address, the value and the registers after it are all that either says (d).
#[tactic(auto, unfolding(crate::specs::Fast::stl, rules::specs::Tests::if_lt))]
fn stl(mem: &[u32], s: Core) -> Option<FastStep>
    ensures { result ≡ fast.stl mem.now s }
{
    let i = words::index_of(words::at_word(words::wptr_of(s.wdesc), s.oreg));
    if (i as usize) < mem.len() {
        return Some(finish(
            stack::pop(s),
            Stored::Word {
                index: i,
                value: s.a,
            },
        ));
    }
    None
}

#[tactic(auto, unfolding(crate::specs::Fast::stnl, rules::specs::Tests::if_lt))]
fn stnl(mem: &[u32], s: Core) -> Option<FastStep>
    ensures { result ≡ fast.stnl mem.now s }
{
    let i = words::index_of(words::at_word(s.a, s.oreg));
    if (i as usize) < mem.len() {
        return Some(finish(
            stack::with_a(s.c, s),
            Stored::Word {
                index: i,
                value: s.b,
            },
        ));
    }
    None
}

#[tactic(auto, unfolding(crate::specs::Fast::j))]
fn j(regs: [u32; REGISTERS], s: Core) -> Option<FastStep>
    ensures { result ≡ fast.j regs s }
{
    if pending::slice_ends(regs, s) {
        return None;
    }
    let t = Core {
        iptr: words::at_byte(s.iptr, s.oreg),
        ..s
    };
    Some(finish(t, Stored::Nothing))
}

// Enters a procedure: copies the return address to A, moves Wptr below the frame and jumps by Oreg.
#[tactic(auto, unfolding(crate::specs::Fast::entered))]
fn entered(s: Core) -> Core
    ensures { result ≡ fast.entered s }
{
    Core {
        a: s.iptr,
        iptr: words::at_byte(s.iptr, s.oreg),
        ..stack::move_workspace(words::at_word(words::wptr_of(s.wdesc), MINUS_FRAME), s)
    }
}

// Calls: stores the frame, whose highest word, top, is the one below Wptr, and enters the procedure. Declines where the four words are not in
// memory, one after the other.
#[tactic(auto, unfolding(crate::specs::Fast::call, rules::specs::Tests::if_lt, rules::specs::Tests::if_le))]
fn call(mem: &[u32], s: Core) -> Option<FastStep>
    ensures { result ≡ fast.call mem.now s }
{
    let top = words::index_of(words::at_word(words::wptr_of(s.wdesc), MINUS_ONE));
    if 3 <= top {
        if (top as usize) < mem.len() {
            return Some(finish(
                entered(s),
                Stored::Frame {
                    index: top - 3,
                    value: s.iptr,
                },
            ));
        }
        return None;
    }
    None
}

#[tactic(auto, unfolding(crate::specs::Fast::ret, rules::specs::Tests::if_lt))]
fn ret(mem: &[u32], s: Core) -> Option<FastStep>
    ensures { result ≡ fast.ret mem.now s }
{
    let wptr = words::wptr_of(s.wdesc);
    let at = words::index_of(words::at_word(wptr, 0)) as usize;
    if at < mem.len() {
        let mut t = stack::move_workspace(words::at_word(wptr, FRAME_WORDS), s);
        t.iptr = mem[at];
        return Some(finish(t, Stored::Nothing));
    }
    None
}

#[tactic(auto, unfolding(crate::specs::Fast::lb, rules::specs::Tests::if_lt))]
fn lb(mem: &[u32], s: Core) -> Option<FastStep>
    ensures { result ≡ fast.lb mem.now s }
{
    let at = words::index_of(s.a) as usize;
    if at < mem.len() {
        return Some(finish(
            stack::with_a(words::byte_of(words::selector(s.a), mem[at]), s),
            Stored::Nothing,
        ));
    }
    None
}

#[tactic(auto, unfolding(crate::specs::Fast::sb, rules::specs::Tests::if_lt))]
fn sb(mem: &[u32], s: Core) -> Option<FastStep>
    ensures { result ≡ fast.sb mem.now s }
{
    let i = words::index_of(s.a);
    let at = i as usize;
    if at < mem.len() {
        let value = words::with_byte(words::selector(s.a), s.b % 256, mem[at]);
        return Some(finish(stack::with_a(s.c, s), Stored::Word { index: i, value }));
    }
    None
}

// Does an operation on registers alone; declines every other.
#[tactic(auto, unfolding(crate::specs::Fast::table_operation))]
fn table_operation(code: u32, s: Core) -> Option<FastStep>
    ensures { result ≡ fast.table_operation code s }
{
    match core_table::register_operation(code, s) {
        Some(t) => finish_if_same_status(s.status, t),
        None => None,
    }
}

// Does lb, ret or sb, or an operation of the table. The table comes last, so that nothing has to be kept over its call.
#[tactic(auto, unfolding(crate::specs::Fast::operate, crate::specs::Fast::memory_operations))]
fn operate(mem: &[u32], code: u32, s: Core) -> Option<FastStep>
    ensures { result ≡ fast.operate mem.now code s }
{
    match code {
        0x01 => lb(mem, s),
        0x20 => ret(mem, s),
        0x3B => sb(mem, s),
        _ => table_operation(code, s),
    }
}

// Does the function of a code; regs are all registers before the step.
// Kept, point 7: the match is the table of the functions, a line a code, and each arm takes what it needs (d).
#[tactic(auto, unfolding(crate::specs::Fast::decode, crate::specs::Fast::functions))]
pub fn decode(mem: &[u32], regs: [u32; REGISTERS], code: u32, s: Core) -> Option<FastStep>
    ensures { result ≡ fast.decode mem.now regs code s }
{
    match code {
        0x0 => j(regs, s),
        0x1 => finish_if_same_status(s.status, stack::ldlp(s)),
        0x2 => prefix(stack::pfix(s)),
        0x3 => ldnl(mem, s),
        0x4 => finish_if_same_status(s.status, stack::ldc(s)),
        0x5 => finish_if_same_status(s.status, stack::ldnlp(s)),
        0x6 => prefix(stack::nfix(s)),
        0x7 => ldl(mem, s),
        0x8 => finish_if_same_status(s.status, word::adc(s)),
        0x9 => call(mem, s),
        0xA => finish_if_same_status(s.status, stack::cj(s)),
        0xB => finish_if_same_status(s.status, stack::ajw(s)),
        0xC => finish_if_same_status(s.status, stack::eqc(s)),
        0xD => stl(mem, s),
        0xE => stnl(mem, s),
        0xF => operate(mem, s.oreg, s),
        _ => None,
    }
}
