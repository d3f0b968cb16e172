// The memory and registers of a fresh machine (01, Memory and registers). Mirrors the section on fresh of rules/specs/Calls.antt.
#![tactic(auto)]

ghost use Rattle.std.specs.Prelude.{◌≡◌, ◌<◌, ◌≤◌, length, get_or};
ghost use Rattle.rules.specs.Calls as calls;

use rules::names::*;
use rules::{Machine, REGISTERS};

// Tests for CodeSize: no code, or no whole word left after n bytes of code in a memory of size words.
#[tactic(auto, unfolding(rules::specs::Calls::code_bad))]
pub fn code_bad(size: usize, n: usize) -> bool
    requires { (64 ≤ size) × (size ≤ 16384) }
    ensures { result ≡ calls.code_bad size n }
{
    n == 0 || 4 * (size - MEM_START_WORD - 1) < n
}

// Returns byte k of the code, 0 past its end.
fn code_byte(code: &[u8], k: usize) -> u8
    ensures { result ≡ get_or code.now k 0 }
{
    code.get(k).copied().unwrap_or(0)
}

// Returns word k of the code; byte 0 is the least significant.
#[tactic(auto, unfolding(rules::specs::Calls::code_word))]
fn code_word(code: &[u8], k: usize) -> u32
    requires { k ≤ 16384 }
    ensures { result ≡ calls.code_word code.now k }
{
    let at = 4 * k;
    u32::from_le_bytes([
        code_byte(code, at),
        code_byte(code, at + 1),
        code_byte(code, at + 2),
        code_byte(code, at + 3),
    ])
}

// Returns word i of a fresh memory: NotProcess.p in words 0 to 11, the code at MemStart, else 0.
#[tactic(auto, unfolding(rules::specs::Calls::fresh_word, rules::specs::Tests::if_lt))]
fn fresh_word(code: &[u8], i: usize) -> u32
    requires { i ≤ 16384 }
    ensures { result ≡ calls.fresh_word code.now i }
{
    if i < 12 {
        return NOT_PROCESS;
    }
    if i < MEM_START_WORD {
        return 0;
    }
    code_word(code, i - MEM_START_WORD)
}

// Fills memory: every word, from the code.
pub fn fill(mem: &mut [u32], code: &[u8])
    requires { length mem.old ≤ 16384 }
    ensures { mem.new ≡ calls.fresh_memory code.now 0 (length mem.old) }
{
    for (i, word) in mem.iter_mut().enumerate() {
        *word = fresh_word(code, i);
    }
}

// Returns the registers for n bytes of code: Iptr at MemStart, Wptr after the code at low priority, both queues empty.
#[tactic(auto, unfolding(rules::specs::Calls::fresh_regs))]
fn fresh_regs(n: usize) -> [u32; REGISTERS]
    requires { n ≤ 65536 }
    ensures { result ≡ calls.fresh_regs n }
{
    let words = ((n + 3) / 4) as u32;
    let top = MEM_START + 4 * words;
    let mut regs = [0; REGISTERS];
    regs[IPTR_REG] = MEM_START;
    regs[WDESC_REG] = top | 1;
    regs[FPTR_REG_HIGH] = NOT_PROCESS;
    regs[FPTR_REG_LOW] = NOT_PROCESS;
    regs
}

// Returns the machine with n bytes of code loaded.
pub fn fresh_machine(n: usize) -> Machine
    requires { n ≤ 65536 }
    ensures { result ≡ calls.machine_of (calls.fresh_regs n) 0 0 }
{
    Machine {
        regs: fresh_regs(n),
        depth: 0,
        used: 0,
    }
}

// Returns the machine of a refused fresh: all 0.
pub fn no_machine() -> Machine
    ensures { result ≡ calls.no_machine }
{
    Machine {
        regs: [0; REGISTERS],
        depth: 0,
        used: 0,
    }
}
