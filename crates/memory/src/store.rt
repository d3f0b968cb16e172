// Stores of a plan, and the indexed reads and writes of 000 1.5.
ghost use Rattle.std.specs.Prelude.{◌≡◌, List, ℕ, ◌<◌};
ghost use Rattle.rules.specs.Work as work;
ghost use Rattle.rules.specs.Registers as registers;
ghost use Rattle.plan.specs.View.{view, work_of, Room, Grown};

use crate::access::access;
use crate::loads::{load_byte, load_word, word_at};
use plan::{Log, Plan, append_word};
use rules::names::*;
use words::{at_word, index_of, selector, with_byte};

// Stores word v at address a.
pub fn store_word(log: &mut Log, mem: &[u32], a: u32, v: u32)
    requires { Room 1 log.old }
    ensures { ((regs : List ℕ) → view regs log.new ≡ work.store_word mem.now a v (view regs log.old)) × Grown 1 log.old log.new }
{
    access(log, mem, KIND_STORE, a);
    append_word(log, index_of(a), v);
}

// Stores byte b at address a, as a store of its word (DECISIONS 38).
pub fn store_byte(log: &mut Log, mem: &[u32], a: u32, b: u32)
    requires { (b < 256) × Room 1 log.old }
    ensures { ((regs : List ℕ) → view regs log.new ≡ work.store_byte mem.now a b (view regs log.old)) × Grown 1 log.old log.new }
{
    let v = with_byte(selector(a), b, word_at(log, mem, a));
    access(log, mem, KIND_STORE, a);
    append_word(log, index_of(a), v);
}

// RIndexWord (000 1.5): loads the word n words after base into register k.
pub fn r_index_word(plan: &mut Plan, mem: &[u32], base: u32, n: u32, k: usize)
    requires { (k < registers.registers) × Room 0 plan.old.log }
    ensures { (work_of plan.new ≡ work.r_index_word mem.now base n k (work_of plan.old)) × Grown 0 plan.old.log plan.new.log }
{
    let v = load_word(&mut plan.log, mem, at_word(base, n));
    plan.regs[k] = v;
}

// RIndexByte (000 1.5), with index 0: loads the byte at base into register k.
pub fn r_index_byte(plan: &mut Plan, mem: &[u32], base: u32, k: usize)
    requires { (k < registers.registers) × Room 0 plan.old.log }
    ensures { (work_of plan.new ≡ work.r_index_byte mem.now base k (work_of plan.old)) × Grown 0 plan.old.log plan.new.log }
{
    let v = load_byte(&mut plan.log, mem, base);
    plan.regs[k] = v;
}

// WIndexWord (000 1.5): stores v in the word n words after base.
pub fn w_index_word(log: &mut Log, mem: &[u32], base: u32, n: u32, v: u32)
    requires { Room 1 log.old }
    ensures { ((regs : List ℕ) → view regs log.new ≡ work.w_index_word mem.now base n v (view regs log.old)) × Grown 1 log.old log.new }
{
    store_word(log, mem, at_word(base, n), v);
}
