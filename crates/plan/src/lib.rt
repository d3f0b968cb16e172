// The plan of a call (DECISIONS 44): registers, stores in program order (single words, at most one block move), first refusal. Memory changes
// only at the commit. A plan has the registers, and a log of the stores and the refusal. A function takes what it touches: on
// registers alone it holds for any log, on the log alone for any registers. Here are the registers and refusals of a plan
// (rules/specs/Work.antt); accesses are in the crate memory.
#![tactic(auto)]

pub mod channel; // a hard channel and its registers
pub mod level; // a priority and its registers
pub mod operands; // evaluation stack, Wptr and Iptr of a plan

ghost use Rattle.std.specs.Prelude.{◌≡◌, List, ℕ, ◌<◌, length};
ghost use Rattle.rules.specs.Memory.{word, bytes};
ghost use Rattle.rules.specs.Work as work;
ghost use Rattle.rules.specs.Registers as registers;
ghost use Rattle.plan.specs.View.{view, work_of, count_of, Room, Grown, Ended};

use rules::names::*;
use rules::{Both, Core, REGISTERS, System};

// The most single stores of a plan.
pub const SINGLES: usize = 16;

// A single store: a value, and the index of the memory word that gets it.
#[derive(Clone, Copy, Debug, PartialEq, Eq)]
pub struct Single {
    pub index: u32,
    pub value: u32,
}

// The block move: count bytes from source to target, both in bytes from the start of memory. A count of 0 moves nothing.
// Kept, point 1: 01 lets a move of 0 bytes move nothing, and a log may come with any block, so no Option (a).
#[derive(Clone, Copy, Debug, PartialEq, Eq)]
pub struct BlockMove {
    pub source: u32,
    pub target: u32,
    pub count: u32,
}

// The first refusal: its number, or 0 where there is none; kind and byte address of the access that was refused, or 0.
// Kept, point 1: refuse_at and memory::access, which docs/INDEX.md names, take any number and any kind; an enum would ask more of callers.
#[derive(Clone, Copy, Debug, PartialEq, Eq)]
pub struct Refusal {
    pub number: u32,
    pub kind: u32,
    pub address: u32,
}

// The log of a plan: the first number of singles are its single stores, in program order; the first cut of them come before the block move.
// Kept, point 6: a fixed array with its number beside it, since there is no heap; no bound ties the two, so that any log may be lent (a).
#[derive(Drop)]
pub struct Log {
    pub singles: [Single; SINGLES],
    pub number: usize,
    pub cut: usize,
    pub block: BlockMove,
    pub refusal: Refusal,
}

// The plan of a call: the registers as they are to be, and the log.
// Kept, point 5: memory is lent beside it, since in it each contract would need a clause that it is the same memory afterwards (d).
#[derive(Drop)]
pub struct Plan {
    pub regs: [u32; REGISTERS],
    pub log: Log,
}

// Makes a log: no store, no move, no refusal.
pub fn empty_log() -> Log
    ensures { ((regs : List ℕ) → view regs result ≡ work.begin regs) × Room 16 result × (count_of result ≡ 0) }
{
    Log {
        singles: [Single { index: 0, value: 0 }; SINGLES],
        number: 0,
        cut: 0,
        block: BlockMove {
            source: 0,
            target: 0,
            count: 0,
        },
        refusal: Refusal {
            number: 0,
            kind: 0,
            address: 0,
        },
    }
}

// Starts a plan: no store, no move, no refusal.
pub fn begin(log: &mut Log)
    ensures { ((regs : List ℕ) → view regs log.new ≡ work.begin regs) × Room 16 log.new × (count_of log.new ≡ 0) }
{
    log.number = 0;
    log.cut = 0;
    log.block.count = 0;
    log.refusal = Refusal {
        number: 0,
        kind: 0,
        address: 0,
    };
}

// Sets the bits of mask in register k.
// Kept, point 5: k is a number of the 45 registers, a constant or worked out of a channel or level; a type would wrap each constant (d).
pub fn raise(regs: &mut [u32; REGISTERS], k: usize, mask: u32)
    requires { k < registers.registers }
    ensures { (log : Log) → view regs.new log ≡ work.raise k mask (view regs.old log) }
{
    regs[k] = regs[k] | mask;
}

// Clears the bits of mask in register k.
pub fn lower(regs: &mut [u32; REGISTERS], k: usize, mask: u32)
    requires { k < registers.registers }
    ensures { (log : Log) → view regs.new log ≡ work.lower k mask (view regs.old log) }
{
    regs[k] = regs[k] & !mask;
}

// Sets GotoSNPBit: the step will end with StartNextProcess (000 1.10, Wait).
pub fn goto_snp(regs: &mut [u32; REGISTERS])
    ensures { (log : Log) → view regs.new log ≡ work.goto_snp (view regs.old log) }
{
    raise(regs, STATUS_REG, GOTO_SNP_BIT);
}

// Reads registers 0 to 6, on which most operations work.
// Kept, point 4: this, put_core, system_of and put_system name each register by its number, as their definitions do; no From names them (d).
pub fn core_of(regs: &[u32; REGISTERS]) -> Core
    ensures { result ≡ registers.core_of regs.now }
{
    Core {
        iptr: regs[IPTR_REG],
        wdesc: regs[WDESC_REG],
        a: regs[AREG],
        b: regs[BREG],
        c: regs[CREG],
        oreg: regs[OREG],
        status: regs[STATUS_REG],
    }
}

// Writes registers 0 to 6.
pub fn put_core(regs: &mut [u32; REGISTERS], s: Core)
    ensures { (log : Log) → view regs.new log ≡ work.put_core s (view regs.old log) }
{
    regs[IPTR_REG] = s.iptr;
    regs[WDESC_REG] = s.wdesc;
    regs[AREG] = s.a;
    regs[BREG] = s.b;
    regs[CREG] = s.c;
    regs[OREG] = s.oreg;
    regs[STATUS_REG] = s.status;
}

// Reads the registers of the run queues and clocks, the prescaler and the flags.
pub fn system_of(regs: &[u32; REGISTERS]) -> System
    ensures { result ≡ registers.system_of regs.now }
{
    System {
        front0: regs[FPTR_REG_HIGH],
        back0: regs[BPTR_REG_HIGH],
        front1: regs[FPTR_REG_LOW],
        back1: regs[BPTR_REG_LOW],
        clock0: regs[CLOCK_REG_HIGH],
        clock1: regs[CLOCK_REG_LOW],
        prescaler: regs[PRESCALER_REG],
        flags: regs[FLAGS_REG],
    }
}

// Writes the registers that system_of reads.
pub fn put_system(regs: &mut [u32; REGISTERS], y: System)
    ensures { (log : Log) → view regs.new log ≡ work.put_system y (view regs.old log) }
{
    regs[FPTR_REG_HIGH] = y.front0;
    regs[BPTR_REG_HIGH] = y.back0;
    regs[FPTR_REG_LOW] = y.front1;
    regs[BPTR_REG_LOW] = y.back1;
    regs[CLOCK_REG_HIGH] = y.clock0;
    regs[CLOCK_REG_LOW] = y.clock1;
    regs[PRESCALER_REG] = y.prescaler;
    regs[FLAGS_REG] = y.flags;
}

// Writes the registers of Core and of System.
pub fn put_both(regs: &mut [u32; REGISTERS], t: Both)
    ensures { (log : Log) → view regs.new log ≡ work.put_both t (view regs.old log) }
{
    let s = t.core;
    let y = t.system;
    put_core(regs, s);
    put_system(regs, y);
}

// Refuses with the kind and address of an access; an earlier refusal stays.
// Kept, point 1: docs/INDEX.md names this function, and its contract holds for any number and any kind; an enum would ask more of callers.
pub fn refuse_at(log: &mut Log, number: u32, kind: u32, address: u32)
    ensures { ((regs : List ℕ) → view regs log.new ≡ work.refuse_at number kind address (view regs log.old)) × Grown 0 log.old log.new }
{
    if log.refusal.number == 0 {
        log.refusal = Refusal {
            number,
            kind,
            address,
        };
    }
}

// Refuses without an access.
// Kept, point 1: hands its number to refuse_at, which takes any; an enum here would be turned into the number at once.
pub fn refuse(log: &mut Log, number: u32)
    ensures { ((regs : List ℕ) → view regs log.new ≡ work.refuse number (view regs log.old)) × Grown 0 log.old log.new }
{
    refuse_at(log, number, 0, 0);
}

// Writes the registers of an operation, or refuses with STOP where the operation Stops (DECISIONS 26).
pub fn attempted(plan: &mut Plan, t: Option<Core>)
    ensures { (work_of plan.new ≡ work.attempted t (work_of plan.old)) × Grown 0 plan.old.log plan.new.log }
{
    match t {
        None => refuse(&mut plan.log, STOP),
        Some(s) => put_core(&mut plan.regs, s),
    }
}

// Appends a single store, unless the plan is refused.
// Kept, point 5: how much Room a log has to have differs from function to function, so no type can say it (d).
pub fn append_word(log: &mut Log, i: u32, v: u32)
    requires { Room 1 log.old }
    ensures { ((regs : List ℕ) → view regs log.new ≡ work.append (word i v) (view regs log.old)) × Grown 1 log.old log.new }
{
    if log.refusal.number == 0 {
        log.singles[log.number] = Single { index: i, value: v };
        log.number += 1;
    }
}

// Appends the move after the stores so far, unless the plan is refused.
// Kept, point 5: that a log has no move yet (count_of) holds only before one; a type for it would be a second plan (d).
pub fn append_move(log: &mut Log, s: u32, d: u32, n: u32)
    requires { (0 < n) × Room 0 log.old × (count_of log.old ≡ 0) }
    ensures { ((regs : List ℕ) → view regs log.new ≡ work.append (bytes s d n) (view regs log.old)) × Ended 0 log.old log.new }
{
    if log.refusal.number == 0 {
        log.cut = log.number;
        log.block = BlockMove {
            source: s,
            target: d,
            count: n,
        };
    }
}
