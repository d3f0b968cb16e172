// Commits a call that makes no plan: a common step (step_fast), whose record has no pair, one or four, and a tick, which changes
// registers alone. Writes the words that the commit of a plan (journal::commit) would write; mirrors `commit_or_refuse` of
// rules/specs/Calls.antt.
#![tactic(auto)]

ghost use Rattle.std.specs.Prelude.{◌≡◌, false, not, [], ◌∷◌, ◌+◌, ◌-◌, ◌*◌, ◌^◌, ◌<◌, ◌≤◌, ltb, length, get_or};
ghost use Rattle.std.proofs.lemmas.List.Edits.{sets};
ghost use Rattle.rules.specs.Registers.{with_core};
ghost use Rattle.rules.specs.Memory.{word};
ghost use Rattle.rules.specs.Work.{begin};
ghost use Rattle.rules.specs.Journal.{record_length, olds, bounds_bad};
ghost use Rattle.rules.specs.Calls.{outcome_of, commit_or_refuse};
ghost use Rattle.step_fast.specs.Fast.{stores_of, fast_work};
ghost use Rattle.journal_record.specs.Indices.{range};
ghost use Rattle.journal_small.specs.Kept.{Kept, frame_stores};

use journal_record::bounds::{EMPTY_RECORD, is_full};
use journal_record::record::put_tail;
use rules::names::*;
use rules::{Answer, Core, Machine, REGISTERS, Reply};
use step_fast::{FastStep, Stored};

// The words of a frame.
const FRAME_WORDS: usize = 4;

// The most pairs that the record of a common step has: the frame of a call.
const MOST_PAIRS: usize = 4;

// The first index from which a frame would have an index that is no word.
const FRAME_LIMIT: u32 = 0xFFFF_FFFD;

// Sets registers 0 to 6 to the values of s.
// Kept, point 2: as plan::put_core, on registers by value; a common step has no plan (d).
fn with_core(regs: [u32; REGISTERS], s: Core) -> [u32; REGISTERS]
    ensures { result ≡ with_core s regs }
{
    let mut t = regs;
    t[IPTR_REG] = s.iptr;
    t[WDESC_REG] = s.wdesc;
    t[AREG] = s.a;
    t[BREG] = s.b;
    t[CREG] = s.c;
    t[OREG] = s.oreg;
    t[STATUS_REG] = s.status;
    t
}

// Writes a pair: the index and the word of memory there.
fn put_pair(journal: &mut [u32], mem: &[u32], i: u32, at: usize)
    requires { (at + 2 ≤ length journal.old) × (i < length mem.now) }
    ensures { journal.new ≡ sets journal.old at (i ∷ get_or mem.now i 0 ∷ []) }
{
    let k = i as usize;
    let next = at + 1;
    journal[at] = i;
    journal[next] = mem[k];
}

// Writes the pairs of the n words from word i on.
// Kept, point 2: as put_range_pairs of journal_record, which takes the span of an outline; a common step has none (d).
fn put_pairs(journal: &mut [u32], mem: &[u32], n: usize, i: u32, at: usize)
    requires { (i + n ≤ length mem.now) × (i + n ≤ 2 ^ 32) × (at + 2 * n ≤ length journal.old) }
    ensures { journal.new ≡ sets journal.old at (olds mem.now (range i n)) }
{
    for k in 0..n {
        put_pair(journal, mem, i + k as u32, at + 2 * k);
    }
}

// Stores a value in word index, after its pair; outside memory does nothing. Returns the number of pairs.
fn store_word(journal: &mut [u32], mem: &mut [u32], index: u32, value: u32, at: usize) -> usize
    requires { at + 2 ≤ length journal.old }
    ensures { Kept mem.old journal.old at (word index value ∷ []) result mem.new journal.new }
{
    let i = index as usize;
    if i < mem.len() {
        put_pair(journal, mem, index, at);
        mem[i] = value;
        return 1;
    }
    0
}

// Stores the words of a frame from word index on, as far as memory goes, after their pairs; does nothing where an index would be no word. Returns
// the number of pairs.
fn store_frame(
    journal: &mut [u32],
    mem: &mut [u32],
    index: u32,
    frame: [u32; FRAME_WORDS],
    at: usize,
) -> usize
    requires { at + 8 ≤ length journal.old }
    ensures { Kept mem.old journal.old at (frame_stores index frame) result mem.new journal.new }
{
    let i = index as usize;
    if FRAME_LIMIT <= index || mem.len() <= i {
        return 0;
    }
    let n = (mem.len() - i).min(FRAME_WORDS);
    put_pairs(journal, mem, n, index, at);
    mem[i..i + n].copy_from_slice(&frame[..n]);
    n
}

// Stores what a common step stores, after the pairs of the words; regs are the registers before the step. Returns the number of pairs.
fn store(
    journal: &mut [u32],
    mem: &mut [u32],
    t: FastStep,
    regs: &[u32; REGISTERS],
    at: usize,
) -> usize
    requires { at + 8 ≤ length journal.old }
    ensures { Kept mem.old journal.old at (stores_of regs.now t) result mem.new journal.new }
{
    match t.stored {
        Stored::Nothing => 0,
        Stored::Word { index, value } => store_word(journal, mem, index, value, at),
        Stored::Frame { index, value } => {
            store_frame(
                journal,
                mem,
                index,
                [value, regs[AREG], regs[BREG], regs[CREG]],
                at,
            )
        }
    }
}

// Tests for room: the record of any common step fits after used.
pub fn has_room(size: usize, used: usize) -> bool
    requires { used ≤ size }
    ensures { result ≡ not (ltb size (used + record_length 4)) }
{
    !is_full(size, used, MOST_PAIRS)
}

// Tests for JournalFull: a record without pairs does not fit after used.
pub fn is_full_for_registers(size: usize, used: usize) -> bool
    requires { used ≤ size }
    ensures { result ≡ ltb size (used + record_length 0) }
{
    is_full(size, used, 0)
}

// Commits a common step. One function and no helpers for machine and reply, since each hand-over would copy them.
pub fn commit_common(m: Machine, t: FastStep, mem: &mut [u32], journal: &mut [u32]) -> Reply
    requires { (bounds_bad (length journal.old) m.depth m.used ≡ false) × (m.used + record_length 4 ≤ length journal.old) }
    ensures { outcome_of result mem.new journal.new ≡ commit_or_refuse m mem.old journal.old 0 (fast_work m.regs t) }
{
    let used = m.used;
    let old = m.regs;
    let n = store(journal, mem, t, &old, used);
    put_tail(journal, old, n as u32, used + 2 * n);
    let regs = with_core(old, t.core);
    let machine = Machine {
        regs,
        depth: m.depth + 1,
        used: used + (EMPTY_RECORD + 2 * n),
    };
    Reply {
        machine,
        answer: Answer::Done,
        byte: 0,
    }
}

// Commits a call that changes registers alone: they become regs.
pub fn commit_regs(m: Machine, regs: [u32; REGISTERS], mem: &[u32], journal: &mut [u32]) -> Reply
    requires { (bounds_bad (length journal.old) m.depth m.used ≡ false) × (m.used + record_length 0 ≤ length journal.old) }
    ensures { outcome_of result mem.now journal.new ≡ commit_or_refuse m mem.now journal.old 0 (begin regs) }
{
    let used = m.used;
    let old = m.regs;
    put_tail(journal, old, 0, used);
    let machine = Machine {
        regs,
        depth: m.depth + 1,
        used: used + EMPTY_RECORD,
    };
    Reply {
        machine,
        answer: Answer::Done,
        byte: 0,
    }
}
