// Undo (01, The journal): tests the pairs of the last record, writes them back, takes the registers out of it.
ghost use Rattle.std.specs.Prelude.{◌≡◌, false, ◌+◌, ◌*◌, ◌<◌, ◌≤◌, length, take, drop};
ghost use Rattle.rules.specs.Registers.{registers};
ghost use Rattle.rules.specs.Journal as journalRules;
ghost use Rattle.rules.specs.Calls.{outcome_of, undo_last};
ghost use Rattle.journal.specs.LastRecord.{record_bad};

use journal_record::bounds::EMPTY_RECORD;
use rules::{Answer, Machine, REGISTERS, Reply};

// Tests for JournalBad: one of the n pairs at a place has an index outside a memory of size words.
// Kept, point 5: the clause relates a place, a number of pairs and a slice; no type holds the three (d).
pub fn strays(journal: &[u32], at: usize, n: usize, size: usize) -> bool
    requires { at + 2 * n ≤ length journal.now }
    ensures { result ≡ journalRules.strays size (journalRules.pairs_at journal.now at n) }
{
    for k in 0..n {
        if size <= journal[at + 2 * k] as usize {
            return true;
        }
    }
    false
}

// Writes the n pairs at a place back into memory, first to last.
pub fn write_back(mem: &mut [u32], journal: &[u32], at: usize, n: usize)
    requires { (at + 2 * n ≤ length journal.now) × (journalRules.strays (length mem.old) (journalRules.pairs_at journal.now at n) ≡ false) }
    ensures { mem.new ≡ journalRules.write_back mem.old (journalRules.pairs_at journal.now at n) }
{
    for k in 0..n {
        let w = at + 2 * k;
        mem[journal[w] as usize] = journal[w + 1];
    }
}

// Reads the registers at a place.
pub fn get_regs(journal: &[u32], at: usize) -> [u32; REGISTERS]
    requires { at + registers ≤ length journal.now }
    ensures { result ≡ take registers (drop at journal.now) }
{
    let mut regs = [0; REGISTERS];
    for k in 0..REGISTERS {
        regs[k] = journal[at + k];
    }
    regs
}

// Tests for JournalBad: the last record is longer than used, or has an index outside a memory of so many words.
pub fn record_bad(journal: &[u32], used: usize, words: usize) -> bool
    requires { (0 < used) × (used ≤ length journal.now) }
    ensures { result ≡ record_bad journal.now used words }
{
    let pairs = journal[used - 1] as usize;
    let size = EMPTY_RECORD + 2 * pairs;
    used < size || strays(journal, used - size, pairs, words)
}

// Undoes the last record: restores registers and memory as before that call. Writes no journal word.
#[tactic(auto, using(journal_record::proofs::JournalBounds::bounds_good))]
pub fn undo_last(m: Machine, mem: &mut [u32], journal: &[u32]) -> Reply
    requires { (journalRules.bounds_bad (length journal.now) m.depth m.used ≡ false) × (0 < m.depth) × (record_bad journal.now m.used (length mem.old) ≡ false) }
    ensures { outcome_of result mem.new journal.now ≡ undo_last m mem.old journal.now }
{
    let pairs = journal[m.used - 1] as usize;
    let start = m.used - (EMPTY_RECORD + 2 * pairs);
    write_back(mem, journal, start, pairs);
    let machine = Machine {
        regs: get_regs(journal, m.used - EMPTY_RECORD),
        depth: m.depth - 1,
        used: start,
    };
    Reply {
        machine,
        answer: Answer::Done,
        byte: 0,
    }
}
