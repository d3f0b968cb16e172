// The parts of a record (01, The journal): a pair for each word stored to, which is its index and its value before the call;
// and the registers before the call.
ghost use Rattle.std.specs.Prelude.{◌≡◌, ◌+◌, ◌*◌, ◌≤◌, length};
ghost use Rattle.std.proofs.lemmas.List.Edits.{sets};
ghost use Rattle.rules.specs.Registers.{registers};
ghost use Rattle.rules.specs.Journal as journalRules;
ghost use Rattle.laws.specs.Lists.{Below};
ghost use Rattle.journal_record.specs.Indices.{range};
ghost use Rattle.journal_record.specs.Outline.{Outlined, count_of, listed};

use crate::outline::{Outline, Span};
use rules::REGISTERS;

// Writes the pairs of the words ks.
fn put_single_pairs(journal: &mut [u32], mem: &[u32], ks: &[u32], at: usize)
    requires { (at + 2 * length ks.now ≤ length journal.old) × Below (length mem.now) ks.now }
    ensures { journal.new ≡ sets journal.old at (journalRules.olds mem.now ks.now) }
{
    for (k, i) in ks.iter().enumerate() {
        let w = at + 2 * k;
        journal[w] = *i;
        journal[w + 1] = mem[*i as usize];
    }
}

// Writes the pairs of the words of a span.
// Goes over the indices, and not from 0: an index that is a sum is worked out pair by pair, where several pairs are written at once.
// Kept, point 2: its indices are counted, those of put_single_pairs stand in a list; one function over both would take a closure with a contract (d).
fn put_range_pairs(journal: &mut [u32], mem: &[u32], span: Span, at: usize)
    requires { (span.lo + span.c ≤ length mem.now) × (at + 2 * span.c ≤ length journal.old) }
    ensures { journal.new ≡ sets journal.old at (journalRules.olds mem.now (range span.lo span.c)) }
{
    for i in span.lo..span.lo + span.c {
        let w = at + 2 * (i - span.lo);
        journal[w] = i as u32;
        journal[w + 1] = mem[i];
    }
}

// Writes the pairs of all words of an outline.
pub fn put_pairs(journal: &mut [u32], mem: &[u32], o: &Outline, at: usize)
    requires { Outlined (length mem.now) o.now × (at + 2 * count_of o.now ≤ length journal.old) }
    ensures { journal.new ≡ sets journal.old at (journalRules.olds mem.now (listed o.now)) }
{
    let span = at + 2 * o.low;
    let above = span + 2 * o.span.c;
    put_single_pairs(journal, mem, &o.ix[..o.low], at);
    put_range_pairs(journal, mem, o.span, span);
    put_single_pairs(journal, mem, &o.ix[o.mid..o.end], above);
}

// Writes the registers.
// A for, and not copy_from_slice: that one copies the registers to the stack first, and tests for overlap.
pub fn put_regs(journal: &mut [u32], regs: [u32; REGISTERS], at: usize)
    requires { at + registers ≤ length journal.old }
    ensures { journal.new ≡ sets journal.old at regs }
{
    for k in 0..REGISTERS {
        journal[at + k] = regs[k];
    }
}
