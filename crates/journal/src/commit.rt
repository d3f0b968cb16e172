// Commits a plan (01, The journal): writes the pairs of its record, makes its stores. The caller ends the record (journal_record::record) and makes
// the reply, so that registers are written once. journal_small commits a call that makes no plan.
ghost use Rattle.std.specs.Prelude.{◌≡◌, ◌+◌, ◌≤◌, length, IfOk};
ghost use Rattle.rules.specs.Journal as journalRules;
ghost use Rattle.plan.specs.View.{answer_of, kind_of, address_of, stores_of, Room};
ghost use Rattle.journal.specs.Effect.{effect_of, committed};

use crate::stores::make;
use journal_record::bounds::is_full;
use journal_record::parts::put_pairs;
use journal_record::touched::outline_of;
use plan::{Log, Refusal};
use rules::names::*;

// Kept, point 5: the sizes of memory and journal stand in contracts, since the public signatures lend both as slices (a).
// Writes the pairs at used and makes the stores. Returns how many pairs there are. Does nothing where the plan is refused, or where its record
// does not fit (JournalFull).
pub fn commit(
    log: &Log,
    used: usize,
    mem: &mut [u32],
    journal: &mut [u32],
) -> Result<usize, Refusal>
    requires { Room 0 log.now × (length mem.old ≤ 16384) × (length journal.old ≤ 65536) × (used ≤ length journal.old) }
    ensures effect { effect_of result mem.new journal.new ≡ committed (journalRules.olds mem.old) used mem.old journal.old (answer_of log.now) (kind_of log.now) (address_of log.now) (stores_of log.now) }
    ensures fits { IfOk result (λ n. used + journalRules.record_length n ≤ length journal.old) }
{
    if log.refusal.number != 0 {
        return Err(log.refusal);
    }
    let o = outline_of(log, mem.len());
    let count = o.count();
    if is_full(journal.len(), used, count) {
        return Err(Refusal {
            number: JOURNAL_FULL,
            kind: 0,
            address: 0,
        });
    }
    put_pairs(journal, mem, &o, used);
    make(mem, log);
    Ok(count)
}
