// The outcome of a plan after the checks: its refusal, or a commit.
ghost use Rattle.std.specs.Prelude.{◌≡◌, false, ◌≤◌, length};
ghost use Rattle.rules.specs.Journal.{bounds_bad};
ghost use Rattle.rules.specs.Calls.{outcome_of, commit_or_refuse};
ghost use Rattle.laws.specs.Answers.{Known};
ghost use Rattle.plan.specs.View.{work_of, answer_of, kind_of, address_of, Room};

use crate::checks::refuse_at;
use crate::commit::commit;
use journal_record::bounds::EMPTY_RECORD;
use journal_record::record::put_tail;
use plan::Plan;
use rules::{Answer, Machine, Reply};

// Commits a plan and ends its record, or refuses with its number, part and address. For take, give and event; step_engine does the same for a step.
// Kept, point 5: bounds_bad relates machine and journal, which the public signatures take apart (a).
#[tactic(auto, using(journal_record::proofs::JournalBounds::bounds_good))]
pub fn commit_or_refuse(
    m: Machine,
    plan: &Plan,
    byte: u8,
    mem: &mut [u32],
    journal: &mut [u32],
) -> Reply
    requires { Known (answer_of plan.now.log) (kind_of plan.now.log) (address_of plan.now.log) × Room 0 plan.now.log × (length mem.old ≤ 16384) × (length journal.old ≤ 65536) × (bounds_bad (length journal.old) m.depth m.used ≡ false) }
    ensures { outcome_of result mem.new journal.new ≡ commit_or_refuse m mem.old journal.old byte (work_of plan.now) }
{
    match commit(&plan.log, m.used, mem, journal) {
        Err(refusal) => refuse_at(m, refusal),
        Ok(count) => {
            let end = m.used + 2 * count;
            put_tail(journal, m.regs, count as u32, end);
            let machine = Machine {
                regs: plan.regs,
                depth: m.depth + 1,
                used: end + EMPTY_RECORD,
            };
            Reply {
                machine,
                answer: Answer::Done,
                byte,
            }
        }
    }
}
