// The checks before a call works: Size, BadChannel, JournalBad, in the order of 01's table. And the reply of a refused call.
ghost use Rattle.std.specs.Prelude.{◌≡◌, ◌||◌};
ghost use Rattle.rules.specs.Calls as calls;
ghost use Rattle.laws.specs.Answers.{outside_answer, answer_of, Known};
ghost use Rattle.journal.specs.Checks.{Refuses, RefusesAt, first_bad};

use journal_record::bounds;
use plan::Refusal;
use rules::names::*;
use rules::{Answer, Machine, Reply};

// Tests for Size: memory is not 64 to 16,384 words, or the journal is over 65,536.
#[tactic(auto, unfolding(rules::specs::Calls::memory_size_bad, rules::specs::Calls::journal_size_bad))]
pub fn size_bad(memory: usize, journal: usize) -> bool
    ensures { result ≡ calls.memory_size_bad memory || calls.journal_size_bad journal }
{
    memory < 64 || 16384 < memory || 65536 < journal
}

// Tests for BadChannel of take: the output links are 0 to 3.
#[tactic(auto, unfolding(rules::specs::Calls::not_output))]
pub fn not_output(channel: u32) -> bool
    ensures { result ≡ calls.not_output channel }
{
    4 <= channel
}

// Tests for BadChannel of give: the input links are 4 to 7.
#[tactic(auto, unfolding(rules::specs::Calls::not_input))]
pub fn not_input(channel: u32) -> bool
    ensures { result ≡ calls.not_input channel }
{
    channel < 4 || 8 <= channel
}

// Returns the first refusal that applies: Size, BadChannel (where wrong is true), JournalBad.
#[tactic(auto, unfolding(crate::specs::Checks::first_bad))]
pub fn first_bad(
    wrong: bool,
    memory: usize,
    journal: usize,
    depth: usize,
    used: usize,
) -> Option<Answer>
    ensures { result ≡ first_bad wrong memory journal depth used }
{
    if size_bad(memory, journal) {
        return Some(Answer::Size);
    }
    if wrong {
        return Some(Answer::BadChannel);
    }
    if bounds::bounds_bad(journal, depth, used) {
        return Some(Answer::JournalBad);
    }
    None
}

// Returns the answer of an access outside memory: 10a, 10b or 10c by its kind, with the address.
// Kept, point 1: the kind comes out of the log of a plan, where it is a number (plan::Refusal).
// Kept, point 4: a kind becomes a case of Answer that has the address too; neither is a type of this crate, so no From (a).
#[tactic(auto, unfolding(rules::specs::Tests::if_eq))]
fn outside_of(kind: u32, address: u32) -> Answer
    ensures { result ≡ outside_answer kind address }
{
    match kind {
        KIND_FETCH => Answer::OutsideFetch(address),
        KIND_LOAD => Answer::OutsideLoad(address),
        _ => Answer::OutsideStore(address),
    }
}

// Kept, point 4: no From: neither the refusal of a plan nor Answer is a type of this crate (a).
// Returns the answer with 01's number; of 10 that of its kind, with the address.
#[tactic(auto, unfolding(laws::specs::Answers::answer_of, rules::specs::Tests::if_lt, rules::specs::Tests::if_eq))]
fn answer_of(refusal: Refusal) -> Answer
    ensures { result ≡ answer_of refusal.number refusal.kind refusal.address }
{
    match refusal.number {
        1 => Answer::Size,
        2 => Answer::CodeSize,
        3 => Answer::BadChannel,
        4 => Answer::JournalBad,
        5 => Answer::NothingToUndo,
        6 => Answer::Halted,
        7 => Answer::Idle,
        8 => Answer::NotReady,
        9 => Answer::Unlisted,
        10 => outside_of(refusal.kind, refusal.address),
        11 => Answer::Stop,
        12 => Answer::JournalFull,
        _ => Answer::Done,
    }
}

// Builds the reply of a call refused with an answer: the machine unchanged, byte 0.
pub fn refuse(m: Machine, answer: Answer) -> Reply
    ensures { Refuses answer m result }
{
    Reply {
        machine: m,
        answer,
        byte: 0,
    }
}

// Builds the reply of a call whose plan was refused.
pub fn refuse_at(m: Machine, refusal: Refusal) -> Reply
    requires { Known refusal.number refusal.kind refusal.address }
    ensures { RefusesAt refusal.number refusal.kind refusal.address m result }
{
    refuse(m, answer_of(refusal))
}
