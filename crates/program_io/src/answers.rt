// Numbers of the answers (01, Answers by number; 02, No. 1), and of the steps of a run (01, Numbers at the edges).
ghost use Rattle.std.specs.Prelude.{◌≡◌};
ghost use Rattle.rules.specs.Calls.{numbered};
ghost use Rattle.program_io.specs.Answers.{as_struct, in_numbers, numbers_of};

use rules::Answer;
use rules::names::OUTSIDE;

// The part of the refusal 10: 1 for 10a, 2 for 10b, 3 for 10c, by the kind of the access that was outside memory.
#[derive(Clone, Copy, PartialEq, Eq, Debug)]
pub enum Part {
    Fetch = 1,
    Load = 2,
    Store = 3,
}

// An access that was outside memory, by its part of 10 and its byte address.
#[derive(Clone, Copy, PartialEq, Eq, Debug)]
pub struct Access {
    pub part: Part,
    pub address: u32,
}

// A refusal in numbers: 10 by the access that was outside memory, any other by its number.
#[derive(Clone, Copy, PartialEq, Eq, Debug)]
pub enum Refusal {
    Numbered(u32),
    Outside(Access),
}

// Returns the refusal of an access outside memory.
fn outside(part: Part, address: u32) -> Refusal
    ensures { result ≡ Refusal.Outside (record { part = part; address = address }) }
{
    Refusal::Outside(Access { part, address })
}

// Returns the refusal of an answer in numbers, none where the call is accepted.
// Kept, point 4: docs/INDEX.md names this function; a From for an Option is not for this crate to write (a).
#[tactic(auto, unfolding(rules::specs::Calls::numbered))]
pub fn refusal_of(a: Answer) -> Option<Refusal>
    ensures { result ≡ in_numbers (numbered a) }
{
    let refusal = match a {
        Answer::Done => return None,
        Answer::Size => Refusal::Numbered(1),
        Answer::CodeSize => Refusal::Numbered(2),
        Answer::BadChannel => Refusal::Numbered(3),
        Answer::JournalBad => Refusal::Numbered(4),
        Answer::NothingToUndo => Refusal::Numbered(5),
        Answer::Halted => Refusal::Numbered(6),
        Answer::Idle => Refusal::Numbered(7),
        Answer::NotReady => Refusal::Numbered(8),
        Answer::Unlisted => Refusal::Numbered(9),
        Answer::OutsideFetch(address) => outside(Part::Fetch, address),
        Answer::OutsideLoad(address) => outside(Part::Load, address),
        Answer::OutsideStore(address) => outside(Part::Store, address),
        Answer::Stop => Refusal::Numbered(11),
        Answer::JournalFull => Refusal::Numbered(12),
    };
    Some(refusal)
}

// A refusal as the line of t414_run tells it: its number, 0 where there is none, and its part of 10 and the address of the access, 0 where there is
// none. Any three numbers are one.
#[derive(Clone, Copy, PartialEq, Eq, Debug)]
pub struct Numbers {
    // Kept, point 1: lines::line tells any three numbers, as it did (a).
    pub number: u32,
    pub part: u32,
    pub address: u32,
}

// Returns number, part and address of a refusal, all 0 where there is none.
pub fn as_numbers(refusal: Option<Refusal>) -> Numbers
    ensures { result ≡ as_struct (numbers_of refusal) }
{
    match refusal {
        None => Numbers {
            number: 0,
            part: 0,
            address: 0,
        },
        Some(Refusal::Numbered(number)) => Numbers {
            number,
            part: 0,
            address: 0,
        },
        Some(Refusal::Outside(access)) => Numbers {
            number: OUTSIDE,
            part: access.part as u32,
            address: access.address,
        },
    }
}

// Joins number and part to the first word of a response: the number, plus 256 times the part; 0 where the call is accepted.
pub(crate) fn one_word(refusal: Option<Refusal>) -> u32 {
    match refusal {
        None => 0,
        Some(Refusal::Numbered(number)) => number,
        Some(Refusal::Outside(access)) => OUTSIDE | ((access.part as u32) << 8),
    }
}

// Returns the byte address of the access that was outside memory, 0 where there is none.
pub(crate) fn address(refusal: Option<Refusal>) -> u32 {
    match refusal {
        Some(Refusal::Outside(access)) => access.address,
        _ => 0,
    }
}

// The most steps of a run of t414_run.
pub const MOST_STEPS: u64 = 100;
