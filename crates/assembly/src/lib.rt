// The types of the assembler and the listing. What they do is defined in specs/, and what is proved of it stands in proofs/.
#![tactic(auto)]

// Why a call is refused, in the order in which the refusals are met; their numbers begin behind 0, a call that is done.
#[derive(Clone, Copy, PartialEq, Eq, Debug)]
pub enum Refusal {
    BadFunction = 1,
    TooLong = 2,
    NoRoom = 3,
}
