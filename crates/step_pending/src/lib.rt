// What comes before an instruction (01, One step (a) and (b)): channel requests and ready timers; and when a step halts the machine. Mirrors
// rules/specs/Step.antt; the tests for a common step are in specs/NothingPending.antt.
#![tactic(auto)]

pub mod service; // the channel or timer that a step serves
pub mod pending; // nothing to serve before an instruction; end of a slice
pub mod halting; // halt on error
