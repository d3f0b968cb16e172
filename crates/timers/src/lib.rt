// Timer queues (000 1.8, 1.10, 1.11), on a plan. Mirrors rules/specs/Timers.antt. Queue 0 is that of the high timer, queue 1 of the low one.
// A step inserts or deletes as a whole (01, One step).
#![tactic(auto)]

pub mod timer_queue; // when a timer is ready, and its next time
pub mod insertion; // InsertFirstStep to InsertFinalStep
pub mod deletion; // DeleteFirstStep to DeleteFinalStep
pub mod requests; // HandleTimerRequest
pub mod waits; // `tin`, `talt`, `taltwt`
pub mod guards; // `enbt`, `dist`
