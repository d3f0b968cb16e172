// Scheduling (000 1.8, 1.10, 1.11), on a plan: run queues, save area, Run, stops, StartNextProcess. Mirrors rules/specs/Scheduling.antt; only
// IsThisSelectedProcess is in rules/specs/Timers.antt. Level 0 is high priority, level 1 low; a reference parameter of 000 is a register number.
#![tactic(auto)]

pub mod flags; // idle flag, slice, Status of an interrupt
pub mod queues; // Enqueue, Dequeue, ActivateProcess
pub mod save_area; // SaveRegisters, RestoreRegisters
pub mod running; // Run
pub mod stopping; // stop process, Wait, stop on error
pub mod start_next; // StartNextProcess
pub mod selected; // IsThisSelectedProcess
