// Operations that start, end, repeat and slice processes (000 1.9, 1.11), on a plan. Mirrors rules/specs/Scheduling.antt.
#![tactic(auto)]

pub mod slices; // TimeSlice, `j`
pub mod starting; // `startp`, `runp`
pub mod loops; // `lend`
pub mod ending; // `endp`
