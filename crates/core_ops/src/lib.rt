// Functions and operations on registers alone, but for arithmetic (000 1.11). They take and return rules::Core, the seven
// registers of an instruction; those of clocks also rules::System. Mirrors rules/specs/Stack.antt, and the evaluation
// stack and error flag of Core.antt.
#![tactic(auto)]

pub mod stack; // evaluation stack, operand, workspace, Iptr
pub mod errors; // error flag, halt-on-error, checks
pub mod logic; // subscripts, counts, bits, shifts
pub mod clocks; // queue pointers, clocks
