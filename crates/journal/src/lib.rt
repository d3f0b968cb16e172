// The checks before a call, the commit of a plan or its refusal, undo (01, Answers by number; The journal). Mirrors `checked`,
// `commit_or_refuse`, `recorded` and `undo_last` of rules/specs/Calls.antt.
#![tactic(auto)]

pub mod checks; // Size, BadChannel, JournalBad; a refusal by its number
pub mod outcome; // commits a plan, ends its record, makes the reply; or refuses
pub mod commit; // writes the pairs and makes the stores of a plan
pub mod stores; // makes the stores of a plan
pub mod undo; // undoes the last record
