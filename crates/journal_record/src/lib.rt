// The record of a call (01, The journal): the bounds of the journal, the words that a plan stores to, the words of the
// record. Mirrors rules/specs/Journal.antt, and `touched` of Memory.antt.
#![tactic(auto)]

pub mod bounds; // bounds of used and depth, room for a record
pub mod outline; // the words that a record lists
pub mod touched; // the words that a plan stores to, rising
pub mod parts; // writes the pairs and the registers
pub mod record; // writes the end of a record
