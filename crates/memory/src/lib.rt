// The accesses of a plan (000 1.5; 01, One step): fetches, loads, stores and the block move, each refused outside memory. Memory is only read;
// a store goes into the plan. The definitions are in rules/specs/Work.antt (the accesses) and rules/specs/Memory.antt (lists of stores).
#![tactic(auto)]

pub mod through; // a word of memory after the stores of a plan
pub mod loads; // loads, and the fetch of an instruction byte
pub mod access; // an access, refused outside memory
pub mod store; // stores, RIndexWord, RIndexByte, WIndexWord
pub mod block_move; // the block move in one step
