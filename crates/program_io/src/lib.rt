// What the programs read and write: standard input, the line of t414_run (01, Numbers at the edges), the cases and responses of
// t414_batch (docs/TESTING.md, The batch protocol). It makes no public call.
#![tactic(auto)]

pub mod answers; // numbers of the answers, steps of a run
pub mod lines; // t414_run: the line it prints
pub mod input; // standard input
pub mod bytes; // words to bytes and back
pub mod case; // t414_batch: one case and its response
pub mod place; // t414_batch: reading, writing, reasons to stop
pub mod room; // t414_batch: the buffers
