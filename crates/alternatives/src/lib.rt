// Alternatives (000 1.11), on a plan: start, wait, skip guards and channel guards. Mirrors rules/specs/Channels.antt; timer guards are in the
// crate timers.
#![tactic(auto)]

pub mod waits; // `alt`, `altwt`, `enbs`, `diss`
pub mod guards; // `enbc`, `disc`
