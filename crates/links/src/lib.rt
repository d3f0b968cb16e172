// Links, the event channel and the clocks: what take, give, event and tick do (01, Links, clocks, slice). Mirrors rules/specs/Links.antt. The
// registers of channel c stand 3 * c words after those of channel 0.
#![tactic(auto)]

pub mod transfers; // progress and end of a transfer; a held byte
pub mod link_calls; // take, give, event
pub mod clock; // tick
