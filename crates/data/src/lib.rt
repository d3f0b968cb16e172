// Functions and operations that load and store and do not schedule (000 1.11), on a plan. Mirrors rules/specs/Data.antt.
#![tactic(auto)]

pub mod locals; // `ldl`, `stl`, `ldnl`, `stnl`
pub mod bytes; // `lb`, `sb`
pub mod blocks; // `move`
pub mod queue_words; // `saveh`, `savel`
pub mod calls; // `call`, `ret`, `altend`
