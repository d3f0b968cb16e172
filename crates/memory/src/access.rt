// Accesses (000 1.5).
ghost use Rattle.std.specs.Prelude.{◌≡◌, List, ℕ};
ghost use Rattle.rules.specs.Work as work;
ghost use Rattle.plan.specs.View.{view, Grown};

use plan::{Log, refuse_at};
use rules::names::*;
use words::index_of;

// Refuses an access with OUTSIDE where the address is outside memory. kind is KIND_FETCH, KIND_LOAD or KIND_STORE.
// Kept, point 1: docs/INDEX.md names this function, and its contract holds for any kind; an enum would ask more of callers.
pub fn access(log: &mut Log, mem: &[u32], kind: u32, a: u32)
    ensures { ((regs : List ℕ) → view regs log.new ≡ work.access mem.now kind a (view regs log.old)) × Grown 0 log.old log.new }
{
    if (index_of(a) as usize) < mem.len() {
        return;
    }
    refuse_at(log, OUTSIDE, kind, a);
}
