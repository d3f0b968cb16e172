// The block move (000 1.10) in one step (01, One step): appended to the plan, or refused at its first access outside memory (DECISIONS 47).
ghost use Rattle.std.specs.Prelude.{◌≡◌, List, ℕ, length};
ghost use Rattle.rules.specs.Work as work;
ghost use Rattle.plan.specs.View.{view, count_of, Room, Ended};
ghost use Rattle.memory.specs.Places as places;

use plan::{Log, append_move, refuse_at};
use rules::names::*;
use words::{at_byte, offset};

// An access of a move outside memory, with its address.
#[derive(Clone, Copy, PartialEq, Eq, Debug)]
pub enum Outside {
    Load(u32),
    Store(u32),
}

// Counts the bytes from address a, at most n, before the first one outside memory.
fn reach(mem: &[u32], a: u32, n: u32) -> u32
    ensures { result ≡ places.reach (length mem.now) a n }
{
    // A memory of 2^30 words has every address.
    if 0x4000_0000 <= mem.len() {
        return n;
    }
    let at = offset(a) as usize;
    let end = 4 * mem.len();
    if end <= at {
        return 0;
    }
    let room = end - at;
    if n as usize <= room {
        return n;
    }
    room as u32
}

// Finds the first access of a move outside memory. Each byte is loaded and then stored, in rising order: at the same byte the load comes first.
pub fn move_outside(mem: &[u32], source: u32, destination: u32, n: u32) -> Option<Outside>
    ensures { places.told result ≡ work.move_outside mem.now source destination n }
{
    let s = reach(mem, source, n);
    let d = reach(mem, destination, n);
    if d < s {
        return Some(Outside::Store(at_byte(destination, d)));
    }
    if s < n {
        return Some(Outside::Load(at_byte(source, s)));
    }
    None
}

// Moves n bytes, or refuses the first access outside memory; a count of 0 moves nothing.
pub fn transfer(log: &mut Log, mem: &[u32], source: u32, destination: u32, n: u32)
    requires { Room 0 log.old × (count_of log.old ≡ 0) }
    ensures { ((regs : List ℕ) → view regs log.new ≡ work.transfer mem.now source destination n (view regs log.old)) × Ended 0 log.old log.new }
{
    if n == 0 {
        return;
    }
    match move_outside(mem, source, destination, n) {
        None => append_move(log, offset(source), offset(destination), n),
        Some(Outside::Load(address)) => refuse_at(log, OUTSIDE, KIND_LOAD, address),
        Some(Outside::Store(address)) => refuse_at(log, OUTSIDE, KIND_STORE, address),
    }
}
