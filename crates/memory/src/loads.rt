// Loads of a plan (000 1.5), and the fetch of an instruction byte (01, One step (c)): the access, and the value that memory has after the stores
// and the move of the plan.
ghost use Rattle.std.specs.Prelude.{◌≡◌, List, ℕ, ◌<◌};
ghost use Rattle.rules.specs.Work as work;
ghost use Rattle.plan.specs.View.{view, Room, Grown};

use crate::access::access;
use crate::through::{latest, word_between};
use plan::Log;
use rules::names::*;
use words::{byte_of, index_of, selector};

// Reads the word at address a after the stores of the plan; 0 outside memory. Makes no access.
pub fn word_at(log: &Log, mem: &[u32], a: u32) -> u32
    requires { Room 0 log.now }
    ensures { (regs : List ℕ) → result ≡ work.word_at mem.now a (view regs log.now) }
{
    let i = index_of(a);
    if mem.len() <= i as usize {
        return 0;
    }
    latest(
        &log.singles[log.cut..log.number],
        i,
        word_between(log, mem, i),
    )
}

// Reads the byte at address a after the stores of the plan; 0 outside memory. Makes no access.
pub fn byte_at(log: &Log, mem: &[u32], a: u32) -> u32
    requires { Room 0 log.now }
    ensures { ((regs : List ℕ) → result ≡ work.byte_at mem.now a (view regs log.now)) × (result < 256) }
{
    byte_of(selector(a), word_at(log, mem, a))
}

// Loads the word at address a.
pub fn load_word(log: &mut Log, mem: &[u32], a: u32) -> u32
    requires { Room 0 log.old }
    ensures { ((regs : List ℕ) → result ≡ work.word_at mem.now a (view regs log.old)) × ((regs : List ℕ) → view regs log.new ≡ work.access mem.now work.kind_load a (view regs log.old)) × Grown 0 log.old log.new }
{
    let v = word_at(log, mem, a);
    access(log, mem, KIND_LOAD, a);
    v
}

// Reads the byte at address a by an access of a kind.
// Kept, point 1: hands its kind to access, which takes any.
fn read_byte(log: &mut Log, mem: &[u32], kind: u32, a: u32) -> u32
    requires { Room 0 log.old }
    ensures { ((regs : List ℕ) → result ≡ work.byte_at mem.now a (view regs log.old)) × ((regs : List ℕ) → view regs log.new ≡ work.access mem.now kind a (view regs log.old)) × (result < 256) × Grown 0 log.old log.new }
{
    let v = byte_at(log, mem, a);
    access(log, mem, kind, a);
    v
}

// Loads the byte at address a.
pub fn load_byte(log: &mut Log, mem: &[u32], a: u32) -> u32
    requires { Room 0 log.old }
    ensures { ((regs : List ℕ) → result ≡ work.byte_at mem.now a (view regs log.old)) × ((regs : List ℕ) → view regs log.new ≡ work.access mem.now work.kind_load a (view regs log.old)) × (result < 256) × Grown 0 log.old log.new }
{
    read_byte(log, mem, KIND_LOAD, a)
}

// Fetches the instruction byte at address a.
pub fn fetch_byte(log: &mut Log, mem: &[u32], a: u32) -> u32
    requires { Room 0 log.old }
    ensures { ((regs : List ℕ) → result ≡ work.byte_at mem.now a (view regs log.old)) × ((regs : List ℕ) → view regs log.new ≡ work.access mem.now work.kind_fetch a (view regs log.old)) × (result < 256) × Grown 0 log.old log.new }
{
    read_byte(log, mem, KIND_FETCH, a)
}
