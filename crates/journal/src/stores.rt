// Makes the stores of a plan in program order: single stores, the block move, single stores. Mirrors `stores` of
// rules/specs/Memory.antt.
ghost use Rattle.std.specs.Prelude.{◌≡◌, ◌≤◌, length};
ghost use Rattle.rules.specs.Memory.{stores};
ghost use Rattle.plan.specs.View.{singles, moves, stores_of, Room};

use journal_record::touched::is_within;
use plan::{BlockMove, Log, Single};

// Makes single stores; one outside memory does nothing.
fn put_singles(mem: &mut [u32], list: &[Single])
    ensures { mem.new ≡ stores mem.old (singles list.now) }
{
    for single in list {
        let i = single.index as usize;
        if i < mem.len() {
            mem[i] = single.value;
        }
    }
}

// Makes the block move; does nothing where the move leaves memory.
fn put_move(mem: &mut [u32], block: BlockMove)
    requires { length mem.old ≤ 16384 }
    ensures { mem.new ≡ stores mem.old (moves block.source block.target block.count) }
{
    if is_within(mem.len(), block) {
        journal_moves::move_fast(
            mem,
            block.source as usize,
            block.target as usize,
            block.count as usize,
        );
    }
}

// Makes all stores of a plan.
pub fn make(mem: &mut [u32], log: &Log)
    requires { Room 0 log.now × (length mem.old ≤ 16384) }
    ensures { mem.new ≡ stores mem.old (stores_of log.now) }
{
    put_singles(mem, &log.singles[..log.cut]);
    put_move(mem, log.block);
    put_singles(mem, &log.singles[log.cut..log.number]);
}
