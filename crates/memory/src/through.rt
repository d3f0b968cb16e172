// A word of memory after the stores of a plan: the single stores before the move, the move, then the single stores after it.
ghost use Rattle.std.specs.Prelude.{◌≡◌, List, ℕ, ◌+◌, ◌*◌, ◌<◌, ◌≤◌, length, get_or, take};
ghost use Rattle.std.proofs.Math.Seq.{slice};
ghost use Rattle.rules.specs.Memory.{byte_in, moved, stores};
ghost use Rattle.plan.specs.View.{singles as singles_of, moves, cut_of, source_of, target_of, count_of};
ghost use Rattle.memory.specs.Places as places;

use plan::{Log, Single};
use words::byte_of;

// Returns the value that the last of the single stores to word i gives it; v, the word before them, where none does.
pub fn latest(singles: &[Single], i: u32, v: u32) -> u32
    ensures { (m : List ℕ) → i < length m → get_or m i 0 ≡ v → result ≡ get_or (stores m (singles_of singles.now)) i 0 }
{
    for single in singles.iter().rev() {
        if single.index == i {
            return single.value;
        }
    }
    v
}

// Reads word i after the single stores before the move.
// Kept, point 5: the functions that docs/INDEX.md names take a log with any cut, so that its bound is a clause and not the type's (a).
fn word_before(log: &Log, mem: &[u32], i: u32) -> u32
    requires { (i < length mem.now) × (cut_of log.now ≤ 16) }
    ensures { result ≡ get_or (stores mem.now (take (cut_of log.now) (singles_of log.now.singles))) i 0 }
{
    let at = i as usize;
    latest(&log.singles[..log.cut], i, mem[at])
}

// Finds the place from which the byte at place a comes, in a move of n bytes from s to d. A move up onto itself repeats its first d - s bytes.
fn came_from(s: usize, d: usize, n: usize, a: usize) -> usize
    requires { (s + n < 17179869184) × (d + n < 17179869184) }
    ensures { result ≡ places.came_from s d n a }
{
    if a < d {
        return a;
    }
    if a < d + n {
        if s < d {
            return s + (a - d) % (d - s);
        }
        return s + (a - d);
    }
    a
}

// Reads the byte at place a after the move. The move lies inside memory.
fn byte_moved(log: &Log, mem: &[u32], a: usize) -> u8
    requires { (a < 4 * length mem.now) × (a < 4294967296) × (source_of log.now + count_of log.now ≤ 4 * length mem.now) × (target_of log.now + count_of log.now ≤ 4 * length mem.now) × (cut_of log.now ≤ 16) }
    ensures { result ≡ byte_in (moved (stores mem.now (take (cut_of log.now) (singles_of log.now.singles))) (source_of log.now) (target_of log.now) (count_of log.now)) a }
{
    let from = came_from(
        log.block.source as usize,
        log.block.target as usize,
        log.block.count as usize,
        a,
    );
    let x = word_before(log, mem, (from / 4) as u32);
    byte_of((from % 4) as u32, x) as u8
}

// Reads word i after the move. The move lies inside memory.
// Kept, point 5: i is an index into the memory beside it; no type holds the two (d).
fn word_moved(log: &Log, mem: &[u32], i: u32) -> u32
    requires { (i < length mem.now) × (i < 1073741824) × (source_of log.now + count_of log.now ≤ 4 * length mem.now) × (target_of log.now + count_of log.now ≤ 4 * length mem.now) × (cut_of log.now ≤ 16) }
    ensures { result ≡ get_or (moved (stores mem.now (take (cut_of log.now) (singles_of log.now.singles))) (source_of log.now) (target_of log.now) (count_of log.now)) i 0 }
{
    let x = word_before(log, mem, i);
    let a = 4 * (i as usize);
    let d = log.block.target as usize;
    let end = d + log.block.count as usize;
    if end <= a {
        return x;
    }
    if a + 4 <= d {
        return x;
    }
    u32::from_le_bytes([
        byte_moved(log, mem, a),
        byte_moved(log, mem, a + 1),
        byte_moved(log, mem, a + 2),
        byte_moved(log, mem, a + 3),
    ])
}

// Reads word i after the single stores before the move, and after the move if the plan has one inside memory.
pub fn word_between(log: &Log, mem: &[u32], i: u32) -> u32
    requires { (i < length mem.now) × (i < 1073741824) × (cut_of log.now ≤ 16) }
    ensures { result ≡ get_or (stores (stores mem.now (take (cut_of log.now) (singles_of log.now.singles))) (moves (source_of log.now) (target_of log.now) (count_of log.now))) i 0 }
{
    let count = log.block.count as usize;
    if count == 0 {
        return word_before(log, mem, i);
    }
    // Counts words, rounded up: 4 * mem.len() may overflow.
    let source = log.block.source as usize;
    if mem.len() < (source + count + 3) / 4 {
        return word_before(log, mem, i);
    }
    let target = log.block.target as usize;
    if mem.len() < (target + count + 3) / 4 {
        return word_before(log, mem, i);
    }
    word_moved(log, mem, i)
}
