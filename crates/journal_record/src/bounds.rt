// Bounds of the journal (01, The journal): of used and depth, and of the room for a record.
ghost use Rattle.std.specs.Prelude.{◌≡◌, ◌+◌, ◌≤◌, ltb};
ghost use Rattle.rules.specs.Journal as journalRules;

use rules::REGISTERS;

// The length of a record with no pairs: the registers and the number of pairs.
pub const EMPTY_RECORD: usize = REGISTERS + 1;

// Tests for JournalBad: used is above the size, or depth records need more than used. Divides used, so that no product wraps.
pub fn bounds_bad(size: usize, depth: usize, used: usize) -> bool
    ensures { result ≡ journalRules.bounds_bad size depth used }
{
    size < used || used / EMPTY_RECORD < depth
}

// Tests for JournalFull: a record of n pairs does not fit after used. Compares with the room left, so that no sum wraps.
// Kept, point 5: used is within the size beside it, and n bounds a product; no type says either (d).
pub fn is_full(size: usize, used: usize, n: usize) -> bool
    requires { (used ≤ size) × (n ≤ 65536) }
    ensures { result ≡ ltb size (used + journalRules.record_length n) }
{
    size - used < EMPTY_RECORD + 2 * n
}
