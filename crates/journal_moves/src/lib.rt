// The block move on memory (01, One step): bytes in rising order, each read just before it is stored; a word at a time where the
// result is the same. Mirrors `moved` of rules/specs/Memory.antt. Source and destination are bytes from the start of memory.
#![tactic(auto)]

ghost use Rattle.std.specs.Prelude.{◌≡◌, ◌+◌, ◌-◌, ◌*◌, ◌/◌, ◌%◌, ◌^◌, ◌<◌, ◌≤◌, length};
ghost use Rattle.rules.specs.Memory.{moved};
ghost use Rattle.journal_moves.specs.Four.{four_bytes};

// Moves n bytes one by one.
// Kept, point 5: the clauses relate two places, a number of bytes and memory; no type holds the four (d).
#[tactic(auto, unfolding(rules::specs::Memory::moved))]
fn move_bytes(mem: &mut [u32], src: usize, dst: usize, n: usize)
    requires { (src + n ≤ 4 * length mem.old) × (dst + n ≤ 4 * length mem.old) }
    ensures { mem.new ≡ moved mem.old src dst n }
{
    for k in 0..n {
        let s = src + k;
        let d = dst + k;
        let b = words::byte_of((s % 4) as u32, mem[s / 4]);
        mem[d / 4] = words::with_byte((d % 4) as u32, b, mem[d / 4]);
    }
}

// Joins the upper 4 - k bytes of x and the lower k bytes of y to a word.
// Kept, point 4: a word out of two words and a shift; by bytes it would be taken apart and joined again (d).
fn straddle(k: usize, x: u32, y: u32) -> u32
    requires { (0 < k) × (k < 4) }
    ensures { result ≡ x / 2 ^ (8 * k) + y % 2 ^ (8 * k) * 2 ^ (32 - 8 * k) }
{
    match k {
        1 => x / 256 + y % 256 * 16777216,
        2 => x / 65536 + y % 65536 * 65536,
        _ => x / 16777216 + y % 16777216 * 256,
    }
}

// Reads the four bytes from byte k of word i on as a word.
fn four_bytes(mem: &[u32], i: usize, k: usize) -> u32
    requires { (k < 4) × (4 * i + k + 4 ≤ 4 * length mem.now) }
    ensures { result ≡ four_bytes mem.now (4 * i + k) }
{
    let x = mem[i];
    if k == 0 {
        return x;
    }
    straddle(k, x, mem[i + 1])
}

// Moves 4 * n bytes to a word boundary, four at a time. A source below the destination must be at least a word below it.
// Counts the source's words beside the for: worked out from the other place, they would be rounded down to a word again at each turn.
#[tactic(auto, unfolding(rules::specs::Memory::moved))]
fn move_words(mem: &mut [u32], src: usize, dst: usize, n: usize)
    requires { (dst % 4 ≡ 0) × (src + 4 * n ≤ 4 * length mem.old) × (dst + 4 * n ≤ 4 * length mem.old) × (src < dst → src + 4 ≤ dst) }
    ensures { mem.new ≡ moved mem.old src dst (4 * n) }
{
    let mut from = src / 4;
    for to in dst / 4..dst / 4 + n {
        mem[to] = four_bytes(mem, from, src % 4);
        from += 1;
    }
}

// Moves n bytes to a word boundary.
fn move_aligned(mem: &mut [u32], src: usize, dst: usize, n: usize)
    requires { (dst % 4 ≡ 0) × (src + n ≤ 4 * length mem.old) × (dst + n ≤ 4 * length mem.old) × (src < dst → src + 4 ≤ dst) }
    ensures { mem.new ≡ moved mem.old src dst n }
{
    let words = n / 4;
    let s = src + 4 * words;
    let d = dst + 4 * words;
    let rest = n % 4;
    move_words(mem, src, dst, words);
    move_bytes(mem, s, d, rest);
}

// Moves head bytes up to a word boundary, then rest bytes.
// Kept, point 5: how source and target lie to one another is a fact of the two; no type holds them (d).
fn move_parts(mem: &mut [u32], src: usize, dst: usize, head: usize, rest: usize)
    requires { ((dst + head) % 4 ≡ 0) × (src + (head + rest) ≤ 4 * length mem.old) × (dst + (head + rest) ≤ 4 * length mem.old) × (src < dst → src + 4 ≤ dst) }
    ensures { mem.new ≡ moved mem.old src dst (head + rest) }
{
    let s = src + head;
    let d = dst + head;
    move_bytes(mem, src, dst, head);
    move_aligned(mem, s, d, rest);
}

// Moves n bytes, a word at a time. A move up by 1 to 3 bytes, which repeats bytes inside a word, is made one by one.
// Is not inlined: within a larger function its loops run short of registers.
#[inline(never)]
pub fn move_fast(mem: &mut [u32], src: usize, dst: usize, n: usize)
    requires { (src + n ≤ 4 * length mem.old) × (dst + n ≤ 4 * length mem.old) }
    ensures { mem.new ≡ moved mem.old src dst n }
{
    let head = (4 - dst % 4) % 4;
    if n < head || src < dst && dst - src < 4 {
        move_bytes(mem, src, dst, n);
    } else {
        move_parts(mem, src, dst, head, n - head);
    }
}
