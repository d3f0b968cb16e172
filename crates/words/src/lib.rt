// Words of 32 bits: addresses, bytes, bits, times, prefixes, process descriptors (000 1.1, 1.3, 1.5, 1.8).
// Each function computes one definition of rules/specs/Words.antt or Core.antt.
#![tactic(auto)]

ghost use Rattle.std.specs.Prelude.{◌≡◌, ◌<◌};
ghost use Rattle.rules.specs.Words as words;
ghost use Rattle.rules.specs.Core as core;

// Adds two words, wrapping at 32 bits: clocks, counts, times.
// Kept, point 2: at_byte is the same sum under another name, since rules has a definition for each (000: AtByte; 01: clocks and counts wrap).
pub fn wrap_add(a: u32, b: u32) -> u32
    ensures { result ≡ words.wrap_add a b }
{
    a.wrapping_add(b)
}

// AtByte: returns the address n bytes after base, wrapping.
pub fn at_byte(base: u32, n: u32) -> u32
    ensures { result ≡ words.at_byte base n }
{
    base.wrapping_add(n)
}

// AtWord: returns the address n words after base, wrapping; keeps the low two bits of base.
pub fn at_word(base: u32, n: u32) -> u32
    ensures { result ≡ words.at_word base n }
{
    base.wrapping_add(n << 2)
}

// Returns the distance of an address from the start of memory, in bytes.
pub fn offset(a: u32) -> u32
    ensures { result ≡ words.offset a }
{
    a.wrapping_add(0x8000_0000)
}

// Returns the index of the memory word at an address.
pub fn index_of(a: u32) -> u32
    ensures { result ≡ words.index a }
{
    offset(a) / 4
}

// Returns the byte selector of an address: its low two bits.
pub fn selector(a: u32) -> u32
    ensures { (result ≡ words.selector a) × (result < 4) }
{
    a % 4
}

// Tests whether a word, read as a signed number, is above 0.
#[tactic(auto, unfolding(rules::specs::Words::positive))]
pub fn positive(x: u32) -> bool
    ensures { result ≡ words.positive x }
{
    0 < x && x < 0x8000_0000
}

// Later (t1 AFTER t2): tests the wrapped difference of the times, since times wrap.
#[tactic(auto, unfolding(rules::specs::Words::later, rules::specs::Words::positive, rules::specs::Words::sign, rules::specs::Words::restore_to_range, rules::specs::Tests::if_lt))]
pub fn later(t1: u32, t2: u32) -> bool
    ensures { result ≡ words.later t1 t2 }
{
    positive(t1.wrapping_sub(t2))
}

// Extracts byte j of a word; byte 0 is the least significant.
// Kept, point 4: a byte by its number, as its definition picks it; to_le_bytes would be indexed by the same number (d).
pub fn byte_of(j: u32, w: u32) -> u32
    requires { j < 4 }
    ensures { (result ≡ words.byte_of j w) × (result < 256) }
{
    (w >> (8 * j)) % 256
}

// Replaces byte j of a word.
pub fn with_byte(j: u32, b: u32, w: u32) -> u32
    requires { (j < 4) × (b < 256) }
    ensures { result ≡ words.with_byte j b w }
{
    match j {
        0 => w / 256 * 256 + b,
        1 => w / 65536 * 65536 + b * 256 + w % 256,
        2 => w / 16777216 * 16777216 + b * 65536 + w % 65536,
        _ => b * 16777216 + w % 16777216,
    }
}

pub fn set_bits(mask: u32, x: u32) -> u32
    ensures { result ≡ words.set_bits mask x }
{
    x | mask
}

pub fn clear_bits(mask: u32, x: u32) -> u32
    ensures { result ≡ words.clear_bits mask x }
{
    x & !mask
}

// Extracts the byte held in the flags of a channel: bits 8 to 15.
pub fn held_byte(x: u32) -> u32
    ensures { (result ≡ words.held_byte x) × (result < 256) }
{
    (x >> 8) & 0xFF
}

// Replaces the byte held in the flags of a channel.
pub fn with_held_byte(b: u32, x: u32) -> u32
    ensures { result ≡ words.with_held_byte b x }
{
    (x & 0xFFFF_00FF) | (b << 8)
}

// ORs the low nibble of an instruction byte into Oreg (BuildNextInstruction).
pub fn with_nibble(byte: u32, oreg: u32) -> u32
    ensures { result ≡ words.with_nibble byte oreg }
{
    oreg | (byte & 0xF)
}

// pfix: shifts Oreg left by four bits.
pub fn prefixed(oreg: u32) -> u32
    ensures { result ≡ words.prefixed oreg }
{
    oreg << 4
}

// nfix: complements Oreg and shifts it left by four bits.
pub fn negative_prefixed(oreg: u32) -> u32
    ensures { result ≡ words.negative_prefixed oreg }
{
    (!oreg) << 4
}

// Extracts Wptr from a process descriptor: clears the priority bit.
pub fn wptr_of(wdesc: u32) -> u32
    ensures { result ≡ core.wptr_of wdesc }
{
    wdesc & 0xFFFF_FFFE
}

// Extracts the priority from a process descriptor: 0 is high, 1 is low.
pub fn priority_of(wdesc: u32) -> u32
    ensures { (result ≡ core.priority_of wdesc) × (result < 2) }
{
    wdesc & 1
}
