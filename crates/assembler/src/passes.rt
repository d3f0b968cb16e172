// The two passes over code: whether the listing fits, and its text. Both go byte by byte, as the machine fetches: prefixes gather in Oreg, any
// other byte ends a chain.
ghost use Rattle.std.specs.Prelude.{◌≡◌, ◌<◌, leb, length};
ghost use Rattle.std.proofs.lemmas.List.Edits.{sets};
ghost use Rattle.assembly.specs.Chain as rule;
ghost use Rattle.assembly.specs.Listing.{listing};
ghost use Rattle.assembler.specs.Text.{behind};

use crate::{chains, lines};

// Tests for pfix and nfix.
#[tactic(auto, unfolding(assembly::specs::Chain::is_prefix))]
fn is_prefix(byte: u32) -> bool
    ensures { result ≡ rule.is_prefix byte }
{
    byte >> 4 == chains::PFIX || byte >> 4 == chains::NFIX
}

// Returns Oreg after a prefix byte.
#[tactic(auto, using(rules::proofs::Tests::yes_eq, rules::proofs::Tests::no_eq), unfolding(assembly::specs::Chain::after_prefix))]
fn after_prefix(oreg: u32, byte: u32) -> u32
    ensures { result ≡ rule.after_prefix oreg byte }
{
    let operand = words::with_nibble(byte, oreg);
    if byte >> 4 == chains::PFIX {
        words::prefixed(operand)
    } else {
        words::negative_prefixed(operand)
    }
}

// Returns the function of a byte.
fn function_of(byte: u8) -> usize
    ensures { (result ≡ rule.function_of byte) × (result < 16) }
{
    usize::from(byte >> 4)
}

// The most characters that the listing has for a byte of code: a name and a newline. The line of a function has at most 9 where its chain has one
// byte, and 18 where it has more.
const MOST: usize = 12;

// Tests whether the listing of the code has at most room characters. Code that is short beside the room needs no count; a count ends where the
// room does.
// Kept, point 2: write_listing goes the same way, but to the end of the code, and with a text to write (d).
pub(crate) fn has_room(code: &[u8], room: usize) -> bool
    ensures { result ≡ leb (length (listing code.now)) room }
{
    if code.len() <= room / MOST {
        return true;
    }
    let mut left = room;
    let mut oreg = 0;
    let mut start = 0;
    for (i, byte) in code.iter().enumerate() {
        let word = u32::from(*byte);
        if is_prefix(word) {
            oreg = after_prefix(oreg, word);
        } else {
            let size = lines::line_of(function_of(*byte), words::with_nibble(word, oreg)).len();
            if left < size {
                return false;
            }
            left -= size;
            oreg = 0;
            start = i + 1;
        }
    }
    code.len() - start <= left / 3
}

// Writes the listing of the code at the start of the text, as far as it has room; returns its length. Lengths end at the last number.
pub(crate) fn write_listing(code: &[u8], text: &mut [u8]) -> usize
    ensures { (result ≡ behind 0 (listing code.now)) × (text.new ≡ sets text.old 0 (listing code.now)) }
{
    let mut end = 0;
    let mut oreg = 0;
    let mut start = 0;
    for (i, byte) in code.iter().enumerate() {
        let word = u32::from(*byte);
        if is_prefix(word) {
            oreg = after_prefix(oreg, word);
        } else {
            let line = lines::line_of(function_of(*byte), words::with_nibble(word, oreg));
            end = line.put(text, end);
            oreg = 0;
            start = i + 1;
        }
    }
    lines::put_bytes(&code[start..], text, end)
}
