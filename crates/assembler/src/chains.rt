// The prefix writer: the Compiler Writer's rule (02, No. 2).
ghost use Rattle.std.specs.Prelude.{◌≡◌, ◌<◌, ◌%◌, length, set};
ghost use Rattle.std.proofs.lemmas.List.Edits.{sets};
ghost use Rattle.assembly.specs.Chain as rule;

pub(crate) const PFIX: u32 = 2;

pub(crate) const NFIX: u32 = 6;

// Makes the byte of a function and the low four bits of an operand.
fn instruction(function: u32, operand: u32) -> u8
    requires { function < 16 }
    ensures { result ≡ rule.instruction function (operand % 16) }
{
    ((function << 4) | (operand & 0xF)) as u8
}

// Returns the prefix that comes last before the final byte: pfix, of a negative operand nfix.
#[tactic(auto, using(rules::proofs::Tests::yes_lt, rules::proofs::Tests::no_lt), unfolding(assembly::specs::Chain::prefix_of))]
fn prefix_of(operand: u32) -> u32
    ensures { (result ≡ rule.prefix_of operand) × (result < 16) }
{
    if operand < 0x8000_0000 { PFIX } else { NFIX }
}

// Returns what is prefixed: the operand's upper part, of a negative operand the complement of it.
#[tactic(auto, using(rules::proofs::Tests::yes_lt, rules::proofs::Tests::no_lt), unfolding(assembly::specs::Chain::upper_of))]
fn upper_of(operand: u32) -> u32
    ensures { result ≡ rule.upper_of operand }
{
    if operand < 0x8000_0000 {
        operand >> 4
    } else {
        !operand >> 4
    }
}

// Puts a byte into a chain, where it has a place there.
fn put(chain: &mut [u8], at: usize, byte: u8)
    ensures { chain.new ≡ set chain.old at byte }
{
    if at < chain.len() {
        chain[at] = byte;
    }
}

// Writes a chain and returns its length; bytes past the end of the slice are only counted. It calls itself on the operand's upper part, which
// falls.
// Kept, point 5: the public assemble takes any u32 as a function, and tests it; so the bound is a clause here (a).
pub(crate) fn write(function: u32, operand: u32, chain: &mut [u8]) -> usize
    requires { function < 16 }
    ensures { (result ≡ length (rule.chain function operand)) × (chain.new ≡ sets chain.old 0 (rule.chain function operand)) }
{
    let byte = instruction(function, operand);
    if operand < 16 {
        put(chain, 0, byte);
        return 1;
    }
    let size = write(prefix_of(operand), upper_of(operand), chain);
    put(chain, size, byte);
    size + 1
}
