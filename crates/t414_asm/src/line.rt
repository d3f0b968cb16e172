// One line of the text: a function's name and an operand, or an operation's name.
ghost use Rattle.std.specs.Prelude.{◌≡◌, ◌<◌, ◌≤◌, length, IfOk};
ghost use Rattle.std.specs.Iterator.{at_most};

use crate::failure::LineError;
use crate::names::{Instruction, Names, OPERATE};
use assembly::Refusal;

// Tests for a character that separates words.
fn is_blank(byte: &u8) -> bool {
    matches!(byte, b' ' | b'\t' | b'\r')
}

// Yields the words of a line. Blanks are skipped in one go: that is quicker than to split the line at each of them and then drop the empty words.
#[derive(Clone, Copy, Debug)]
struct Words<'a> {
    rest: &'a [u8],
}

impl<'a> Iterator for Words<'a> {
    type Item = &'a [u8];

    ghost remaining = { λ s. at_most (length s.rest.now) };

    fn next(&mut self) -> Option<&'a [u8]> {
        let start = self.rest.iter().position(|byte| !is_blank(byte))?;
        let from = &self.rest[start..];
        let size = match from[1..].iter().position(is_blank) {
            Some(more) => 1 + more,
            None => from.len(),
        };
        let (word, rest) = from.split_at(size);
        self.rest = rest;
        Some(word)
    }
}

// Returns the number that digits write in a base from 2 to 36, where there are some and the number is below 2^32.
fn number(digits: &[u8], base: u32) -> Option<u32>
    requires { (2 ≤ base) × (base ≤ 36) }
{
    if digits.is_empty() {
        return None;
    }
    digits.iter().try_fold(0u32, |value, digit| {
        let digit = char::from(*digit).to_digit(base)?;
        u32::try_from(u64::from(value) * u64::from(base) + u64::from(digit)).ok()
    })
}

// Returns the operand that a word writes: # and 1 to 8 hexadecimal digits, or a decimal number from -2147483648 to 2147483647.
fn operand(word: &[u8]) -> Option<u32> {
    match word {
        [b'#', digits @ ..] if digits.len() > 8 => None,
        [b'#', digits @ ..] => number(digits, 16),
        [b'-', digits @ ..] => number(digits, 10)
            .filter(|size| *size <= 0x8000_0000)
            .map(|size| size.wrapping_neg()),
        digits => number(digits, 10).filter(|size| *size < 0x8000_0000),
    }
}

// Writes the chain of a function and an operand at the start of the output; returns how many bytes it has. A TooLong is tried once more, as the
// bench scripts of document 02 do; no operand gets there, and No. 10 takes the branch away.
pub(crate) fn put_chain(function: u32, operand: u32, out: &mut [u8]) -> Result<usize, Refusal>
    ensures { IfOk result (λ size. size ≤ length out.old) × (length out.new ≡ length out.old) }
{
    match assembler::assemble(function, operand, out) {
        Err(Refusal::TooLong) => assembler::assemble(function, operand, out),
        written => written,
    }
}

// Assembles a line; returns how many bytes of code it makes. A line without a word makes none.
pub(crate) fn assemble_line(line: &[u8], names: &Names, out: &mut [u8]) -> Result<usize, LineError>
    ensures { IfOk result (λ size. size ≤ length out.old) }
{
    let mut words = Words { rest: line };
    let Some(name) = words.next() else {
        return Ok(0);
    };
    let (function, operand) = match names.find(name).ok_or(LineError::UnknownName)? {
        Instruction::Operation(code) => (OPERATE, code),
        Instruction::Function(function) => {
            let word = words.next().ok_or(LineError::NoOperand)?;
            (function, operand(word).ok_or(LineError::BadOperand)?)
        }
    };
    if words.next().is_some() {
        return Err(LineError::MoreWords);
    }
    Ok(put_chain(function, operand, out)?)
}
