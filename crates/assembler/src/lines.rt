// The lines of the listing: numbers, a function with its operand, an operation's name, the bytes of an unfinished chain.
ghost use Rattle.std.specs.Prelude.{◌≡◌, ◌<◌, ◌≤◌, ◌++◌, [], ◌∷◌, length};
ghost use Rattle.std.proofs.lemmas.List.Edits.{sets};
ghost use Rattle.assembly.specs.Listing as rule;
ghost use Rattle.assembler.specs.Text.{behind};

use crate::line::Line;
use crate::names;

// The function operate.
const OPR: usize = 15;

// Adds a number in decimal to a line. It calls itself on all digits but the last.
// Kept, point 4: digits by hand: no clause says that `write!` gives Ok, so its Err stayed open; no crate but std is used here (docs/CONTRACTS.md).
fn put_digits(x: u32, line: &mut Line)
    requires { length line.old ≤ 14 }
    ensures { line.new ≡ line.old ++ rule.digits 10 x }
{
    let digit = b'0' + (x % 10) as u8;
    if x < 10 {
        line.push(digit);
        return;
    }
    put_digits(x / 10, line);
    line.push(digit);
}

// Adds a word in signed decimal to a line.
fn put_operand(x: u32, line: &mut Line)
    requires { length line.old ≤ 13 }
    ensures { line.new ≡ line.old ++ rule.decimal x }
{
    if x < 0x8000_0000 {
        return put_digits(x, line);
    }
    line.push(b'-');
    put_digits(x.wrapping_neg(), line);
}

// Returns a function's line.
fn function_line(function: usize, operand: u32) -> Line
    requires { function < 16 }
    ensures { result ≡ rule.function_line function operand }
{
    let mut line = Line::new();
    names::put_function_name(function, &mut line);
    line.push(b' ');
    put_operand(operand, &mut line);
    line.push(b'\n');
    line
}

// Returns a chain's line.
pub(crate) fn line_of(function: usize, operand: u32) -> Line
    requires { function < 16 }
    ensures { result ≡ rule.line_of function operand }
{
    if function == OPR {
        if let Some(line) = names::operation_line(operand) {
            return line;
        }
    }
    function_line(function, operand)
}

// Writes bytes at a place of the text, as far as it has room; returns the place behind them.
// Kept, point 6: a text and a place in it: it holds for any place, one behind the text's end too, as write_listing does, and no slice begins there (d).
pub(crate) fn put_all(bytes: &[u8], text: &mut [u8], at: usize) -> usize
    ensures { (result ≡ behind at bytes.now) × (text.new ≡ sets text.old at bytes.now) }
{
    if at < text.len() {
        let room = text.len() - at;
        if bytes.len() <= room {
            text[at..at + bytes.len()].copy_from_slice(bytes);
        } else {
            text[at..at + room].copy_from_slice(&bytes[..room]);
        }
    }
    at.saturating_add(bytes.len())
}

// Writes three bytes at a place of the text, as far as it has room; returns the place behind them. Where there is room they are stored one by one:
// as an array they would be written to the stack, and be waited for.
// Kept, point 6: as put_all.
fn put_three(a: u8, b: u8, c: u8, text: &mut [u8], at: usize) -> usize
    ensures { (result ≡ behind at (a ∷ b ∷ c ∷ [])) × (text.new ≡ sets text.old at (a ∷ b ∷ c ∷ [])) }
{
    if at < text.len() && 3 <= text.len() - at {
        text[at] = a;
        text[at + 1] = b;
        text[at + 2] = c;
        return at + 3;
    }
    put_all(&[a, b, c], text, at)
}

// Returns a hexadecimal digit, in upper case.
// Kept, point 4: a digit by hand: of `{:02X}`, as of `{}` at put_digits, the Err stayed open.
#[tactic(auto, using(rules::proofs::Tests::yes_lt, rules::proofs::Tests::no_lt), unfolding(assembly::specs::Listing::hex_digit))]
fn hex_digit(d: u8) -> u8
    requires { d < 16 }
    ensures { result ≡ rule.hex_digit d }
{
    if d < 10 { b'0' + d } else { b'A' - 10 + d }
}

// Returns what follows a byte of an unfinished chain, by the bytes behind it.
#[tactic(auto, unfolding(assembly::specs::Listing::separator))]
fn separator(rest: &[u8]) -> u8
    ensures { result ≡ rule.separator rest.now }
{
    if rest.is_empty() { b'\n' } else { b' ' }
}

// Writes the bytes of an unfinished chain at a place of the text, as far as it has room; returns the place behind them.
// Kept, point 3: each turn takes the first byte off the slice that is left, as the definition bytes_line does (d).
pub(crate) fn put_bytes(chain: &[u8], text: &mut [u8], at: usize) -> usize
    ensures { (result ≡ behind at (rule.bytes_line chain.now)) × (text.new ≡ sets text.old at (rule.bytes_line chain.now)) }
{
    let mut rest = chain;
    let mut end = at;
    while let Some((byte, others)) = rest.split_first() {
        let high = hex_digit(*byte / 16);
        let low = hex_digit(*byte % 16);
        end = put_three(high, low, separator(others), text, end);
        rest = others;
    }
    end
}
