// The two public functions, and nothing else: assemble writes the shortest chain of a function and an operand, list the listing of code
// (02, No. 2). Both write at the start of a lent output, and leave it as it is where they refuse.
#![tactic(auto)]

mod chains; // the prefix writer
mod line; // a line that grows at its end
mod lines; // the lines of the listing
mod names; // the names of functions and operations
mod passes; // the passes over code that list it

ghost use Rattle.std.specs.Prelude.{◌≡◌};
ghost use Rattle.assembly.specs.Calls.{function_bad, AssembleContract, ListContract};

use assembly::Refusal;
use chains::{NFIX, PFIX};

// Tests for a function number that is no function with an operand: above 15, pfix or nfix.
#[tactic(auto, unfolding(assembly::specs::Calls::function_bad))]
fn function_bad(function: u32) -> bool
    ensures { result ≡ function_bad function }
{
    function > 15 || function == PFIX || function == NFIX
}

// Writes the shortest chain of a function and an operand.
pub fn assemble(function: u32, operand: u32, out: &mut [u8]) -> Result<usize, Refusal>
    ensures { AssembleContract function operand out.old result out.new }
{
    if function_bad(function) {
        return Err(Refusal::BadFunction);
    }
    let mut chain = [0u8; 8];
    let size = chains::write(function, operand, &mut chain);
    if size > 8 {
        return Err(Refusal::TooLong);
    }
    if size > out.len() {
        return Err(Refusal::NoRoom);
    }
    out[..size].copy_from_slice(&chain[..size]);
    Ok(size)
}

// Writes the listing of code.
pub fn list(code: &[u8], out: &mut [u8]) -> Result<usize, Refusal>
    ensures { ListContract code.now out.old result out.new }
{
    if passes::has_room(code, out.len()) {
        return Ok(passes::write_listing(code, out));
    }
    Err(Refusal::NoRoom)
}
