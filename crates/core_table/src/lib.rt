// The table of operations on registers alone (000 1.11; rules/specs/Operations.antt, register_operations): code and function on Core.
// step_dispatch and step_fast share it.
#![tactic(auto)]

ghost use Rattle.std.specs.Prelude.{◌≡◌};
ghost use Rattle.core_table.specs.Selected as selected;

use core_arith::{long, long_sums, partword, word};
use core_ops::{errors, logic, stack};
use rules::Core;

// Does the operation of a code on the registers; None where the table has no such code.
// Kept, point 7: the match is the table of the definitions, a line a code; a table of pointers would be called through (d).
#[tactic(auto, unfolding(crate::specs::Selected::register_operation, rules::specs::Operations::register_operations))]
pub fn register_operation(code: u32, s: Core) -> Option<Core>
    ensures { result ≡ selected.register_operation code s }
{
    match code {
        0x00 => Some(stack::rev(s)),
        0x02 => Some(logic::bsub(s)),
        0x04 => Some(word::diff(s)),
        0x05 => Some(word::add(s)),
        0x06 => Some(stack::gcall(s)),
        0x08 => Some(word::prod(s)),
        0x09 => Some(word::gt(s)),
        0x0A => Some(logic::wsub(s)),
        0x0C => Some(word::sub(s)),
        0x10 => Some(errors::seterr(s)),
        0x13 => Some(errors::csub0(s)),
        0x16 => Some(long_sums::ladd(s)),
        0x19 => Some(long::norm(s)),
        0x1A => Some(long::ldiv(s)),
        0x1B => Some(stack::ldpi(s)),
        0x1D => Some(long::xdbl(s)),
        0x1E => Some(stack::ldpri(s)),
        0x1F => Some(word::rem(s)),
        0x29 => Some(errors::testerr(s)),
        0x2A => Some(stack::testpranal(s)),
        0x2C => Some(word::div(s)),
        0x31 => Some(long::lmul(s)),
        0x32 => Some(logic::bitnot(s)),
        0x33 => Some(logic::xor(s)),
        0x34 => Some(logic::bcnt(s)),
        0x37 => Some(long_sums::lsum(s)),
        0x38 => Some(long_sums::lsub(s)),
        0x3A => Some(partword::xword(s)),
        0x3C => Some(stack::gajw(s)),
        0x3F => Some(logic::wcnt(s)),
        0x42 => Some(stack::mint(s)),
        0x46 => Some(logic::and(s)),
        0x4B => Some(logic::or(s)),
        0x4C => Some(long::csngl(s)),
        0x4D => Some(errors::ccnt1(s)),
        0x4F => Some(long_sums::ldiff(s)),
        0x52 => Some(word::sum(s)),
        0x53 => Some(word::mul(s)),
        0x56 => Some(partword::cword(s)),
        0x57 => Some(errors::clrhalterr(s)),
        0x58 => Some(errors::sethalterr(s)),
        0x59 => Some(errors::testhalterr(s)),
        _ => None,
    }
}
