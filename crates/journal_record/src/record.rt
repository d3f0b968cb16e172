// The end of a record (01, The journal): after its pairs the registers before the call, then the number of pairs.
ghost use Rattle.std.specs.Prelude.{◌≡◌, [], ◌∷◌, ◌++◌, ◌+◌, ◌≤◌, length};
ghost use Rattle.std.proofs.lemmas.List.Edits.{sets};
ghost use Rattle.rules.specs.Registers.{registers};

use crate::parts::put_regs;
use rules::REGISTERS;

// Writes the registers and the number of pairs.
pub fn put_tail(journal: &mut [u32], regs: [u32; REGISTERS], n: u32, at: usize)
    requires { at + (registers + 1) ≤ length journal.old }
    ensures { journal.new ≡ sets journal.old at (regs ++ (n ∷ [])) }
{
    let last = at + REGISTERS;
    put_regs(journal, regs, at);
    journal[last] = n;
}
