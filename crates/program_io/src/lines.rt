// The line that t414_run prints (01, Numbers at the edges): three hex numbers and three decimal ones, the last with a letter where it is a part of
// 10. And its line on standard error, of an access outside memory (02, No. 1).
ghost use Rattle.std.specs.Prelude.{◌≡◌, slice_index};

use crate::answers::{Access, Numbers, Part, Refusal, as_numbers};
use rules::Machine;
use rules::names::*;
use std::fmt;

impl Part {
    // Kept, point 4: the letter of a part is a match on its enum, a line a case (d).
    fn letter(self) -> char {
        match self {
            Part::Fetch => 'a',
            Part::Load => 'b',
            Part::Store => 'c',
        }
    }

    fn name(self) -> &'static str {
        match self {
            Part::Fetch => "fetch",
            Part::Load => "load",
            Part::Store => "store",
        }
    }
}

// The line for standard error: the part of 10, the kind of the access, and its address.
impl fmt::Display for Access {
    fn fmt<W: fmt::Write>(&self, f: &mut fmt::Formatter<W>) -> fmt::Result {
        let address = self.address;
        let letter = self.part.letter();
        let name = self.part.name();
        write!(f, "10{letter}: {name} outside memory at {address:08X}")
    }
}

// Returns the part of 10 by its number.
// Kept, point 1: the line tells any number as a part, as it did (a).
fn part_of(part: u32) -> Part {
    match part {
        KIND_FETCH => Part::Fetch,
        KIND_LOAD => Part::Load,
        _ => Part::Store,
    }
}

// The number, and the letter where it has a part.
impl fmt::Display for Numbers {
    fn fmt<W: fmt::Write>(&self, f: &mut fmt::Formatter<W>) -> fmt::Result {
        let number = self.number;
        if self.part == 0 {
            return write!(f, "{number}");
        }
        let letter = part_of(self.part).letter();
        write!(f, "{number}{letter}")
    }
}

// The number, and the letter where it is a part of 10.
impl fmt::Display for Refusal {
    fn fmt<W: fmt::Write>(&self, f: &mut fmt::Formatter<W>) -> fmt::Result {
        as_numbers(Some(*self)).fmt(f)
    }
}

// The line of a run: A, B, C, the accepted steps, the journal words used, and the refusal that ended the run, or 0, in numbers.
#[derive(Clone, Copy)]
pub struct RunLine {
    pub a: u32,
    pub b: u32,
    pub c: u32,
    pub steps: u64,
    pub used: usize,
    pub refusal: Numbers,
}

impl fmt::Display for RunLine {
    fn fmt<W: fmt::Write>(&self, f: &mut fmt::Formatter<W>) -> fmt::Result {
        let RunLine {
            a,
            b,
            c,
            steps,
            used,
            refusal,
        } = self;
        write!(f, "{a:08X} {b:08X} {c:08X} {steps} {used} {refusal}")
    }
}

// Makes the line of a run that ends at the machine m. It tells any three numbers.
pub fn line(m: Machine, steps: u64, refusal: Numbers) -> RunLine
    ensures stack { (result.a ≡ slice_index m.regs AREG) × (result.b ≡ slice_index m.regs BREG) × (result.c ≡ slice_index m.regs CREG) }
    ensures fields { (result.steps ≡ steps) × (result.used ≡ m.used) × (result.refusal ≡ refusal) }
{
    RunLine {
        a: m.regs[AREG],
        b: m.regs[BREG],
        c: m.regs[CREG],
        steps,
        used: m.used,
        refusal,
    }
}
