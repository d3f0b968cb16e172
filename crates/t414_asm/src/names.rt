// The names of functions and operations, learnt from the listing.
ghost use Rattle.std.specs.Prelude.{◌≡◌, ◌<◌, ◌≤◌, length};

use crate::line::put_chain;
use std::hash::{FoldHasher, Hasher};

// What a name stands for: a function, which takes an operand, or an operation, by its code.
#[derive(Clone, Copy, Debug, PartialEq, Eq)]
pub(crate) enum Instruction {
    Function(u32),
    Operation(u32),
}

// The function operate: its operand is the code of an operation.
pub(crate) const OPERATE: u32 = 15;

// No operation has this code, so that operate with it is listed with its operand.
const UNNAMED: u32 = 0xFFFF_FFFF;

// No name has more letters.
const LETTERS: usize = 12;

// A name, the first size letters, and what it stands for.
// Kept, point 6: a buffer with its length, since there is no heap; the two are one type, which ties them (a).
#[derive(Clone, Copy)]
struct Entry {
    letters: [u8; LETTERS],
    size: usize,
    instruction: Instruction,
    ghost within: { size ≤ 12 },
}

impl Entry {
    // Makes the entry of a name, unless the name is too long.
    fn new(name: &[u8], instruction: Instruction) -> Option<Entry> {
        let size = name.len();
        if size > LETTERS {
            return None;
        }
        let mut letters = [0; LETTERS];
        letters[..size].copy_from_slice(name);
        Some(Entry {
            letters,
            size,
            instruction,
        })
    }

    fn name(&self) -> &[u8] {
        &self.letters[..self.size]
    }
}

// The slots of hashes, and behind the last of them one for each function and operation.
const HASHED: usize = 512;

const SLOTS: usize = HASHED + 144;

// The names, each in the slot of its hash, or in the first free one behind it.
// Kept, point 6: (b) to look a name up by its position in a list of all writes 20.7 MB of code a second, by its slot 47, as before; the goal is 50.
#[derive(Drop)]
pub(crate) struct Names {
    slots: [Option<Entry>; SLOTS],
}

// Returns the slot of a word's hash.
fn slot_of(word: &[u8]) -> usize
    ensures { result < 512 }
{
    let mut hasher = FoldHasher::default();
    hasher.write(word);
    hasher.finish() as usize % HASHED
}

impl Names {
    // Learns the name of each function that takes an operand, and of each operation that has one.
    pub(crate) fn learnt() -> Names {
        let mut names = Names {
            slots: [None; SLOTS],
        };
        for function in 0..16 {
            names.learn(Instruction::Function(function));
        }
        for code in 0..128 {
            names.learn(Instruction::Operation(code));
        }
        names
    }

    // Learns the name of an instruction, if it has one: the first word of the line that list writes for it. Behind a function's name that word
    // ends in a space, since an operand follows; behind an operation's the line ends.
    fn learn(&mut self, instruction: Instruction) {
        let (function, operand, ending) = match instruction {
            Instruction::Function(function) => (function, UNNAMED, b' '),
            Instruction::Operation(code) => (OPERATE, code, b'\n'),
        };
        let mut code = [0; 8];
        let mut line = [0; 32];
        let Ok(size) = put_chain(function, operand, &mut code) else {
            return;
        };
        if assembler::list(&code[..size], &mut line).is_err() {
            return;
        }
        match line.iter().position(|byte| matches!(byte, b' ' | b'\n')) {
            Some(end) if line[end] == ending => self.enter(&line[..end], instruction),
            _ => {}
        }
    }

    // Enters a name.
    fn enter(&mut self, name: &[u8], instruction: Instruction) {
        let mut slots = self.slots[slot_of(name)..].iter_mut();
        if let Some(slot) = slots.find(|slot| slot.is_none()) {
            *slot = Entry::new(name, instruction);
        }
    }

    // Returns what a word names. The search ends at a free slot.
    pub(crate) fn find(&self, word: &[u8]) -> Option<Instruction> {
        let entry = self.slots[slot_of(word)..]
            .iter()
            .map_while(|slot| slot.as_ref())
            .find(|entry| entry.name() == word)?;
        Some(entry.instruction)
    }
}
