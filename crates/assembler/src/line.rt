// A line of the listing that grows at its end: contracts see it as the list of its characters.
ghost use Rattle.std.specs.Prelude.{◌≡◌, ◌+◌, ◌<◌, ◌≤◌, ℕ, List, [], ◌∷◌, ◌++◌, length, take};
ghost use Rattle.std.proofs.lemmas.List.Edits.{sets};
ghost use Rattle.assembler.specs.Text.{behind};

use crate::lines;
use std::marker::Model;

// The longest line of a chain: a name of 11 characters, a space, a minus sign, ten digits and a newline.
const LONGEST: usize = 24;

// Kept, point 6: a buffer with its length, since there is no heap; the two are one type, which ties them (a).
#[derive(Drop)]
pub(crate) struct Line {
    bytes: [u8; LONGEST],
    len: usize,
}

impl Model for Line {
    ghost Value = { List ℕ };

    ghost view = { λ s. take s.len s.bytes };

    ghost invariant = { λ s. s.len ≤ 24 };
}

impl Line {
    // Makes an empty line.
    pub(crate) fn new() -> Self
        ensures { result ≡ [] }
    {
        Line {
            bytes: [0; LONGEST],
            len: 0,
        }
    }

    // Counts the characters.
    pub(crate) fn len(&self) -> usize
        ensures { (result ≡ length self.now) × (result ≤ 24) }
    {
        self.len
    }

    // Adds a character.
    pub(crate) fn push(&mut self, byte: u8)
        requires { length self.old < 24 }
        ensures { self.new ≡ self.old ++ (byte ∷ []) }
    {
        self.bytes[self.len] = byte;
        self.len += 1;
    }

    // Adds a text.
    pub(crate) fn push_str(&mut self, text: &str)
        requires { length self.old + length text.now ≤ 24 }
        ensures { self.new ≡ self.old ++ text.now }
    {
        let end = self.len + text.len();
        self.bytes[self.len..end].copy_from_slice(text.as_bytes());
        self.len = end;
    }

    // Writes the line at a place of the text, as far as it has room; returns the place behind it.
    // Kept, point 6: the place comes from put_all, where it may be behind the text's end (lines::put_all).
    pub(crate) fn put(&self, text: &mut [u8], at: usize) -> usize
        ensures { (result ≡ behind at self.now) × (text.new ≡ sets text.old at self.now) }
    {
        lines::put_all(&self.bytes[..self.len], text, at)
    }
}
