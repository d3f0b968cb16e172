// The text that is gathered before it is written.
ghost use Rattle.std.specs.Prelude.{◌≡◌, ◌≤◌, length, IfOk};

use assembly::Refusal;

// The length of text that is written before more is put behind it.
const MUCH: usize = 131072;

// Writes the listing of code at the start of out; returns its length.
fn list(code: &[u8], out: &mut [u8]) -> Result<usize, Refusal>
    ensures { IfOk result (λ size. size ≤ length out.old) }
{
    assembler::list(code, out)
}

// A buffer whose first used bytes are text that is not written yet.
// Kept, point 6: a buffer with its length, since there is no heap; the two are one type, which ties them (a).
#[derive(Drop)]
pub(crate) struct Gathered<'a> {
    buffer: &'a mut [u8],
    used: usize,
    ghost within: { used ≤ length buffer.now },
}

impl<'a> Gathered<'a> {
    // Makes the text that has nothing yet.
    pub(crate) fn new(buffer: &'a mut [u8]) -> Gathered<'a>
        ensures { (result.used ≡ 0) × (result.buffer.now ≡ buffer.old) }
    {
        Gathered { buffer, used: 0 }
    }

    // Writes the text, and says so where that fails.
    pub(crate) fn flush(&mut self, rt: &HostRuntime)
        ensures { (self.new.used ≡ 0) × (self.new.buffer.now ≡ self.old.buffer.now) }
    {
        let written = rt.write_all(self.unwritten());
        self.used = 0;
        if written.is_err() {
            let _ = rt.eprintln("list: the listing cannot be written");
        }
    }

    // Returns the text.
    fn unwritten(&self) -> &[u8] {
        &self.buffer[..self.used]
    }

    // Writes the text where there is much of it.
    pub(crate) fn make_room(&mut self, rt: &HostRuntime)
        ensures { (self.new.used ≤ self.old.used) × (self.new.buffer.now ≡ self.old.buffer.now) }
    {
        if self.used >= MUCH {
            self.flush(rt);
        }
    }

    // Puts the listing of code behind the text.
    pub(crate) fn list(&mut self, rt: &HostRuntime, code: &[u8])
        ensures { length self.new.buffer.now ≡ length self.old.buffer.now }
    {
        match list(code, &mut self.buffer[self.used..]) {
            Ok(size) => self.used += size,
            Err(_) => {
                let _ = rt.eprintln("list: the listing of a piece of code does not fit");
            }
        }
    }

    // Makes the newline at the end of the text a space, where more of the line follows.
    pub(crate) fn join(&mut self)
        ensures { (self.new.used ≡ self.old.used) × (length self.new.buffer.now ≡ length self.old.buffer.now) }
    {
        if self.used > 0 {
            self.buffer[self.used - 1] = b' ';
        }
    }

    // Puts bytes behind the text, where they fit.
    pub(crate) fn put<const N: usize>(&mut self, bytes: [u8; N])
        ensures { length self.new.buffer.now ≡ length self.old.buffer.now }
    {
        if let Some(place) = self.buffer[self.used..].first_chunk_mut::<N>() {
            *place = bytes;
            self.used += N;
        }
    }
}
