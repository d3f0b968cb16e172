// Reading and writing of t414_batch: the places in its input and output buffers, and its report.
ghost use Rattle.std.specs.Prelude.{◌≡◌, ◌+◌, ◌-◌, ◌*◌, ◌≤◌, length, slice_range};
ghost use Rattle.program_io.specs.Sizes.{response_head, most_response};

use crate::case;
use crate::case::Fault;
use rules::Reply;
use std::io::Read;

// The input: the bytes at..end of the buffer are read, and not answered yet.
// Kept, point 6: a buffer with its length, since there is no heap; the two are one type, which ties them (a).
#[derive(Drop)]
pub struct Input<'a> {
    pub buffer: &'a mut [u8],
    pub at: usize,
    pub end: usize,
    ghost within: { (at ≤ end) × (end ≤ length buffer.now) },
}

impl<'a> Input<'a> {
    // Makes the input of which nothing is read yet.
    // Kept, point 2: the other one makes Output; each sets the fields of its own type (d).
    pub fn new(buffer: &'a mut [u8]) -> Input<'a>
        ensures { (result.at ≡ 0) × (result.end ≡ 0) × (result.buffer.now ≡ buffer.old) }
    {
        Input {
            buffer,
            at: 0,
            end: 0,
        }
    }

    // Returns the bytes that are not answered yet.
    pub fn unanswered(&self) -> &[u8]
        ensures bytes { result.now ≡ slice_range self.now.buffer.now self.now.at self.now.end }
        ensures length { length result.now ≡ self.now.end - self.now.at }
    {
        &self.buffer[self.at..self.end]
    }

    // Leaves the first size bytes behind, which are answered.
    pub fn answered(&mut self, size: usize)
        requires { self.old.at + size ≤ self.old.end }
        ensures { (self.new.at ≡ self.old.at + size) × (self.new.end ≡ self.old.end) × (self.new.buffer.now ≡ self.old.buffer.now) }
    {
        self.at += size;
    }

    // Moves the bytes left to the front of the buffer and reads more after them; returns false at the end of the input.
    pub fn refill(&mut self, rt: &HostRuntime) -> Result<bool, Fault>
        ensures at { self.new.at ≡ 0 }
        ensures length { length self.new.buffer.now ≡ length self.old.buffer.now }
    {
        let kept = self.end - self.at;
        self.buffer.copy_within(self.at..self.end, 0);
        let got = read_some(rt, &mut self.buffer[kept..]);
        self.at = 0;
        self.end = kept + got;
        if got == 0 && kept > 0 {
            return Err(Fault::CutShort);
        }
        Ok(got > 0)
    }
}

// Reads once, at most as many bytes as buf has; returns their number, 0 where the input ended or cannot be read.
// Kept, point 1: std's read says 0 at the end of the input; an error ends the input too, as it did (a).
pub(crate) fn read_some(rt: &HostRuntime, buf: &mut [u8]) -> usize
    ensures { result ≤ length buf.new }
{
    rt.stdin().read(buf).unwrap_or(0)
}

// The output: the first used bytes of the buffer are not written yet; count cases are answered.
// Kept, point 6: a buffer with its length, since there is no heap; the two are one type, which ties them (a).
#[derive(Drop)]
pub struct Output<'a> {
    pub buffer: &'a mut [u8],
    pub used: usize,
    pub count: u64,
    ghost within: { used ≤ length buffer.now },
}

impl<'a> Output<'a> {
    // Makes the output that has no response yet.
    pub fn new(buffer: &'a mut [u8]) -> Output<'a>
        ensures { (result.used ≡ 0) × (result.count ≡ 0) × (result.buffer.now ≡ buffer.old) }
    {
        Output {
            buffer,
            used: 0,
            count: 0,
        }
    }

    // Writes the response to a case behind the others.
    pub fn respond(&mut self, r: Reply, mem: &[u32], journal: &[u32])
        requires { self.old.used + response_head + 4 * length mem.now + 4 * length journal.now ≤ length self.old.buffer.now }
        ensures used { self.new.used ≡ self.old.used + response_head + 4 * length mem.now + 4 * length journal.now }
        ensures length { length self.new.buffer.now ≡ length self.old.buffer.now }
    {
        self.used += case::respond(r, mem, journal, &mut self.buffer[self.used..]);
        self.count = self.count.wrapping_add(1);
    }

    // Writes the responses on standard output.
    fn flush(&mut self, rt: &HostRuntime) -> Result<(), Fault>
        ensures { (self.new.used ≡ 0) × (self.new.buffer.now ≡ self.old.buffer.now) }
    {
        let written = rt.write_all(self.unwritten());
        self.used = 0;
        written.map_err(|_| Fault::Unwritten)
    }

    // Returns the responses that are not written yet.
    fn unwritten(&self) -> &[u8] {
        &self.buffer[..self.used]
    }

    // Writes the responses where the longest one would not fit behind them.
    pub fn make_room(&mut self, rt: &HostRuntime) -> Result<(), Fault>
        requires { most_response ≤ length self.old.buffer.now }
        ensures { (self.new.used + most_response ≤ length self.new.buffer.now) × (self.new.buffer.now ≡ self.old.buffer.now) }
    {
        if self.buffer.len() - self.used < case::MOST_RESPONSE {
            return self.flush(rt);
        }
        Ok(())
    }

    // Writes the responses, and reports the fault that stopped the program, where there is one, with the number of its case.
    pub fn finish(&mut self, rt: &HostRuntime, outcome: Result<(), Fault>)
        ensures { (self.new.used ≡ 0) × (self.new.buffer.now ≡ self.old.buffer.now) }
    {
        let written = self.flush(rt);
        if let Err(fault) = written.and(outcome) {
            let number = self.count.wrapping_add(1);
            let _ = eprintln!(rt; "t414_batch: case {number}: {fault}");
        }
    }
}
