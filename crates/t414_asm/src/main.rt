// Assembles text from standard input (02, No. 2), at most 1 MiB of it, a line an instruction, and writes the code. Where a line is bad it tells
// its number on standard error and writes no code.
#![tactic(auto)]

mod failure; // why there is no code
mod line; // one line: its words, its operand, its chain
mod lines; // the lines, without their comments
mod names; // the names, learnt from the listing

ghost use Rattle.std.specs.Prelude.{◌≡◌, ◌≤◌, length, IfOk};

use failure::Failure;
use line::assemble_line;
use lines::Lines;
use names::Names;
use program_io::input::read_full;
use program_io::room::zeros;

// The most bytes of text, and one more, which tells that there is too much. No line makes more code than it has text.
const MOST: usize = 1048576;

const INPUT: usize = MOST + 1;

// Assembles the lines of a text one after the other, up to the first bad one; returns how many bytes of code there are.
fn assemble_text(text: &[u8], names: &Names, out: &mut [u8]) -> Result<usize, Failure>
    ensures { IfOk result (λ size. size ≤ length out.old) }
{
    let mut size = 0;
    for (line, number) in Lines::new(text).zip(1u64..) {
        match assemble_line(line, names, &mut out[size..]) {
            Ok(written) => size += written,
            Err(reason) => return Err(Failure::BadLine { number, reason }),
        }
    }
    Ok(size)
}

// Assembles a text and writes its code.
fn run(rt: &HostRuntime, text: &[u8], out: &mut [u8]) -> Result<(), Failure> {
    let size = assemble_text(text, &Names::learnt(), out)?;
    rt.write_all(&out[..size]).map_err(|_| Failure::Unwritten)
}

// Reads the text, at most MOST bytes of it.
fn assemble_input(rt: &HostRuntime) -> Result<(), Failure> {
    let mut text = zeros::<u8, INPUT>();
    let got = read_full(rt, &mut text);
    if got > MOST {
        return Err(Failure::TextTooLong);
    }
    let mut out = zeros::<u8, MOST>();
    run(rt, &text[..got], &mut out)
}

fn main(rt: HostRuntime) {
    if let Err(failure) = assemble_input(&rt) {
        let _ = eprintln!(rt; "asm: {failure}");
    }
}
