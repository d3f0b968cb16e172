// One case of t414_batch: its head, its machine, and its response.
ghost use Rattle.std.specs.Prelude.{◌≡◌, ◌+◌, ◌*◌, ◌≤◌, length, IfOk, IfSome};
ghost use Rattle.program_io.specs.Sizes.{case_head, response_head, most_words, most_journal};

use crate::answers;
use crate::bytes::{give_words, take_words};
use rules::{Answer, Machine, Reply};
use std::fmt;

// The limits of a case: words of memory, words of journal, bytes of code.
pub const WORDS: usize = 16400;

pub const JOURNAL: usize = 65600;

const CODE: usize = 65600;

// The call repeat, and the bytes of the numbers before its code.
// Kept, point 1: the number of a call as it stands in the bytes of a case (docs/TESTING.md, The batch protocol); Call is what it becomes (a).
const REPEAT: u32 = 8;

const NUMBERS: usize = 20;

// The bytes of a case's first six numbers, of a response's first three, and of depth and used.
const ASKED: usize = 24;

const ANSWERED: usize = 12;

const SIZES: usize = 16;

// The bytes of a case before its memory, of a response before its memory, and of the longest response.
const CASE_HEAD: usize = ASKED + SIZES + 4 * rules::REGISTERS;

const RESPONSE_HEAD: usize = ANSWERED + SIZES + 4 * rules::REGISTERS;

pub(crate) const MOST_RESPONSE: usize = RESPONSE_HEAD + 4 * WORDS + 4 * JOURNAL;

// The reasons to stop before the end of the input.
#[derive(Clone, Copy, PartialEq, Eq, Debug)]
pub enum Fault {
    CutShort,
    UnknownCall,
    TooLong,
    TooShort,
    Unwritten,
}

impl fmt::Display for Fault {
    fn fmt<W: fmt::Write>(&self, f: &mut fmt::Formatter<W>) -> fmt::Result {
        let what = match self {
            Fault::CutShort => "cut short by the end of the input",
            Fault::UnknownCall => "the call is not one of 0 to 8",
            Fault::TooLong => "more than 16400 words, 65600 journal words or 65600 code bytes",
            Fault::TooShort => "fewer than 20 code bytes for call 8",
            Fault::Unwritten => "the responses before it cannot be written",
        };
        f.write_str(what)
    }
}

// The numbers before the code of a repeat.
#[derive(Clone, Copy)]
pub struct Counts {
    pub before: u32,
    pub rounds: u32,
    pub steps: u32,
    pub ticks: u32,
    pub undos: u32,
}

// The call of a case, with its arguments.
#[derive(Clone, Copy)]
pub enum Call {
    Fresh,
    Step,
    Tick,
    Take(u32),
    Give(u32, u8),
    Event,
    Undo,
    Clear,
    Repeat(Counts),
}

// The head of a case of size bytes. Its bytes from..code are the numbers of a repeat, code..end the T414's code. It is within the limits.
#[derive(Clone, Copy)]
pub struct Head {
    pub call: Call,
    pub words: usize,
    pub journal: usize,
    pub from: usize,
    pub code: usize,
    pub end: usize,
    pub size: usize,
    ghost limits: { (words ≤ most_words) × (journal ≤ most_journal) },
    ghost order: { (from ≡ case_head + 4 * words + 4 * journal) × (from ≤ code) × (code ≤ end) × (end ≤ size) },
}

// Reads the numbers of a repeat from the bytes before its code.
fn counted(numbers: &[u8]) -> Counts
    requires { 20 ≤ length numbers.now }
{
    let mut words = [0u32; 5];
    take_words(numbers, &mut words);
    let [before, rounds, steps, ticks, undos] = words;
    Counts {
        before,
        rounds,
        steps,
        ticks,
        undos,
    }
}

// Reads the head of the first case of input; returns none where more input is wanted.
pub fn look(input: &[u8]) -> Result<Option<Head>, Fault>
    ensures { IfOk result (λ found. IfSome found (λ head. head.size ≤ length input.now)) }
{
    if input.len() < ASKED {
        return Ok(None);
    }
    let mut asked = [0u32; 6];
    take_words(input, &mut asked);
    let [number, channel, byte, words, journal, code] = asked;
    let numbers = match number {
        0..=7 => 0,
        REPEAT => NUMBERS,
        _ => return Err(Fault::UnknownCall),
    };
    let words = words as usize;
    let journal = journal as usize;
    let code = code as usize;
    if words > WORDS || journal > JOURNAL || code > CODE {
        return Err(Fault::TooLong);
    }
    if code < numbers {
        return Err(Fault::TooShort);
    }
    let from = CASE_HEAD + 4 * words + 4 * journal;
    let size = from + code.next_multiple_of(4);
    if input.len() < size {
        return Ok(None);
    }
    let call = match number {
        0 => Call::Fresh,
        1 => Call::Step,
        2 => Call::Tick,
        3 => Call::Take(channel),
        4 => Call::Give(channel, (byte % 256) as u8),
        5 => Call::Event,
        6 => Call::Undo,
        7 => Call::Clear,
        _ => Call::Repeat(counted(&input[from..from + numbers])),
    };
    Ok(Some(Head {
        call,
        words,
        journal,
        from,
        code: from + numbers,
        end: from + code,
        size,
    }))
}

// Reads the machine of a case, as the reply of an accepted call.
fn read_machine(case: &[u8]) -> Reply
    requires { case_head ≤ length case.now }
{
    let (sizes, _) = case[ASKED..ASKED + SIZES].as_chunks();
    let mut regs = [0u32; rules::REGISTERS];
    take_words(&case[ASKED + SIZES..], &mut regs);
    let machine = Machine {
        regs,
        depth: usize::from_le_bytes(sizes[0]),
        used: usize::from_le_bytes(sizes[1]),
    };
    Reply {
        machine,
        answer: Answer::Done,
        byte: 0,
    }
}

// Loads a case: returns its machine, and fills mem and journal, which are as long as the case says.
pub fn load(case: &[u8], mem: &mut [u32], journal: &mut [u32]) -> Reply
    requires { case_head + 4 * length mem.old + 4 * length journal.old ≤ length case.now }
    ensures { (length mem.new ≡ length mem.old) × (length journal.new ≡ length journal.old) }
{
    take_words(&case[CASE_HEAD..], mem);
    take_words(&case[CASE_HEAD + 4 * mem.len()..], journal);
    read_machine(case)
}

// Writes the head of a response: all but the words of memory and journal.
fn give_reply(r: Reply, output: &mut [u8])
    requires { response_head ≤ length output.old }
{
    let refusal = answers::refusal_of(r.answer);
    let numbers = [
        answers::one_word(refusal),
        u32::from(r.byte),
        answers::address(refusal),
    ];
    let machine = r.machine;
    give_words(&numbers, output);
    output[ANSWERED..ANSWERED + 8].copy_from_slice(&machine.depth.to_le_bytes());
    output[ANSWERED + 8..ANSWERED + SIZES].copy_from_slice(&machine.used.to_le_bytes());
    give_words(&machine.regs, &mut output[ANSWERED + SIZES..]);
}

// Writes a response at the start of output; returns its length.
pub(crate) fn respond(r: Reply, mem: &[u32], journal: &[u32], output: &mut [u8]) -> usize
    requires { response_head + 4 * length mem.now + 4 * length journal.now ≤ length output.old }
    ensures { result ≡ response_head + 4 * length mem.now + 4 * length journal.now }
{
    let second = RESPONSE_HEAD + 4 * mem.len();
    give_reply(r, output);
    give_words(mem, &mut output[RESPONSE_HEAD..]);
    give_words(journal, &mut output[second..]);
    second + 4 * journal.len()
}
