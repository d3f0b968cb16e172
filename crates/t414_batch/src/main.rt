// The comparison program. It reads cases from standard input to its end, makes the calls that each asks for, and writes one
// response for each, in order. All numbers are little-endian.
//
// A case:
//     u32 call             0 fresh, 1 step, 2 tick, 3 take, 4 give, 5 event, 6 undo, 7 clear, 8 repeat
//     u32 channel          for take and give
//     u32 byte             for give, modulo 256
//     u32 words            of memory, up to 16,400, so that Size can be asked
//     u32 journal words    up to 65,600
//     u32 code bytes       for fresh and repeat, up to 65,600
//     u64 depth, u64 used
//     u32 each             the registers, the memory, the journal
//     bytes                the code, and zero bytes up to a multiple of 4
// A response:
//     u32 answer           0 for done, else 01's number of the refusal; plus 256 times its part: 10a 1, 10b 2, 10c 3 (02, No. 1)
//     u32 byte             of an accepted take, else 0
//     u32 address          of the access that was outside memory, else 0
//     u64 depth, u64 used
//     u32 each             the registers, the memory, the journal
//
// Repeat is for measuring (docs/PERFORMANCE.md). Its code begins with five numbers of 32 bits: the steps before the first round,
// the rounds, and the steps, ticks and undos of each round. It makes a fresh machine of the bytes after them and repeats the calls;
// a round begins by clearing the journal. The first refusal ends it. The response has the last answer and the state after it.
//
// A case that the end of the input cuts short, an unknown call, a length past the limits or a repeat with fewer than 20 code bytes
// ends the program: one line on standard error, and no response for that case.
//
// Here are the calls and the loops; reading and writing are in program_io, which makes no public call.
#![tactic(auto)]

ghost use Rattle.std.specs.Prelude.{◌≡◌, ◌+◌, ◌*◌, ◌≤◌, length};
ghost use Rattle.program_io.specs.Sizes.{most_words, most_journal, most_response};

use program_io::case;
use program_io::case::{Call, Counts, Fault, Head, JOURNAL, WORDS};
use program_io::place::{Input, Output};
use program_io::room::{BLOCK, zeros};
use rules::{Answer, Machine, Reply};

// Makes a call n times after the reply first, or until one is refused. The loop keeps the reply, not the machine, which saves a copy for each
// call.
fn repeated<F: Fn(Machine, &mut [u32], &mut [u32]) -> Reply>(
    n: u32,
    first: Reply,
    mem: &mut [u32],
    journal: &mut [u32],
    call: F,
) -> Reply
    requires { F.IsAlwaysCallable call }
{
    let mut reply = first;
    for _ in 0..n {
        if !matches!(reply.answer, Answer::Done) {
            return reply;
        }
        reply = call(reply.machine, mem, journal);
    }
    reply
}

// Steps n times after the reply r. This is the only place that calls step, so that the compiler can inline the whole step into the loop. The call
// stands in a closure, since the name alone would cost a tick 20 instructions.
// Kept, point 2: ticks repeats another call; each is one line over repeated, and the one place that makes its call (d).
fn steps(n: u32, r: Reply, mem: &mut [u32], journal: &mut [u32]) -> Reply {
    repeated(
        n,
        r,
        mem,
        journal,
        |m, mem, journal| t414::step(m, mem, journal),
    )
}

// Ticks n times after the reply r.
fn ticks(n: u32, r: Reply, mem: &mut [u32], journal: &mut [u32]) -> Reply {
    repeated(
        n,
        r,
        mem,
        journal,
        |m, mem, journal| t414::tick(m, mem, journal),
    )
}

// Undoes n times after the reply r, or until an undo is refused.
// Kept, point 2: over repeated an undo takes some 30 instructions more, and more than the second emulator's on two lines (b).
fn undos(n: u32, r: Reply, mem: &mut [u32], journal: &mut [u32]) -> Reply {
    let mut reply = r;
    for _ in 0..n {
        if !matches!(reply.answer, Answer::Done) {
            return reply;
        }
        reply = t414::undo(reply.machine, mem, journal);
    }
    reply
}

// Clears the journal, then makes the steps, ticks and undos of a round.
// Kept, point 5: memory and journal are lent apart through this program, as the public calls take them (a).
fn round(c: Counts, m: Machine, mem: &mut [u32], journal: &mut [u32]) -> Reply {
    let cleared = t414::clear(m, mem, journal);
    let stepped = steps(c.steps, cleared, mem, journal);
    let ticked = ticks(c.ticks, stepped, mem, journal);
    undos(c.undos, ticked, mem, journal)
}

// Makes the steps before the first round, then the rounds.
fn rounds(c: Counts, r: Reply, mem: &mut [u32], journal: &mut [u32]) -> Reply {
    let stepped = steps(c.before, r, mem, journal);
    repeated(
        c.rounds,
        stepped,
        mem,
        journal,
        |m, mem, journal| round(c, m, mem, journal),
    )
}

// Makes the call of a case after the reply r; a repeat begins as fresh does.
// Kept, point 7: a match on the enum of calls, an arm a call, since each takes other arguments (d).
fn reply_to(call: Call, r: Reply, mem: &mut [u32], journal: &mut [u32], code: &[u8]) -> Reply {
    let m = r.machine;
    match call {
        Call::Fresh => t414::fresh(mem, journal, code),
        Call::Step => steps(1, r, mem, journal),
        Call::Tick => ticks(1, r, mem, journal),
        Call::Take(channel) => t414::take(m, mem, journal, channel),
        Call::Give(channel, byte) => t414::give(m, mem, journal, channel, byte),
        Call::Event => t414::event(m, mem, journal),
        Call::Undo => undos(1, r, mem, journal),
        Call::Clear => t414::clear(m, mem, journal),
        Call::Repeat(c) => rounds(c, t414::fresh(mem, journal, code), mem, journal),
    }
}

// Answers the first case of the input, whose head is h.
fn answer(h: Head, input: &mut Input, output: &mut Output, mem: &mut [u32], journal: &mut [u32])
    requires size { h.size + input.old.at ≤ input.old.end }
    requires room { output.old.used + most_response ≤ length output.old.buffer.now }
    requires lengths { (most_words ≤ length mem.old) × (most_journal ≤ length journal.old) }
    ensures length { length output.new.buffer.now ≡ length output.old.buffer.now }
    ensures rest { (input.new.at ≡ input.old.at + h.size) × (input.new.end ≡ input.old.end) × (input.new.buffer.now ≡ input.old.buffer.now) }
{
    let mem = &mut mem[..h.words];
    let journal = &mut journal[..h.journal];
    let case = &input.unanswered()[..h.size];
    let r = case::load(case, mem, journal);
    let reply = reply_to(h.call, r, mem, journal, &case[h.code..h.end]);
    output.respond(reply, mem, journal);
    input.answered(h.size);
}

// Answers cases until the input ends; an error is the reason to stop before. The input has no bound, so the loop has a count of turns that no
// run can use up.
fn answer_all(
    rt: &HostRuntime,
    input: &mut Input,
    output: &mut Output,
    mem: &mut [u32],
    journal: &mut [u32],
) -> Result<(), Fault>
    requires room { output.old.used + most_response ≤ length output.old.buffer.now }
    requires lengths { (most_words ≤ length mem.old) × (most_journal ≤ length journal.old) }
{
    for _ in 0..u64::MAX {
        match case::look(input.unanswered())? {
            Some(head) => answer(head, input, output, mem, journal),
            None => {
                if !input.refill(rt)? {
                    return Ok(());
                }
            }
        }
        output.make_room(rt)?;
    }
    Ok(())
}

fn main(rt: HostRuntime) {
    let mut unanswered = zeros::<u8, BLOCK>();
    let mut unwritten = zeros::<u8, BLOCK>();
    let mut mem = zeros::<u32, WORDS>();
    let mut journal = zeros::<u32, JOURNAL>();
    let mut input = Input::new(&mut unanswered);
    let mut output = Output::new(&mut unwritten);
    let outcome = answer_all(&rt, &mut input, &mut output, &mut mem, &mut journal);
    output.finish(&rt, outcome);
}
