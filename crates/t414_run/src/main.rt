// Runs T414 code from standard input for up to 100 steps and prints one line (01, Numbers at the edges): A, B, C, the accepted
// steps, the journal words used, and the refusal that ended the run, or 0. An access outside memory is also told on standard error, with its
// address (02, No. 1).
#![tactic(auto)]

ghost use Rattle.std.specs.Prelude.{◌≡◌};
ghost use Rattle.t414_run.specs.Program as program;
ghost use Rattle.t414_run.specs.Program.{result_of};

use program_io::answers::{MOST_STEPS, Refusal, as_numbers, refusal_of};
use program_io::input::read_full;
use program_io::lines::line;
use rules::Machine;

// The end of a run: the machine, the accepted steps, and the refusal that ended it, where there is one.
#[derive(Clone, Copy)]
struct Tally {
    machine: Machine,
    steps: u64,
    refusal: Option<Refusal>,
}

// Steps until a refusal, and 100 times at most. A refused step returns the machine unchanged. This is the only place that calls
// step, so that the compiler can inline the whole step into the loop.
fn run(m: Machine, mem: &mut [u32], journal: &mut [u32]) -> Tally
    ensures { result_of result mem.new journal.new ≡ program.run 100 0 m mem.old journal.old }
{
    let mut machine = m;
    for steps in 0..MOST_STEPS {
        let reply = t414::step(machine, mem, journal);
        machine = reply.machine;
        let refusal = refusal_of(reply.answer);
        if refusal.is_some() {
            return Tally {
                machine,
                steps,
                refusal,
            };
        }
    }
    Tally {
        machine,
        steps: MOST_STEPS,
        refusal: None,
    }
}

// Makes a fresh machine with the code and runs it. A refused fresh returns a machine that is all 0.
fn run_code(mem: &mut [u32], journal: &mut [u32], code: &[u8]) -> Tally
    ensures { result_of result mem.new journal.new ≡ program.program code.now mem.old journal.old }
{
    let reply = t414::fresh(mem, journal, code);
    let machine = reply.machine;
    let refusal = refusal_of(reply.answer);
    if refusal.is_some() {
        return Tally {
            machine,
            steps: 0,
            refusal,
        };
    }
    run(machine, mem, journal)
}

// Prints the line, and on standard error the access that was outside memory, where there is one.
fn print_tally(rt: &HostRuntime, t: Tally) {
    let _ = rt.println(line(t.machine, t.steps, as_numbers(t.refusal)));
    if let Some(Refusal::Outside(access)) = t.refusal {
        let _ = rt.eprintln(access);
    }
}

fn main(rt: HostRuntime) {
    let mut mem = [0u32; 1024];
    let mut journal = [0u32; 8192];
    let mut code = [0u8; 4021];
    let got = read_full(&rt, &mut code);
    print_tally(&rt, run_code(&mut mem, &mut journal, &code[..got]));
}
