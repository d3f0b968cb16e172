// Standard input, read into a buffer: by t414_run, t414_asm and t414_list.
ghost use Rattle.std.specs.Prelude.{◌≤◌, length};

use crate::place::read_some;

// Reads until buf is full, the input ends or a read fails; returns how many bytes are at the start of buf.
pub fn read_full(rt: &HostRuntime, buf: &mut [u8]) -> usize
    ensures { result ≤ length buf.new }
{
    let mut done = 0;
    // Kept, point 3: the place moves on by as much as a read gives, so no iterator counts it.
    while done < buf.len() {
        let got = read_some(rt, &mut buf[done..]);
        if got == 0 {
            return done;
        }
        done += got;
    }
    done
}
