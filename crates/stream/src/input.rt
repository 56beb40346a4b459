// Reading into lent bytes.
ghost use Rattle.std.specs.Prelude.{◌≡◌, ◌≤◌, length};
ghost use Rattle.stream.specs.Buffer.{filled_by, Refilled, FilledUp};

use std::io;
use std::io::Read;

// How many bytes are held at the front of a buffer after a read, and whether the read failed. The bytes held are there behind a failed read too, so
// the number stands beside the flag.
#[derive(Clone, Copy)]
pub struct Filled {
    pub held: usize,
    pub failed: bool,
}

// What a read behind the bytes held has answered, told: so many bytes more are held; none, and that it failed, where it has.
fn told(got: io::Result<usize>, buffer: &[u8], held: usize) -> Filled
    requires { held ≤ length buffer.now }
    ensures { result ≡ filled_by got held (length buffer.now) }
{
    let (count, failed) = match got {
        Ok(count) => (count, false),
        Err(_) => (0, true),
    };
    Filled {
        held: held + count.min(buffer.len() - held),
        failed,
    }
}

// Reads once behind the bytes held at the front of the buffer, and answers how many are held then: as many as before at the end of the
// input, where the buffer is full, and where the read fails, which alone is told as failed.
pub fn refill<R: Read>(input: &mut R, buffer: &mut [u8], held: usize) -> Filled
    requires { held ≤ length buffer.old }
    ensures { Refilled held buffer.old buffer.new result }
{
    let got = input.read(&mut buffer[held..]);
    told(got, buffer, held)
}

// Reads behind the bytes held until the buffer is full or a read brings nothing, and answers how many are held then and whether that read
// failed.
pub fn fill<R: Read>(input: &mut R, buffer: &mut [u8], held: usize) -> Filled
    requires { held ≤ length buffer.old }
    ensures filled { FilledUp held buffer.old buffer.new result }
    ensures within { result.held ≤ length buffer.new }
{
    let mut held = held;
    // It moves on by what was read, so no index is counted.
    while held < buffer.len() {
        let filled = refill(input, buffer, held);
        if filled.held == held {
            return filled;
        }
        held = filled.held;
    }
    Filled {
        held,
        failed: false,
    }
}
