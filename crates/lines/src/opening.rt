// The first bytes of an input: the limits N and Z, four bytes each.
ghost use Rattle.std.specs.Prelude.{◌≡◌};
ghost use Rattle.lines.specs.Opening.{size_for, Opens};

use meld::create;
use record::Answer;
use words::word4;

// The bytes in front of the log.
pub const HEAD: usize = 8;

// The answer to an input that asks for no pool of the program.
const REFUSED: Answer = Answer::BAD_LIMITS;

// The bytes of a pool for N keys.
fn size_for(n: u32) -> usize
    ensures { result ≡ size_for n }
{
    64 + 64 * (n as usize)
}

// Creates the pool that an input's first eight bytes ask for, at the front of the bytes lent, and gives its size; or the answer 9 of `create`, and
// for fewer than eight bytes, an N above the program's largest, or too few bytes lent: then no byte is changed.
pub fn open(pool: &mut [u8], head: &[u8], most: u32) -> Result<usize, Answer>
    ensures { Opens most pool.old head.now result pool.new }
{
    if head.len() < HEAD {
        return Err(REFUSED);
    }
    let n = word4(head, 0);
    let z = word4(head, 4);
    if n > most {
        return Err(REFUSED);
    }
    let size = size_for(n);
    if pool.len() < size {
        return Err(REFUSED);
    }
    let answer = create(&mut pool[..size], n, z);
    if answer != Answer::COMMITTED {
        return Err(answer);
    }
    Ok(size)
}
