// The carry: at its front the bytes of a record whose others are still to come. How many they are stands beside it, as C lends both: one struct of the
// two would be made in `feed` only to be taken apart in each step.
ghost use Rattle.std.specs.Prelude.{◌≡◌, ◌&&◌, ◌+◌, ◌*◌, ◌≤◌, eqb, length};
ghost use Rattle.record.specs.Reader.{front};
ghost use Rattle.pages.specs.Pages.{carry_size, may_carry, bytes_in};
ghost use Rattle.pages.specs.Steps.{sized_by, begun_in};

use record::limits::MAX_SIZE;
use record_log::is_impossible;
use words::word2;

// How far the record is that begins with the bytes that are in.
#[derive(Clone, Copy)]
pub enum Begun {
    // Its length is not in yet.
    Short,
    // Its length cannot be.
    Impossible,
    // So many bytes it has, the two of the length among them.
    Sized(usize),
}

// Whether a call could have left this carry with so many bytes at its front.
pub fn may_carry(carry: &[u8], carried: usize) -> bool
    ensures { result ≡ (eqb (length carry.now) carry_size && may_carry carry.now carried) }
{
    if carry.len() != MAX_SIZE {
        return false;
    }
    if carried < 2 {
        return true;
    }
    let length = word2(carry, 0) as usize;
    if is_impossible(length) {
        return carried == 2;
    }
    carried < 2 + length
}

// What a length says.
fn sized(length: u32) -> Begun
    ensures { result ≡ sized_by length }
{
    let bytes = length as usize;
    if is_impossible(bytes) {
        return Begun::Impossible;
    }
    Begun::Sized(2 + bytes)
}

// How far the record is that begins with the bytes carried and goes on in the part. The two bytes of its length may lie in both.
pub fn how_far(carry: &[u8], carried: usize, part: &[u8]) -> Begun
    requires { carried ≤ length carry.now }
    ensures { result ≡ begun_in (bytes_in carry.now carried part.now) }
{
    if carried >= 2 {
        return sized(word2(carry, 0));
    }
    if part.len() < 2 - carried {
        return Begun::Short;
    }
    if carried == 0 {
        return sized(word2(part, 0));
    }
    sized(word2(&[carry[0], part[0]], 0))
}

// Stores the part behind the bytes carried. The library's `copy_from_slice` is no choice: the archive for C would need `memmove` from outside.
pub fn put_behind(carry: &mut [u8], carried: usize, part: &[u8])
    requires { carried + length part.now ≤ length carry.old }
    ensures { carry.new ≡ front (bytes_in carry.old carried part.now) carry.old }
{
    for i in 0..part.len() {
        carry[carried + i] = part[i];
    }
}
