#![tactic(auto)]

// Big-endian numbers of 2, 4 and 8 bytes in lent bytes. The caller shows that they lie inside. A function for each width, since the
// language has a type for each.
ghost use Rattle.std.specs.Prelude.{◌≡◌, ◌+◌, ◌≤◌, ◌<◌, length};
ghost use Rattle.words.specs.Word.{word, put_word};

// The number in the two bytes from `at` on.
pub fn word2(bytes: &[u8], at: usize) -> u32
    requires { at + 2 ≤ length bytes.now }
    ensures { result ≡ word 2 bytes.now at }
{
    u32::from(u16::from_be_bytes([bytes[at], bytes[at + 1]]))
}

// The number in the four bytes from `at` on.
pub fn word4(bytes: &[u8], at: usize) -> u32
    requires { at + 4 ≤ length bytes.now }
    ensures { result ≡ word 4 bytes.now at }
{
    u32::from_be_bytes([bytes[at], bytes[at + 1], bytes[at + 2], bytes[at + 3]])
}

// The number in the eight bytes from `at` on.
pub fn word8(bytes: &[u8], at: usize) -> u64
    requires { at + 8 ≤ length bytes.now }
    ensures { result ≡ word 8 bytes.now at }
{
    let high = u64::from(word4(bytes, at));
    let low = u64::from(word4(bytes, at + 4));
    high * 4294967296 + low
}

// Stores x in the two bytes from `at` on.
pub fn put2(bytes: &mut [u8], at: usize, x: u32)
    requires { (at + 2 ≤ length bytes.old) × (x < 65536) }
    ensures { bytes.new ≡ put_word 2 bytes.old at x }
{
    let pair = (x as u16).to_be_bytes();
    bytes[at] = pair[0];
    bytes[at + 1] = pair[1];
}

// Stores x in the four bytes from `at` on.
pub fn put4(bytes: &mut [u8], at: usize, x: u32)
    requires { at + 4 ≤ length bytes.old }
    ensures { bytes.new ≡ put_word 4 bytes.old at x }
{
    let digits = x.to_be_bytes();
    bytes[at] = digits[0];
    bytes[at + 1] = digits[1];
    bytes[at + 2] = digits[2];
    bytes[at + 3] = digits[3];
}

// Stores x in the eight bytes from `at` on.
pub fn put8(bytes: &mut [u8], at: usize, x: u64)
    requires { at + 8 ≤ length bytes.old }
    ensures { bytes.new ≡ put_word 8 bytes.old at x }
{
    put4(bytes, at, (x / 4294967296) as u32);
    put4(bytes, at + 4, (x % 4294967296) as u32);
}
