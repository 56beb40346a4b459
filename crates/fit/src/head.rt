// The header and the length.
ghost use Rattle.std.specs.Prelude.{◌≡◌, ℕ, ◌+◌, ◌*◌, ◌≤◌, ◌<◌, length, get_or};
ghost use Rattle.fit.specs.Whole.{Decides, Head};

use nodes::header::{Header, read_header};

// Whether the bytes behind the header's words are zero.
fn zeros(pool: &[u8]) -> bool
    requires { 64 ≤ length pool.now }
    ensures { Decides ((k : ℕ) → 28 ≤ k → k < 64 → get_or pool.now k 0 ≡ 0) result }
{
    for at in 28..64 {
        if pool[at] != 0 {
            return false;
        }
    }
    true
}

// Whether mark, limits, length and the number of kept keys are as they should be, and the rest of the header is zero.
pub fn head_fits(pool: &[u8]) -> bool
    requires { 64 ≤ length pool.now }
    ensures { Decides (Head pool.now) result }
{
    let h = read_header(pool);
    h.mark == Header::MARK
        && (1..=65536).contains(&h.limit)
        && (1..=4096).contains(&h.zone)
        && pool.len() == 64 + 64 * (h.limit as usize)
        && h.kept <= h.limit
        && zeros(pool)
}
