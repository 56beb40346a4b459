// Cursors into rising lists. Nodes are looked at from left to right, so a cursor only moves forward, and a look costs a constant.
ghost use Rattle.std.specs.Prelude.{◌≡◌, ◌+◌, ◌^◌, ◌≤◌, ◌<◌, ◌||◌, length};
ghost use Rattle.conflict_search.specs.Cursor.{Reached, below_at};

// Where the search stands in a record's lists.
#[derive(Clone, Copy)]
pub struct Cursors {
    pub point: usize,
    pub scan: usize,
}

// The first place from a cursor on whose number is at least `from`, the list's end if there is none.
pub fn forward(numbers: &[u32], cursor: usize, from: u32) -> usize
    requires { cursor ≤ length numbers.now }
    ensures { Reached numbers.now cursor from result }
{
    for i in cursor..numbers.len() {
        if from <= numbers[i] {
            return i;
        }
    }
    numbers.len()
}

// Whether there is a number at a cursor, and it is below `to`.
pub fn below(numbers: &[u32], cursor: usize, to: u64) -> bool
    ensures { result ≡ below_at numbers.now cursor to }
{
    cursor < numbers.len() && u64::from(numbers[cursor]) < to
}

// Whether the key or the scan at its cursor begins below `to`.
pub fn touched(keys: &[u32], lows: &[u32], cursors: Cursors, to: u64) -> bool
    ensures { result ≡ below_at keys.now cursors.point to || below_at lows.now cursors.scan to }
{
    below(keys, cursors.point, to) || below(lows, cursors.scan, to)
}
