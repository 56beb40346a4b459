// What is left of a record's points or scans. Each loop takes from both records until nothing is left of either, so none counts an index.
ghost use Rattle.std.specs.Prelude.{◌≡◌, ◌+◌, ◌*◌, ◌-◌, ◌^◌, ◌≤◌, ◌<◌, length};
ghost use Rattle.joiner.specs.Left.{behind};

use record::{Head, Item};

// Where the next one stands, how many there are, and what the next one must reach.
#[derive(Clone, Copy)]
pub struct Left {
    pub at: usize,
    pub count: usize,
    pub least: u64,
}

impl Left {
    // All the points of a record.
    pub fn points(head: Head) -> Left
        ensures { result ≡ record { at = head.start; count = head.points; least = 0 } }
    {
        Left {
            at: head.start,
            count: head.points,
            least: 0,
        }
    }

    // All the scans of a record, which stand at the end of its bytes.
    pub fn scans(bytes: &[u8], head: Head) -> Left
        requires { 8 * head.scans ≤ length bytes.now }
        ensures { result ≡ record { at = length bytes.now - 8 * head.scans; count = head.scans; least = 0 } }
    {
        Left {
            at: bytes.len() - 8 * head.scans,
            count: head.scans,
            least: 0,
        }
    }

    // The first that is left, if it is well formed.
    pub fn first<T: Item>(self, bytes: &[u8]) -> Option<T>
        requires { self.at ≤ length bytes.now }
        ensures { result ≡ T.items.step self.least bytes.now self.at }
    {
        T::item_at(bytes, self.at, self.least)
    }

    // Passes over the first.
    pub fn pass<T: Item>(&mut self, first: T)
        requires { (0 < self.old.count) × (self.old.at + T.items.size first < 2 ^ 64) }
        ensures { self.new ≡ behind T.items self.old first }
    {
        self.at += first.item_size();
        self.count -= 1;
        self.least = first.above();
    }
}
