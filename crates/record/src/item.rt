// What stands one behind the other in a record: its points, and its scans.
ghost use Rattle.std.specs.Prelude.{◌≡◌, ◌+◌, ◌≤◌, ℕ, List, length, Some};
ghost use Rattle.record.specs.Parse.{Items, point_items, scan_items};
ghost use Rattle.record.specs.Steps.{point_within, scan_within};

use crate::checker::{point_at, scan_at};
use crate::point::{Point, Scan};

pub trait Item: Copy {
    // How items of this type stand in a record's bytes.
    ghost items: { Items Self };

    // The item at a place, if it is well formed and no lower than `least`.
    fn item_at(bytes: &[u8], at: usize, least: u64) -> Option<Self>
        requires { at ≤ length bytes.now }
        ensures { result ≡ items.step least bytes.now at };

    // How many bytes it has.
    fn item_size(self) -> usize
        ensures { result ≡ items.size self };

    // What the item behind it must reach.
    fn above(self) -> u64
        ensures { result ≡ items.above self };

    // An item that is found ends within the bytes.
    ghost within: { (least : ℕ) (bytes : List ℕ) (at : ℕ) (item : Self)
        → items.step least bytes at ≡ Some item → at + items.size item ≤ length bytes };
}

impl Item for Point {
    ghost items = { point_items };

    ghost within = { point_within };

    fn item_at(bytes: &[u8], at: usize, least: u64) -> Option<Point> {
        point_at(bytes, at, least)
    }

    fn item_size(self) -> usize {
        self.size()
    }

    fn above(self) -> u64 {
        u64::from(self.key()) + 1
    }
}

impl Item for Scan {
    ghost items = { scan_items };

    ghost within = { scan_within };

    fn item_at(bytes: &[u8], at: usize, least: u64) -> Option<Scan> {
        scan_at(bytes, at, least)
    }

    fn item_size(self) -> usize {
        8
    }

    fn above(self) -> u64 {
        u64::from(self.high) + 1
    }
}
