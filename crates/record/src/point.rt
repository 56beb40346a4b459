// What a record names: points, each a read, a put or a delete of one key, and scans of a range of keys.
ghost use Rattle.record.specs.Record.{KindIs, KeyIs, SizeIs, PayloadIs};

// The kinds' numbers in a record's bytes and in lists.
pub const READ: u8 = 1;

pub const PUT: u8 = 2;

pub const DELETE: u8 = 3;

#[derive(Clone, Copy)]
pub enum Point {
    // A read says nothing of whether the key was there.
    Read(u32),
    // The key and its payload.
    Put(u32, u64),
    Delete(u32),
}

// The keys from low to high, both ends with it.
#[derive(Clone, Copy)]
pub struct Scan {
    pub low: u32,
    pub high: u32,
}

impl Point {
    // The kind's number in a record's bytes. A method, as the key and the size are, since C and the rules name each of them.
    pub fn kind(self) -> u8
        ensures { KindIs self result }
    {
        match self {
            Point::Read(_) => READ,
            Point::Put(_, _) => PUT,
            Point::Delete(_) => DELETE,
        }
    }

    pub fn key(self) -> u32
        ensures { KeyIs self result }
    {
        match self {
            Point::Read(key) | Point::Put(key, _) | Point::Delete(key) => key,
        }
    }

    // How many bytes the point has in a record.
    pub fn size(self) -> usize
        ensures { SizeIs self result }
    {
        match self {
            Point::Put(_, _) => 13,
            Point::Read(_) | Point::Delete(_) => 5,
        }
    }

    // The payload of a put; 0 for a read or a delete.
    pub fn payload(self) -> u64
        ensures { PayloadIs self result }
    {
        match self {
            Point::Put(_, payload) => payload,
            Point::Read(_) | Point::Delete(_) => 0,
        }
    }
}
