// What is told of a record that was asked for.
ghost use Rattle.asking.specs.Told.{Tells};

use meld::{Status, status};
use reason::{Explained, explain};
use record_log::Cut;

#[derive(Clone, Copy)]
pub enum Told {
    // No pool can be made: how many bytes of the limits there are, and what they say.
    Limits {
        held: usize,
        n: u32,
        z: u32,
    },
    // No record has that position: what stands behind the last, and how many there are.
    Over {
        found: Cut,
        records: u32,
    },
    // The pool is unfit, which the explanation says.
    Unfit(Explained),
    // The record was explained: the status of its pool, and the explanation.
    Record {
        status: Status,
        explained: Explained,
    },
}

// A read failed, and nothing is told.
#[derive(Clone, Copy)]
pub struct Unread;

// Explains bytes as a record to a pool; both are only read.
pub fn tell(pool: &[u8], bytes: &[u8]) -> Told
    ensures { Tells pool.now bytes.now result }
{
    let explained = explain(pool, bytes);
    match status(pool) {
        Ok(status) => Told::Record { status, explained },
        Err(_) => Told::Unfit(explained),
    }
}
